// Whether all that a map rests on lies in the arena: the free bytes of a sound state, and the tables, none of them twice or on free bytes.
#![tactic(auto)]

ghost use Rattle.std.specs.Prelude.{not, ◌&&◌, ◌≡◌, ◌+◌, ◌/◌, ◌^◌, ◌≤◌, T, length};
ghost use Rattle.mapper_rules.specs.Numbers.{bad_registers_lem};
ghost use Rattle.mapper_free.specs.Free.{all_inside, touches};
ghost use Rattle.mapper_tables.specs.Apart.{apart};
ghost use Rattle.mapper_tables.specs.Reached.{reached_in};
ghost use Rattle.mapper_lies.specs.Lies.{top_of, top_byte_lem, lies};

use mapper_free::{free_ranges, ranges_inside};
use mapper_laws::{PAGE, WORD};
use mapper_numbers::{BADDR_VALUES, SL0_VALUES, T0SZ_VALUES, top_bytes};
use mapper_tables::{Top, tables_apart};
use pool_state::POOL;

// No table word names a byte from here on.
const TOP: u64 = 0x1000000000000;

// The top table of registers that are not refused.
pub fn top_of(vttbr: u64, vtcr: u64) -> Top
    requires { T (not (bad_registers_lem vttbr vtcr)) }
    ensures { result ≡ top_of vttbr vtcr }
{
    let sl = vtcr / T0SZ_VALUES % SL0_VALUES;
    let table = vttbr / 2 % BADDR_VALUES * 2;
    let bytes = top_bytes(vtcr);
    Top {
        page: table / PAGE,
        pages: bytes / PAGE,
        word: table / WORD,
        entries: 1u64 << (43 - (vtcr % T0SZ_VALUES + 9 * sl)),
        height: sl + 1,
    }
}

// The first byte after so many words, or 2^48.
fn top_byte(base: u64, words: usize) -> u64
    requires { base ≤ 2 ^ 48 }
    ensures { result ≡ top_byte_lem base words }
{
    let room = (TOP - base) / WORD;
    let many = words as u64;
    if room < many {
        return TOP;
    }
    base + WORD * many
}

// The listed ranges and the tables lie right.
fn ranges_lie(
    arena: &[u64],
    base: u64,
    high: u64,
    top: Top,
    starts: &[u64],
    lasts: &[u64],
    count: usize,
) -> bool
    requires { (base ≤ high) × (high ≤ 2 ^ 48) × (top.page + top.pages ≤ 2 ^ 40) × (top.word + top.entries ≤ 2 ^ 50) × (count ≤ length starts.now) × (count ≤ length lasts.now) }
    ensures { result ≡ (all_inside base high starts.now lasts.now count && apart (base / 4096) (high / 4096) (touches starts.now lasts.now count) (reached_in (base / 8) arena.now top)) }
{
    if ranges_inside(base, high, starts, lasts, count) {
        return tables_apart(
            arena,
            base / WORD,
            top,
            base / PAGE,
            high / PAGE,
            starts,
            lasts,
            count,
        );
    }
    false
}

// The image, its free bytes and the tables.
pub fn all_lies(image: &[u8], arena: &[u64], base: u64, top: Top) -> bool
    requires { (top.page + top.pages ≤ 2 ^ 40) × (top.word + top.entries ≤ 2 ^ 50) }
    ensures { result ≡ lies base top image.now arena.now }
{
    if TOP < base {
        return false;
    }
    let high = top_byte(base, arena.len());
    let mut starts = [0u64; POOL];
    let mut lasts = [0u64; POOL];
    let listed = free_ranges(image, &mut starts, &mut lasts);
    match listed {
        Some(count) => ranges_lie(arena, base, high, top, &starts, &lasts, count),
        None => false,
    }
}
