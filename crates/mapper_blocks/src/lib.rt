// Whether a block stands where a mapping wants a table.
#![tactic(auto)]

ghost use Rattle.std.specs.Prelude.{◌||◌, ◌≡◌, ◌+◌, ◌*◌, ◌^◌, ◌≤◌};
ghost use Rattle.mapper_rules.specs.Walk.{span};
ghost use Rattle.mapper_laws.specs.Mapping.{opens};
ghost use Rattle.mapper_blocks.specs.Blocks.{blocked_at, blocked_in};

use mapper_arena::{TABLE_WORDS, word_at};
use mapper_laws::Mapping;
use mapper_words::{is_block, is_table, span_of, table_page, word_fits, word_meets};

// A table is wanted for the word's inputs, from e on.
pub fn word_opens(q: Mapping, height: u64, e: u64) -> bool
    requires { height ≤ 3 }
    ensures { result ≡ opens q height e }
{
    word_meets(q, height, e) && !word_fits(q, height, e)
}

// The entry d at a height, and all that it leads to.
#[cycle(blocks)]
fn block_at(arena: &[u64], first: u64, q: Mapping, height: u64, e: u64, d: u64) -> bool
    requires { (height ≤ 3) × (e + span height ≤ 2 ^ 50) }
    ensures { result ≡ blocked_at q first arena.now height e d }
{
    if height == 0 {
        return false;
    }
    if word_opens(q, height, e) {
        if is_table(d) {
            let at = TABLE_WORDS * table_page(d);
            return block_in(arena, first, q, height - 1, e, at, TABLE_WORDS, false);
        }
        return is_block(height, d);
    }
    false
}

// The entries in the `count` words from `at` on, whose inputs begin at e; none is looked at where a block was found before.
#[cycle(blocks)]
pub fn block_in(
    arena: &[u64],
    first: u64,
    q: Mapping,
    height: u64,
    e: u64,
    at: u64,
    count: u64,
    found: bool,
) -> bool
    requires { (height ≤ 3) × (e + count * span height ≤ 2 ^ 50) × (at + count ≤ 2 ^ 50) }
    ensures { result ≡ (found || blocked_in q first arena.now height e at count) }
{
    if found {
        return true;
    }
    let bytes = span_of(height);
    for j in 0..count {
        let d = word_at(arena, first, at + j);
        if block_at(arena, first, q, height, e + j * bytes, d) {
            return true;
        }
    }
    false
}
