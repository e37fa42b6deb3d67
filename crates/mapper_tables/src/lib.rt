// The tables that are reached from a top table: all of them in the arena, none twice, and none on free bytes. Marks for one window of pages at a
// time tell, so that no array grows with the arena.
#![tactic(auto)]

ghost use Rattle.std.specs.Prelude.{true, ◌&&◌, ◌≡◌, ◌+◌, ◌*◌, ◌^◌, ◌≤◌, length};
ghost use Rattle.pool_state.specs.Lent.{was, is};
ghost use Rattle.mapper_marks.specs.Marking.{run, meet_all};
ghost use Rattle.mapper_free.specs.Free.{touches};
ghost use Rattle.mapper_tables.specs.Apart.{apart_in, apart};
ghost use Rattle.mapper_tables.specs.Reached.{pages_from, reached_in};

use mapper_free::mark_free;
use mapper_marks::{Limits, mark_in, meet_page};

pub const WINDOW: usize = 4096;

// The top table: its first page and how many it has, the number of its first word, its entries, and their height.
#[derive(Clone, Copy)]
pub struct Top {
    pub page: u64,
    pub pages: u64,
    pub word: u64,
    pub entries: u64,
    pub height: u64,
}

// The `count` pages from `page` on, up to the first that is told.
fn meet_pages(marks: &mut [bool], left: &mut u64, limits: Limits, page: u64, count: u64) -> bool
    requires { page + count ≤ 2 ^ 40 }
    ensures { run result (is left) (is marks) ≡ meet_all limits (pages_from page count) (run true (was left) (was marks)) }
{
    for k in 0..count {
        if !meet_page(marks, left, limits, page + k) {
            return false;
        }
    }
    true
}

// In the window that begins with page `lo`.
fn window_apart(
    arena: &[u64],
    first: u64,
    top: Top,
    low: u64,
    high: u64,
    lo: u64,
    starts: &[u64],
    lasts: &[u64],
    count: usize,
) -> bool
    requires { (low ≤ high) × (top.page + top.pages ≤ 2 ^ 40) × (top.word + top.entries ≤ 2 ^ 50) × (count ≤ length starts.now) × (count ≤ length lasts.now) }
    ensures { result ≡ apart_in low high (touches starts.now lasts.now count) (reached_in first arena.now top) lo }
{
    let limits = Limits {
        lowest: low,
        past: high,
        lo,
    };
    let mut marks = [false; WINDOW];
    let mut left = high - low;
    mark_free(&mut marks, lo, starts, lasts, count);
    if meet_pages(&mut marks, &mut left, limits, top.page, top.pages) {
        return mark_in(
            arena,
            first,
            &mut marks,
            &mut left,
            limits,
            top.height,
            top.word,
            top.entries,
            true,
        );
    }
    false
}

// In all windows.
pub fn tables_apart(
    arena: &[u64],
    first: u64,
    top: Top,
    low: u64,
    high: u64,
    starts: &[u64],
    lasts: &[u64],
    count: usize,
) -> bool
    requires { (low ≤ high) × (high ≤ 2 ^ 40) × (top.page + top.pages ≤ 2 ^ 40) × (top.word + top.entries ≤ 2 ^ 50) × (count ≤ length starts.now) × (count ≤ length lasts.now) }
    ensures { result ≡ apart low high (touches starts.now lasts.now count) (reached_in first arena.now top) }
{
    let windows = (high - low) / WINDOW as u64 + 1;
    for k in 0..windows {
        let lo = low + k * WINDOW as u64;
        if !window_apart(arena, first, top, low, high, lo, starts, lasts, count) {
            return false;
        }
    }
    true
}
