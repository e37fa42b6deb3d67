// Tables that are reached, each marked where it is met: one that was marked before, that lies outside the arena, or that is one too many is told.
// The marks are those of one window of pages; of a page outside of it there is none.
#![tactic(auto)]

ghost use Rattle.std.specs.Prelude.{true, ◌≡◌, ◌+◌, ◌^◌, ◌≤◌};
ghost use Rattle.pool_state.specs.Lent.{was, is};
ghost use Rattle.mapper_marks.specs.Marking.{is_marked_lem, marked, run, meet, meet_all, tables_at, tables_in};

use mapper_arena::{TABLE_WORDS, word_at};
use mapper_words::{is_table, table_page};

// The pages of the arena, from the lowest to before `past`, and the first of the window.
#[derive(Clone, Copy)]
pub struct Limits {
    pub lowest: u64,
    pub past: u64,
    pub lo: u64,
}

pub fn is_marked(marks: &[bool], lo: u64, page: u64) -> bool
    ensures { result ≡ is_marked_lem lo marks.now page }
{
    if page < lo {
        return false;
    }
    let k = (page - lo) as usize;
    if k < marks.len() {
        return marks[k];
    }
    false
}

pub fn set_mark(marks: &mut [bool], lo: u64, page: u64)
    ensures { is marks ≡ marked lo (was marks) page }
{
    if page < lo {
        return;
    }
    let k = (page - lo) as usize;
    if k < marks.len() {
        marks[k] = true;
    }
}

// Whether the page is within the number that is left, lies inside and is not marked; then it is counted and marked.
pub fn meet_page(marks: &mut [bool], left: &mut u64, limits: Limits, page: u64) -> bool
    ensures { run result (is left) (is marks) ≡ meet limits page (run true (was left) (was marks)) }
{
    if *left == 0 {
        return false;
    }
    if page < limits.lowest {
        return false;
    }
    if limits.past <= page {
        return false;
    }
    let lo = limits.lo;
    if is_marked(&marks[..], lo, page) {
        return false;
    }
    set_mark(marks, lo, page);
    *left -= 1;
    true
}

// The table that a word leads to, and all below it; whether all of them were fine.
#[cycle(marks)]
fn mark_at(
    arena: &[u64],
    first: u64,
    marks: &mut [bool],
    left: &mut u64,
    limits: Limits,
    height: u64,
    d: u64,
) -> bool
    ensures { run result (is left) (is marks) ≡ meet_all limits (tables_at first arena.now height d) (run true (was left) (was marks)) }
{
    if height == 0 {
        return true;
    }
    if is_table(d) {
        let page = table_page(d);
        if meet_page(marks, left, limits, page) {
            let at = TABLE_WORDS * page;
            return mark_in(
                arena,
                first,
                marks,
                left,
                limits,
                height - 1,
                at,
                TABLE_WORDS,
                true,
            );
        }
        return false;
    }
    true
}

// The tables that the `count` words from `at` on lead to; after one that is told, none is looked at.
#[cycle(marks)]
pub fn mark_in(
    arena: &[u64],
    first: u64,
    marks: &mut [bool],
    left: &mut u64,
    limits: Limits,
    height: u64,
    at: u64,
    count: u64,
    fine: bool,
) -> bool
    requires { at + count ≤ 2 ^ 50 }
    ensures { run result (is left) (is marks) ≡ meet_all limits (tables_in first arena.now height at count) (run fine (was left) (was marks)) }
{
    if !fine {
        return false;
    }
    for j in 0..count {
        let d = word_at(arena, first, at + j);
        if !mark_at(arena, first, marks, left, limits, height, d) {
            return false;
        }
    }
    true
}
