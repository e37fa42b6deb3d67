// Table pages from the page door, over a lent image: one, and all that a mapping wants, in its order.
#![tactic(auto)]

ghost use Rattle.std.specs.Prelude.{true, ◌≡◌, ◌+◌, ◌*◌, ◌^◌, ◌≤◌};
ghost use Rattle.pool_state.specs.Lent.{was, is};
ghost use Rattle.calls.specs.Calls.{address_from};
ghost use Rattle.c_over.specs.CCalls.{returned};
ghost use Rattle.mapper_rules.specs.Walk.{span};
ghost use Rattle.mapper_pages.specs.Pages.{page_from, supply, asked, taken, word_in, wants_at, wants_in};

use c_over::call_over;
use calls::Request;
use mapper_arena::{TABLE_WORDS, word_at};
use mapper_blocks::word_opens;
use mapper_laws::{Mapping, PAGE};
use mapper_words::{is_table, span_of, table_page};

const PAGE_ORDER: u64 = 12;

// One page: its address, or minus the refusal.
pub fn take_page(image: &mut [u8]) -> i64
    ensures { returned result (is image) ≡ page_from (was image) }
{
    call_over(image, Request::Allocate(PAGE, PAGE_ORDER))
}

// The address in an answer of the door; 0 where it refuses.
pub fn page_address(answer: i64) -> u64
    ensures { result ≡ address_from answer }
{
    if answer < 0 {
        return 0;
    }
    answer as u64
}

// One page more; whether it was to be had.
fn ask_page(image: &mut [u8]) -> bool
    ensures { supply result (is image) ≡ asked (supply true (was image)) }
{
    take_page(image) >= 0
}

// The word of number w, or 0 in a table that is to be cleared.
fn word_in(arena: &[u64], first: u64, fresh: bool, w: u64) -> u64
    ensures { result ≡ word_in first arena.now fresh w }
{
    if fresh {
        return 0;
    }
    word_at(arena, first, w)
}

// The pages that a mapping wants for the entry d at a height, and for all that it leads to; whether all were to be had.
#[cycle(pages)]
fn ask_at(
    arena: &[u64],
    first: u64,
    image: &mut [u8],
    q: Mapping,
    height: u64,
    e: u64,
    d: u64,
) -> bool
    requires { (height ≤ 3) × (e + span height ≤ 2 ^ 50) }
    ensures { supply result (is image) ≡ taken (wants_at q first arena.now height e d) (supply true (was image)) }
{
    if height == 0 {
        return true;
    }
    if word_opens(q, height, e) {
        let below = height - 1;
        if is_table(d) {
            let at = TABLE_WORDS * table_page(d);
            return ask_in(
                arena,
                first,
                image,
                q,
                below,
                e,
                at,
                TABLE_WORDS,
                false,
                true,
            );
        }
        if ask_page(image) {
            return ask_in(arena, first, image, q, below, e, 0, TABLE_WORDS, true, true);
        }
        return false;
    }
    true
}

// Those for the entries in the `count` words from `at` on, whose inputs begin at e; in a table that is to be cleared all of them are 0.
#[cycle(pages)]
pub fn ask_in(
    arena: &[u64],
    first: u64,
    image: &mut [u8],
    q: Mapping,
    height: u64,
    e: u64,
    at: u64,
    count: u64,
    fresh: bool,
    enough: bool,
) -> bool
    requires { (height ≤ 3) × (e + count * span height ≤ 2 ^ 50) × (at + count ≤ 2 ^ 50) }
    ensures { supply result (is image) ≡ taken (wants_in q first arena.now fresh height e at count) (supply enough (was image)) }
{
    if !enough {
        return false;
    }
    let bytes = span_of(height);
    for j in 0..count {
        let d = word_in(arena, first, fresh, at + j);
        if !ask_at(arena, first, image, q, height, e + j * bytes, d) {
            return false;
        }
    }
    true
}
