// The stores of a mapping, in the order of MiniVisor's module, with pages from the door over a lent image.
#![tactic(auto)]

ghost use Rattle.std.specs.Prelude.{◌≡◌, ◌+◌, ◌*◌, ◌^◌, ◌≤◌};
ghost use Rattle.pool_state.specs.Lent.{was, is};
ghost use Rattle.mapper_rules.specs.Walk.{span};
ghost use Rattle.mapper_stores.specs.Stores.{held, next_word_lem, made_table_lem, store, store_in_lem};

use mapper_arena::{TABLE_WORDS, clear_table, put_word, word_at};
use mapper_laws::Mapping;
use mapper_pages::{page_address, take_page};
use mapper_words::{is_table, leaf_word, span_of, table_page, table_word, word_fits, word_meets};

// A page of the door becomes a table of zeros, and the word of number w leads to it; the answer is that word.
fn make_table(image: &mut [u8], arena: &mut [u64], first: u64, w: u64) -> u64
    ensures { (result ≡ next_word_lem (held (was arena) (was image))) × (held (is arena) (is image) ≡ made_table_lem first w (held (was arena) (was image))) }
{
    let taken = take_page(image);
    let d = table_word(page_address(taken));
    clear_table(arena, first, d);
    put_word(arena, first, w, d);
    d
}

// The entry in the word of number w, at a height, whose inputs begin at e.
#[cycle(stores)]
fn store_at(
    image: &mut [u8],
    arena: &mut [u64],
    first: u64,
    q: Mapping,
    height: u64,
    e: u64,
    w: u64,
)
    requires { (height ≤ 3) × (e + span height ≤ 2 ^ 50) }
    ensures { held (is arena) (is image) ≡ store q first height e w (held (was arena) (was image)) }
{
    if word_meets(q, height, e) {
        if height == 0 {
            put_word(arena, first, w, leaf_word(q, height, e));
            return;
        }
        if word_fits(q, height, e) {
            put_word(arena, first, w, leaf_word(q, height, e));
            return;
        }
        let d = word_at(&arena[..], first, w);
        if is_table(d) {
            let at = TABLE_WORDS * table_page(d);
            store_in(image, arena, first, q, height - 1, e, at, TABLE_WORDS);
            return;
        }
        let made = make_table(image, arena, first, w);
        let at = TABLE_WORDS * table_page(made);
        store_in(image, arena, first, q, height - 1, e, at, TABLE_WORDS);
    }
}

// The entries in the `count` words from `at` on, one after another.
#[cycle(stores)]
pub fn store_in(
    image: &mut [u8],
    arena: &mut [u64],
    first: u64,
    q: Mapping,
    height: u64,
    e: u64,
    at: u64,
    count: u64,
)
    requires { (height ≤ 3) × (e + count * span height ≤ 2 ^ 50) × (at + count ≤ 2 ^ 50) }
    ensures { held (is arena) (is image) ≡ store_in_lem q first height e at count (held (was arena) (was image)) }
{
    let bytes = span_of(height);
    for j in 0..count {
        store_at(image, arena, first, q, height, e + j * bytes, at + j);
    }
}
