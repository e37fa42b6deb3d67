// Words of tables, and which of them a mapping asks for. A height is the number of levels below: 0 at level 3, 3 at level 0, and any
// number above 3 is taken as 3. Sums that do not fit into 64 bits are cut, where a word is made, and never made elsewhere.
#![tactic(auto)]

ghost use Rattle.std.specs.Prelude.{◌≡◌, ◌-◌, ◌%◌, ◌^◌};
ghost use Rattle.mapper_rules.specs.Walk.{span, is_table_lem, is_block_lem};
ghost use Rattle.mapper_laws.specs.Tree.{page_of};
ghost use Rattle.mapper_laws.specs.Mapping.{permission_of_lem, meets, fits, low_bits, leaf_word_lem, table_word_lem};
ghost use Rattle.mapper_words.specs.Heights.{capped};

use mapper_laws::{Mapping, PAGE};
use mapper_numbers::below_sum;
use std::num::wrapping_add_u64;

// What a word has below its address: AF, SH inner, MemAttr write-back, and the type of a page or of a block; AF and the type of a table.
const PAGE_BITS: u64 = 0x73f;

const BLOCK_BITS: u64 = 0x73d;

const TABLE_BITS: u64 = 0x403;

// Bits 47:12 have so many values.
const TABLE_PAGES: u64 = 0x1000000000;

// The bytes of input that one word translates.
pub fn span_of(height: u64) -> u64
    ensures { result ≡ span (capped height) }
{
    if height == 0 {
        return PAGE;
    }
    if height == 1 {
        return 0x200000;
    }
    if height == 2 {
        return 0x40000000;
    }
    0x8000000000
}

// The word leads to a table, or at level 3 to a page.
pub fn is_table(d: u64) -> bool
    ensures { result ≡ is_table_lem d }
{
    d % 4 == 3
}

// The word is a block.
pub fn is_block(height: u64, d: u64) -> bool
    ensures { result ≡ is_block_lem height d }
{
    d % 4 == 1 && (1..=2).contains(&height)
}

// The page of the table that the word leads to, counted from address 0.
pub fn table_page(d: u64) -> u64
    ensures { result ≡ page_of d }
{
    d / PAGE % TABLE_PAGES
}

// The word that leads to the table at an address.
pub fn table_word(address: u64) -> u64
    ensures { result ≡ table_word_lem address % 2 ^ 64 }
{
    wrapping_add_u64(address, TABLE_BITS)
}

// S2AP.
pub fn permission_of(readable: bool, writable: bool) -> u64
    ensures { result ≡ permission_of_lem readable writable }
{
    if writable {
        if readable {
            return 3;
        }
        return 2;
    }
    if readable {
        return 1;
    }
    0
}

fn low_bits(height: u64) -> u64
    ensures { result ≡ low_bits height }
{
    if height == 0 {
        return PAGE_BITS;
    }
    BLOCK_BITS
}

// The page or block of the inputs from e on.
pub fn leaf_word(q: Mapping, height: u64, e: u64) -> u64
    ensures { result ≡ leaf_word_lem q height e % 2 ^ 64 }
{
    let output = wrapping_add_u64(q.out, e.saturating_sub(q.from));
    let below = wrapping_add_u64(q.permission << 6, low_bits(height));
    wrapping_add_u64(output, below)
}

// Some of the inputs from e on, of one word, are asked for.
pub fn word_meets(q: Mapping, height: u64, e: u64) -> bool
    ensures { result ≡ meets q (capped height) e }
{
    let met = below_sum(q.from, e, span_of(height));
    if met {
        return e < q.past;
    }
    false
}

// One page or block serves all of them.
pub fn word_fits(q: Mapping, height: u64, e: u64) -> bool
    ensures { result ≡ fits q (capped height) e }
{
    if e < q.from {
        return false;
    }
    let bytes = span_of(height);
    let cut = below_sum(q.past, e, bytes);
    if cut {
        return false;
    }
    if height > 2 {
        return false;
    }
    (q.out % bytes + (e - q.from) % bytes) % bytes == 0
}
