// Rounding, and the list of a size.
#![tactic(auto)]

ghost use Rattle.std.specs.Prelude.{◌≡◌, ◌+◌, ◌-◌, ◌<◌, ◌≤◌};
ghost use Rattle.rules.specs.Rules.{size_lists, top, down, up, list_number};

use pool_state::{Address, LISTS, ListIndex, PAGE};

// The last byte of a page, 4095, has so many leading zeros.
const PAGE_ZEROS: u32 = 52;

const LAST_LIST: u32 = LISTS as u32 - 1;

// The list number of a size: the least k from 0 with size <= 4096 * 2^k, but never above the last list. Where the size is more
// than a page, the size less one has k leading zeros fewer than 4095.
// In MiniVisor: size_to_page_order.
pub fn size_to_page_order(size: u64) -> ListIndex
    ensures result_value { result.0 ≡ list_number size }
    ensures result_lt_size_lists { result.0 < size_lists }
{
    if size <= PAGE {
        return ListIndex(0);
    }
    let k = PAGE_ZEROS - u64::leading_zeros(size - 1);
    if k > LAST_LIST {
        return ListIndex(LAST_LIST as u8);
    }
    ListIndex(k as u8)
}

// The greatest multiple of 2^order that is at most x.
pub fn align_down(x: u64, order: u64) -> u64
    requires { order ≤ 63 }
    ensures { result ≡ down order x }
{
    (x >> order) << order
}

// The least multiple of 2^order that is at least x.
pub fn align_up(x: u64, order: u64) -> u64
    requires { (x ≤ top) × (order ≤ 63) }
    ensures { result ≡ up order x }
{
    let m = 1u64 << order;
    align_down(x + (m - 1), order)
}

// A piece of the addresses: its first byte, and how many bytes it has.
#[derive(Clone, Copy)]
pub struct Aligned {
    pub start: Address,
    pub size: u64,
}

// A piece, widened at both ends to multiples of 2^order.
// In MiniVisor: align_address_and_size.
pub fn align_address_and_size(start: Address, size: u64, order: u64) -> Aligned
    requires { (start.0 + size ≤ top) × (order ≤ 63) }
    ensures { (result.start.0 ≡ down order start.0) × (result.size ≡ up order (start.0 + size) - down order start.0) }
{
    let from = align_down(start.0, order);
    let past = align_up(start.0 + size, order);
    Aligned {
        start: Address(from),
        size: past - from,
    }
}

// What remains of a piece from its start rounded up; nothing where that passes its end.
// In MiniVisor: align_address_and_available_size.
pub fn align_address_and_available_size(start: Address, size: u64, order: u64) -> Aligned
    requires { (start.0 + size ≤ top) × (order ≤ 63) }
    ensures { (result.start.0 ≡ up order start.0) × (result.size ≡ (start.0 + size) - up order start.0) }
{
    let from = align_up(start.0, order);
    let past = start.0 + size;
    if past < from {
        return Aligned {
            start: Address(from),
            size: 0,
        };
    }
    Aligned {
        start: Address(from),
        size: past - from,
    }
}
