// The numbers of a map that are refused, line by line as request T-09 has them. No sum is made that may not fit.
#![tactic(auto)]

ghost use Rattle.std.specs.Prelude.{◌≡◌, ◌+◌, ◌-◌, ltb};
ghost use Rattle.mapper_rules.specs.Walk.{input_top};
ghost use Rattle.mapper_rules.specs.Numbers.{outside, bad_level_lem, top_bytes_lem, bad_registers_lem, bad_range_lem, bad_numbers_lem};

use mapper_laws::PAGE;

// T0SZ is bits 5:0 of VTCR_EL2 and SL0 bits 7:6; BADDR is bits 47:1 of VTTBR_EL2.
pub const T0SZ_VALUES: u64 = 64;

pub const SL0_VALUES: u64 = 4;

pub const BADDR_VALUES: u64 = 0x800000000000;

const LAST_OUTPUT: u64 = 0xffffffffffff;

fn is_outside(low: u64, high: u64, t: u64) -> bool
    ensures { result ≡ outside low high t }
{
    !(low..=high).contains(&t)
}

fn bad_level(sl: u64, t: u64) -> bool
    ensures { result ≡ bad_level_lem sl t }
{
    if sl == 2 {
        return is_outside(16, 24, t);
    }
    if sl == 1 {
        return is_outside(21, 33, t);
    }
    if sl == 0 {
        return is_outside(30, 39, t);
    }
    true
}

// The whole size of the top table: 8 bytes for each of its entries, 2^(46 - T0SZ - 9 * SL0) in all, and a page at least.
pub fn top_bytes(vtcr: u64) -> u64
    ensures { result ≡ top_bytes_lem vtcr }
{
    let less = vtcr % T0SZ_VALUES + 9 * (vtcr / T0SZ_VALUES % SL0_VALUES);
    if less < 34 {
        return 1u64 << (46 - less);
    }
    PAGE
}

fn bad_registers(vttbr: u64, vtcr: u64) -> bool
    ensures { result ≡ bad_registers_lem vttbr vtcr }
{
    let bad = bad_level(vtcr / T0SZ_VALUES % SL0_VALUES, vtcr % T0SZ_VALUES);
    if bad {
        return true;
    }
    let top = vttbr / 2 % BADDR_VALUES * 2;
    let bytes = top_bytes(vtcr);
    top % bytes != 0
}

// The last input of all: 2^(64 - T0SZ) itself may not fit.
pub fn last_input(vtcr: u64) -> u64
    ensures { result ≡ input_top vtcr - 1 }
{
    u64::MAX >> (vtcr % T0SZ_VALUES)
}

// x is less than a + b, a sum that may not fit.
pub fn below_sum(x: u64, a: u64, b: u64) -> bool
    ensures { result ≡ ltb x (a + b) }
{
    match a.checked_add(b) {
        Some(sum) => x < sum,
        None => true,
    }
}

fn bad_range(vtcr: u64, output: u64, input: u64, size: u64) -> bool
    ensures { result ≡ bad_range_lem vtcr output input size }
{
    if size == 0 {
        return true;
    }
    if size % PAGE != 0 {
        return true;
    }
    if output % PAGE != 0 {
        return true;
    }
    if input % PAGE != 0 {
        return true;
    }
    let past = below_sum(LAST_OUTPUT, output, size - 1);
    if past {
        return true;
    }
    below_sum(last_input(vtcr), input, size - 1)
}

// Whether a map with these numbers is refused for them; `base` is the address of the arena's first byte.
pub fn bad_numbers(base: u64, vttbr: u64, vtcr: u64, output: u64, input: u64, size: u64) -> bool
    ensures { result ≡ bad_numbers_lem base vttbr vtcr output input size }
{
    let bad = bad_registers(vttbr, vtcr);
    if bad {
        return true;
    }
    if base % PAGE != 0 {
        return true;
    }
    bad_range(vtcr, output, input, size)
}
