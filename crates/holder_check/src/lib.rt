// Whether the allocator and its register are sound.
#![tactic(auto)]

ghost use Rattle.std.specs.Prelude.{◌≡◌, ◌&&◌, ◌≤◌, suc, length, drop, List};
ghost use Rattle.rules.specs.Rules.{Range, range, any, meets};
ghost use Rattle.memory_allocator.specs.Names.{pool};
ghost use Rattle.holder_rules.specs.Register.{entries};
ghost use Rattle.holder_rules.specs.Sound.{is_good_lem, is_apart, register_sound};
ghost use Rattle.holder_rules.specs.States.{is_sound_lem};
ghost use Rattle.holder_check.specs.Spans.{spans};
ghost use Rattle.holder_check.specs.Tests.{IsAsked, Tells};

use holder_entries::meets_held;
use holder_rules::{Entry, HolderAllocator, Register};
use memory_allocator::{POOL, listing};
use pool_state::TOP;

// Whether the bytes from `start` to `end` have one of those from `first` to `last`.
fn overlaps(start: u64, end: u64, first: u64, last: u64) -> bool
    ensures { result ≡ meets first (suc last) (range 0 start end) }
{
    start <= last && first <= end
}

// Whether one of the first `count` ranges of a listing has a byte from `first` to `last`.
fn meets_listed(starts: &[u64], lasts: &[u64], count: usize, first: u64, last: u64) -> bool
    requires { (count ≤ length starts.now) × (count ≤ length lasts.now) }
    ensures { result ≡ any (meets first (suc last)) (spans count starts.now lasts.now) }
{
    for i in 0..count {
        if overlaps(starts[i], lasts[i], first, last) {
            return true;
        }
    }
    false
}

// Of a holder, not empty, below 2^63; or the entry that is not used.
pub fn is_good(e: Entry) -> bool
    ensures { result ≡ is_good_lem e }
{
    if !e.is_used() {
        return e.start.0 == 0 && e.last.0 == 0;
    }
    e.holder.is_known() && e.start.0 <= e.last.0 && e.last.0 < TOP
}

// Whether an entry is good, and has no byte of the free ranges nor of an entry from number `next` on.
fn is_entry_sound<F: Fn(u64, u64) -> bool>(
    register: &Register,
    next: usize,
    e: Entry,
    meets_free: &F,
) -> bool
    requires { IsAsked (F.pre meets_free.now) }
    ensures { (free : List Range) → Tells (F.post meets_free.now) free → result ≡ (is_good_lem e && is_apart free e (drop next register.now.entries)) }
{
    if !is_good(e) {
        return false;
    }
    if !e.is_used() {
        return true;
    }
    if meets_free(e.start.0, e.last.0) {
        return false;
    }
    let size = e.last.0 - e.start.0 + 1;
    !meets_held(register, next, e.start, size)
}

// Whether the register is sound beside the free ranges that the test speaks of: whether one has a byte from a first to a last one.
pub fn is_register_sound_beside<F: Fn(u64, u64) -> bool>(register: &Register, meets_free: F) -> bool
    requires { IsAsked (F.pre meets_free) }
    ensures { (free : List Range) → Tells (F.post meets_free) free → result ≡ register_sound free register.now.entries }
{
    let entries = &register.entries[..];
    for (i, e) in entries.iter().enumerate() {
        if !is_entry_sound(register, i + 1, *e, &meets_free) {
            return false;
        }
    }
    true
}

// Whether the register is sound beside the first `count` ranges of a listing.
pub fn is_register_sound(register: Register, starts: &[u64], lasts: &[u64], count: usize) -> bool
    requires { (count ≤ length starts.now) × (count ≤ length lasts.now) }
    ensures { result ≡ register_sound (spans count starts.now lasts.now) register.entries }
{
    is_register_sound_beside(
        &register,
        |first, last| meets_listed(starts, lasts, count, first, last),
    )
}

// Whether a state is sound: the allocator in it, and the register.
pub fn is_sound(s: HolderAllocator) -> bool
    ensures { result ≡ is_sound_lem pool s }
{
    let mut starts = [0; POOL];
    let mut lasts = [0; POOL];
    match listing(s.memory, &mut starts, &mut lasts) {
        Ok(count) => is_register_sound(s.register, &starts, &lasts, count as usize),
        Err(_) => false,
    }
}
