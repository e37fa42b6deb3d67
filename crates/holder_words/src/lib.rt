// A register in words, three an entry, which can be lent as one array.
#![tactic(auto)]

ghost use Rattle.std.specs.Prelude.{◌≡◌, ◌<◌};
ghost use Rattle.holder_rules.specs.Register.{entries};
ghost use Rattle.holder_words.specs.Words.{entry_at_lem, entries_in};

use holder_rules::{ENTRIES, Entry, Holder, Register};
use pool_state::Address;

pub const WORDS: usize = 3 * ENTRIES;

fn entry_at(words: &[u64; WORDS], i: usize) -> Entry
    requires { i < entries }
    ensures { result ≡ entry_at_lem words.now i }
{
    let at = 3 * i;
    Entry {
        holder: Holder(words[at]),
        start: Address(words[at + 1]),
        last: Address(words[at + 2]),
    }
}

// The register that the words hold.
pub fn register_in(words: &[u64; WORDS]) -> Register
    ensures { result.entries ≡ entries_in words.now entries }
{
    let mut register = Register {
        entries: [Entry {
            holder: Holder(0),
            start: Address(0),
            last: Address(0),
        }; ENTRIES],
    };
    for i in 0..ENTRIES {
        register.entries[i] = entry_at(words, i);
    }
    register
}

// The words of a register.
pub fn words_of(register: Register) -> [u64; WORDS]
    ensures { entries_in result entries ≡ register.entries }
{
    let mut words = [0; WORDS];
    for i in 0..ENTRIES {
        let e = register.entries[i];
        let at = 3 * i;
        words[at] = e.holder.0;
        words[at + 1] = e.start.0;
        words[at + 2] = e.last.0;
    }
    words
}
