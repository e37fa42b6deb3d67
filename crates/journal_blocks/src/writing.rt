// The bytes of a block.
ghost use Rattle.std.specs.Prelude.{◌≡◌, ◌+◌, ◌*◌, ◌≤◌, length};
ghost use Rattle.pool_state.specs.Lent.{was, is};
ghost use Rattle.script_texts.specs.Answers.{Puts};
ghost use Rattle.journal_blocks.specs.Journal.{word_bytes, laid_out};

use bytes_be::put_be;

// Where the call byte stands, and where the numbers begin.
pub const KIND: usize = 2;

pub const NUMBERS: usize = 3;

pub const WORD: usize = 8;

// Numbers, in 8 bytes each.
fn put_words(part: &mut [u8], words: &[u64])
    requires { length part.old ≡ 8 * length words.now }
    ensures { is part ≡ word_bytes words.now }
{
    for (k, word) in words.iter().enumerate() {
        let at = WORD * k;
        put_be(&mut part[at..at + WORD], *word);
    }
}

// The length, the call byte, and the numbers.
fn fill_block(part: &mut [u8], kind: u64, words: &[u64])
    requires { length part.old ≡ 3 + 8 * length words.now }
    ensures { is part ≡ laid_out kind words.now }
{
    let end = part.len();
    put_be(&mut part[0..KIND], (end - KIND) as u64);
    put_be(&mut part[KIND..NUMBERS], kind);
    put_words(&mut part[NUMBERS..end], words);
}

// All of the block from a place on, or nothing where it does not fit.
pub fn put_block(journal: &mut [u8], at: usize, kind: u64, words: &[u64]) -> usize
    requires { length words.now ≤ 4 }
    ensures { Puts (laid_out kind words.now) (was journal) at (is journal) result }
{
    let size = NUMBERS + WORD * words.len();
    if journal.len() < size {
        return at;
    }
    if journal.len() - size < at {
        return at;
    }
    let end = at + size;
    fill_block(&mut journal[at..end], kind, words);
    end
}
