// The words of a lent arena, by their numbers counted from address 0; `first` is the number of the arena's first word. Where the arena
// has no word, 0 is read and nothing is stored.
#![tactic(auto)]

ghost use Rattle.std.specs.Prelude.{◌≡◌, ◌*◌};
ghost use Rattle.mapper_laws.specs.Tree.{page_of};
ghost use Rattle.mapper_laws.specs.Arena.{shows, stored, cleared};

use mapper_words::table_page;

// The words of a table.
pub const TABLE_WORDS: u64 = 512;

// The word of number w.
pub fn word_at(arena: &[u64], first: u64, w: u64) -> u64
    ensures { result ≡ shows first arena.now w }
{
    if w < first {
        return 0;
    }
    let i = (w - first) as usize;
    if i < arena.len() {
        return arena[i];
    }
    0
}

// The word of number w becomes v.
pub fn put_word(arena: &mut [u64], first: u64, w: u64, v: u64)
    ensures { arena.new ≡ stored first arena.old w v }
{
    if w < first {
        return;
    }
    let i = (w - first) as usize;
    if i < arena.len() {
        arena[i] = v;
    }
}

// The words of the table that the word d leads to become 0.
pub fn clear_table(arena: &mut [u64], first: u64, d: u64)
    ensures { arena.new ≡ cleared 512 first arena.old (512 * page_of d) }
{
    let at = TABLE_WORDS * table_page(d);
    for j in 0..TABLE_WORDS {
        put_word(arena, first, at + j, 0);
    }
}
