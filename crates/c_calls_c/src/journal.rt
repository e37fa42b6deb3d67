// The calls of a journal, as C links them.
ghost use Rattle.std.specs.Prelude.{[], ◌∷◌, ◌≡◌};
ghost use Rattle.pool_state.specs.Shown.{pool};
ghost use Rattle.pool_state.specs.Lent.{was, is};
ghost use Rattle.batch.specs.InWords.{asked_of};
ghost use Rattle.journal_blocks.specs.Journal.{version};
ghost use Rattle.journal_audit.specs.Audit.{audit_of};
ghost use Rattle.journal_calls.specs.Calls.{left, put_over, write_over, read_over, Reports};

// The version byte; the answer is the place of the first block.
#[unsafe(no_mangle)]
pub extern "C" fn cinghjalofa_journal_begin(journal: &mut [u8]) -> i64
    ensures { left result (is journal) ≡ put_over (version ∷ []) (was journal) 0 }
{
    c_calls::journal::cinghjalofa_journal_begin(journal)
}

// The block of a call and its answer, from the place `at` on. The answer's 64 bits are taken as they are.
#[unsafe(no_mangle)]
pub extern "C" fn cinghjalofa_journal_write(
    journal: &mut [u8],
    at: u64,
    kind: u64,
    x: u64,
    y: u64,
    z: u64,
    answer: u64,
) -> i64
    ensures { left result (is journal) ≡ write_over (asked_of kind x y z) answer (was journal) at }
{
    c_calls::journal::cinghjalofa_journal_write(journal, at, kind, x, y, z, answer)
}

// The block at the place `at`, read into five words.
#[unsafe(no_mangle)]
pub extern "C" fn cinghjalofa_journal_read(journal: &[u8], at: u64, entry: &mut [u64]) -> i64
    ensures { left result (is entry) ≡ read_over journal.now at (was entry) }
{
    c_calls::journal::cinghjalofa_journal_read(journal, at, entry)
}

// The journal is replayed from empty; the figure becomes the final total, or the index of the first trouble.
#[unsafe(no_mangle)]
pub extern "C" fn cinghjalofa_audit(journal: &[u8], figure: &mut u64) -> i64
    ensures { Reports (audit_of pool journal.now) (was figure) result (is figure) }
{
    c_calls::journal::cinghjalofa_audit(journal, figure)
}
