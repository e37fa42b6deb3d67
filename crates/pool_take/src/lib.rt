// Taking a piece out of a free range, in place.
#![tactic(auto)]

ghost use Rattle.pool_state.specs.Shown.{pool};
ghost use Rattle.pool_take.specs.Take.{AsksSome, Taken};
ghost use Rattle.pool_state.specs.Lent.{Keeps};

use pool_entries::{NoRecord, create_memory_entry, delete_entry, insert};
use pool_links::link_of;
use pool_shelf::resize;
use pool_state::{Address, Fields, RecordIndex};

// The bytes from a to before t are taken out of the range in record i; in place.
// In MiniVisor: define_used_memory.
pub fn define_used_memory(
    f: &mut Fields<'_>,
    i: RecordIndex,
    a: Address,
    t: Address,
) -> Result<(), NoRecord>
    requires { AsksSome pool i.0 a.0 t.0 f }
    ensures keeps { Keeps f }
    ensures does { Taken pool i.0 a.0 t.0 result f }
{
    let n = i.0 as usize;
    let from = f.start[n];
    let last = f.end[n];
    let left = *f.free_size - (t.0 - a.0);
    if from == a.0 {
        if t.0 == last + 1 {
            delete_entry(f, i);
            *f.free_size = left;
            return Ok(());
        }
        resize(
            f.start,
            f.end,
            f.list_prev,
            f.list_next,
            f.free_list,
            i,
            t,
            Address(last),
        );
        *f.free_size = left;
        return Ok(());
    }
    if t.0 == last + 1 {
        resize(
            f.start,
            f.end,
            f.list_prev,
            f.list_next,
            f.free_list,
            i,
            Address(from),
            Address(a.0 - 1),
        );
        *f.free_size = left;
        return Ok(());
    }
    let Some(j) = create_memory_entry(f.enabled) else {
        return Err(NoRecord);
    };
    resize(
        f.start,
        f.end,
        f.list_prev,
        f.list_next,
        f.free_list,
        i,
        Address(from),
        Address(a.0 - 1),
    );
    let y = link_of(f.next, i);
    insert(f, i, j, y, t, Address(last));
    *f.free_size = left;
    Ok(())
}
