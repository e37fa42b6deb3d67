// The free ranges of the allocator in an image: listed, held against the bytes of an arena, and their pages marked.
#![tactic(auto)]

ghost use Rattle.std.specs.Prelude.{◌&&◌, ◌≡◌, ◌/◌, ◌+◌, ◌-◌, ◌≤◌, leb, ltb, length};
ghost use Rattle.pool_state.specs.Lent.{was, is};
ghost use Rattle.mapper_free.specs.Free.{Frees, all_inside, touches, Adds};

use image_reading::read_current;
use mapper_laws::PAGE;
use pool_listing::list_in;
use pool_state::new;

// The first and last bytes of the free ranges, by address, into two slices, and their number; none also where this is the image of no sound state.
pub fn free_ranges(image: &[u8], starts: &mut [u64], lasts: &mut [u64]) -> Option<usize>
    ensures { Frees image.now (was starts) (was lasts) result (is starts) (is lasts) }
{
    let mut lowest = 0;
    let mut state = new();
    let readable = read_current(
        image,
        &mut lowest,
        &mut state.free_size,
        &mut state.first_entry.0,
        &mut state.free_list,
        &mut state.start,
        &mut state.end,
        &mut state.enabled,
        &mut state.previous,
        &mut state.next,
        &mut state.list_prev,
        &mut state.list_next,
    );
    if readable {
        let first = state.first_entry;
        return list_in(&state.start, &state.end, &state.next, first, starts, lasts);
    }
    None
}

// The range lies among the bytes from low to before high.
fn range_inside(low: u64, high: u64, start: u64, last: u64) -> bool
    ensures { result ≡ (leb low start && ltb last high) }
{
    low <= start && last < high
}

// All of the first `count` ranges do.
pub fn ranges_inside(low: u64, high: u64, starts: &[u64], lasts: &[u64], count: usize) -> bool
    requires { (count ≤ length starts.now) × (count ≤ length lasts.now) }
    ensures { result ≡ all_inside low high starts.now lasts.now count }
{
    for i in 0..count {
        if !range_inside(low, high, starts[i], lasts[i]) {
            return false;
        }
    }
    true
}

// The marks from `begin` to before `end` are set.
fn paint(marks: &mut [bool], begin: usize, end: usize)
    requires { end ≤ length marks.old }
    ensures { Adds 0 (λ i. leb begin i && ltb i end) (was marks) (is marks) }
{
    if begin < end {
        marks[begin..end].fill(true);
    }
}

// The marks of the pages from `from` to `to`; the first mark is that of page lo.
fn mark_pages(marks: &mut [bool], lo: u64, from: u64, to: u64)
    ensures { Adds lo (λ p. leb from p && leb p to) (was marks) (is marks) }
{
    if to < lo {
        return;
    }
    let most = marks.len();
    let reach = (to - lo) as usize;
    if from < lo {
        if reach < most {
            paint(marks, 0, reach + 1);
            return;
        }
        paint(marks, 0, most);
        return;
    }
    let begin = (from - lo) as usize;
    if reach < most {
        paint(marks, begin, reach + 1);
        return;
    }
    paint(marks, begin, most);
}

// The marks of the pages that the first `count` ranges touch.
pub fn mark_free(marks: &mut [bool], lo: u64, starts: &[u64], lasts: &[u64], count: usize)
    requires { (count ≤ length starts.now) × (count ≤ length lasts.now) }
    ensures { Adds lo (touches starts.now lasts.now count) (was marks) (is marks) }
{
    for i in 0..count {
        let from = starts[i] / PAGE;
        let to = lasts[i] / PAGE;
        mark_pages(marks, lo, from, to);
    }
}
