//! A binary heap of small entries, with the least key on top. The keys stand beside it, and are read only
//! where two times are equal.

ghost use Rattle.std.specs.Prelude.{◌≡◌, ◌+◌, ◌*◌, ◌<◌, ◌≤◌, length};
ghost use Rattle.std.specs.List.{AllByRecursion};
ghost use Rattle.std.specs.List.Sorted.{IsPermutation};
ghost use Rattle.std_alloc.specs.BinaryHeap.Sift.{ComparesAt, IsGreaterChild, SiftsUp, RestoresHeap};
ghost use Rattle.sim_base.specs.KeyOrder.{before};
ghost use Rattle.event_queue.specs.Heap.{key_at, entry_cmp, IsTimed};

use sim_base::Key;

/// The time of a pending event, and the place of its key and its load.
#[derive(Clone, Copy)]
pub(crate) struct Entry {
    pub(crate) time: u64,
    pub(crate) place: usize,
}

/// Moves the entry at `from` up, until the one above it comes no later.
pub(crate) fn rise(heap: &mut [Entry], keys: &[Key], from: usize)
    requires inside { from < length heap.old }
    requires timed { AllByRecursion (IsTimed keys.now) heap.old }
    ensures permutation { IsPermutation heap.old heap.new }
    ensures rises { SiftsUp (entry_cmp keys.now) heap.old from heap.new }
{
    let mut at = from;
    while 0 < at && is_earlier(heap, keys, at, (at - 1) / 2) {
        heap.swap(at, (at - 1) / 2);
        at = (at - 1) / 2;
    }
}

/// Makes a heap again of one whose top was replaced: the top goes down to a leaf, and up again from there.
pub(crate) fn mend(heap: &mut [Entry], keys: &[Key])
    requires { AllByRecursion (IsTimed keys.now) heap.old }
    ensures permutation { IsPermutation heap.old heap.new }
    ensures mends { RestoresHeap (entry_cmp keys.now) heap.old 1 (length heap.old) heap.new }
{
    let len = heap.len();
    if len == 0 {
        return;
    }
    let mut at = 0;
    while at < len / 2 {
        let child = earlier_child(heap, keys, at);
        heap.swap(at, child);
        at = child;
    }
    rise(heap, keys, at);
}

fn earlier_child(heap: &[Entry], keys: &[Key], at: usize) -> usize
    requires inside { 2 * at + 1 < length heap.now }
    requires timed { AllByRecursion (IsTimed keys.now) heap.now }
    ensures bound { (result < length heap.now) × (at * 2 + 1 ≤ result) × (result ≤ at * 2 + 2) }
    ensures best { IsGreaterChild (entry_cmp keys.now) heap.now at result (length heap.now) }
{
    let left = 2 * at + 1;
    if heap.len() <= left + 1 {
        return left;
    }
    let is_left = is_earlier(heap, keys, left, left + 1);
    left + !is_left as usize
}

fn is_earlier(heap: &[Entry], keys: &[Key], one: usize, other: usize) -> bool
    requires inside { (one < length heap.now) × (other < length heap.now) }
    requires timed { AllByRecursion (IsTimed keys.now) heap.now }
    ensures { ComparesAt (entry_cmp keys.now) heap.now other one result }
{
    comes_before(heap[one], heap[other], keys)
}

fn comes_before(one: Entry, other: Entry, keys: &[Key]) -> bool
    requires { IsTimed keys.now one × IsTimed keys.now other }
    ensures { result ≡ before (key_at keys.now one.place) (key_at keys.now other.place) }
{
    if one.time != other.time {
        return one.time < other.time;
    }
    keys[one.place].is_before(&keys[other.place])
}
