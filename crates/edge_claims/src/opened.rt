//! How the free places of a block come to lie where all windows of the block can claim them.

ghost use Rattle.std.specs.Prelude.{◌≡◌, ◌+◌, ◌-◌, ◌≤◌, [], ◌∷◌, length, IfOk, IfErr};
ghost use Rattle.byte_block.specs.Ranges.{Free, end_of};
ghost use Rattle.edge_claims.specs.Rule.{first_view};
ghost use Rattle.edge_claims.specs.Opened.{IsOpened, AreEnds, ListsEnds};

use crate::view::{Claims, End, Opening, View};
use atomic_table::{Refused, Seat, Table};
use byte_block::{FreeRange, FrozenRange, WholeBlock};
use std::alloc::{AllocFailed, Global};
use std::sync::Arc;

// The words of a table, and its slots.
pub(crate) const FRONT: usize = 0;

pub(crate) const BACK: usize = 1;

/// The counts of free places at the ends of a block, and these places.
pub(crate) type Edges = Table<End, View, Opening, Claims, Global>;

/// A block whose free places all its windows can claim, with its first window's bytes and seat.
#[derive(Drop)]
pub(crate) struct Opened {
    pub(crate) edges: Arc<Edges, Global>,
    pub(crate) seat: Seat<End, View>,
    pub(crate) bytes: FrozenRange,
}

/// The free places before and behind the bytes of a block.
#[derive(Drop)]
struct Ends {
    low: FreeRange,
    high: FreeRange,
}

impl Opened {
    /// A block whose edges stood at `first_low` and `first_high` when it was made. Where memory is wanting,
    /// it comes back.
    pub(crate) fn of(
        alloc: Global,
        block: WholeBlock,
        first_low: u32,
        first_high: u32,
    ) -> Result<Opened, WholeBlock>
        requires within { block.from + length block.bytes ≤ block.capacity }
        requires low { block.from ≤ first_low }
        requires high { first_high ≤ block.from + length block.bytes }
        ensures ok { IfOk result (IsOpened block first_low first_high) }
        ensures err { IfErr result (λ b. b ≡ block) }
    {
        let rooms = [
            block.start() as u64,
            (block.capacity() - block.end()) as u64,
        ];
        let capacity = block.capacity();
        let (low, bytes, high) = block.into_ranges()?;
        let opening = Opening {
            bytes,
            capacity,
            first_low,
            first_high,
        };
        match lay(alloc, &rooms, Ends { low, high }, &opening) {
            Ok((edges, seat)) => Ok(Opened {
                edges,
                seat,
                bytes: opening.bytes,
            }),
            Err(Ends { low, high }) => Err(WholeBlock::of_ranges(low, opening.bytes, high)),
        }
    }
}

// A table of the free places.
fn lay(
    alloc: Global,
    rooms: &[u64; 2],
    ends: Ends,
    opening: &Opening,
) -> Result<(Arc<Edges, Global>, Seat<End, View>), Ends>
    requires rooms { rooms.now ≡ opening.now.bytes.from ∷ (opening.now.capacity - end_of opening.now.bytes) ∷ [] }
    requires ends { AreEnds opening.now ends.low ends.high }
    requires within { end_of opening.now.bytes ≤ opening.now.capacity }
    requires low { opening.now.bytes.from ≤ opening.now.first_low }
    requires high { opening.now.first_high ≤ end_of opening.now.bytes }
    ensures table { IfOk result (λ t. t.1.table_id ≡ t.0.value.shared.table_id) }
    ensures counts { IfOk result (λ t. (t.0.value.shared.table_id.words ≡ 2) × (t.0.value.shared.table_id.slots ≡ 2)) }
    ensures key { IfOk result (λ t. t.0.value.shared.key ≡ opening.now) }
    ensures seat { IfOk result (λ t. t.1.me ≡ (first_view opening.now, [])) }
    ensures err { IfErr result (λ e. (e.low ≡ ends.low) × (e.high ≡ ends.high)) }
{
    let list = listed(alloc, ends)?;
    match Edges::new(alloc, rooms, list, opening) {
        Ok((edges, seat)) => counted(alloc, edges, seat),
        Err(Refused { slots }) => Err(both(slots)),
    }
}

fn listed(alloc: Global, ends: Ends) -> Result<Vec<End>, Ends>
    ensures ok { IfOk result (λ l. ListsEnds ends.low ends.high l.items) }
    ensures err { IfErr result (λ e. (e.low ≡ ends.low) × (e.high ≡ ends.high)) }
{
    let Ok(mut list) = Vec::with_capacity(alloc, 2) else {
        return Err(ends);
    };
    let Ends { low, high } = ends;
    let Ok(()) = list.push(End::of(low)) else {
        unreachable!()
    };
    let Ok(()) = list.push(End::of(high)) else {
        unreachable!()
    };
    Ok(list)
}

fn both(mut list: Vec<End>) -> Ends
    requires { length list.items ≡ 2 }
    ensures { (low high : Free) → ListsEnds low high list.items → (result.low ≡ low) × (result.high ≡ high) }
{
    let Some(high) = list.pop() else {
        unreachable!()
    };
    let Some(low) = list.pop() else {
        unreachable!()
    };
    Ends {
        low: low.free,
        high: high.free,
    }
}

// The table with a count of its owners, which is one.
fn counted(
    alloc: Global,
    edges: Edges,
    seat: Seat<End, View>,
) -> Result<(Arc<Edges, Global>, Seat<End, View>), Ends>
    requires table { seat.table_id ≡ edges.shared.table_id }
    requires counts { (edges.shared.table_id.words ≡ 2) × (edges.shared.table_id.slots ≡ 2) }
    requires seat { seat.me ≡ (first_view edges.shared.key, []) }
    ensures ok { IfOk result (λ t. (t.0.value ≡ edges) × (t.1 ≡ seat)) }
    ensures err { IfErr result (λ e. AreEnds edges.shared.key e.low e.high) }
{
    match Arc::new(alloc, edges) {
        Ok(edges) => Ok((edges, seat)),
        Err(AllocFailed { value }) => Err(taken_back(value, seat)),
    }
}

// The free places of a table that only its first seat has ever used, and that has claimed nothing since.
fn taken_back(edges: Edges, seat: Seat<End, View>) -> Ends
    requires table { seat.table_id ≡ edges.shared.table_id }
    requires counts { (edges.shared.table_id.words ≡ 2) × (edges.shared.table_id.slots ≡ 2) }
    requires seat { seat.me ≡ (first_view edges.shared.key, []) }
    ensures { AreEnds edges.shared.key result.low result.high }
{
    let mut closed = edges.close_with(seat);
    let low = closed.take(FRONT);
    let high = closed.take(BACK);
    closed.free();
    Ends {
        low: low.free,
        high: high.free,
    }
}
