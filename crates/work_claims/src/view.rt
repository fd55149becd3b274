//! What the passes of a row know of it.

use atomic_table::TableRule;
use std::collections::LinkedList;
use std::snapshot::Snapshot;

/// How far a pass is with an item that it drew.
pub enum Stage<T> {
    /// The item is in its place.
    Drawn,
    /// The place is open to this pass alone, in the midst of a call.
    Open,
    /// The pass has the item.
    Taken,
    /// The pass gave this item back.
    Given(T),
}

/// The row as it was made: its items, for the proofs alone, and the number of its passes.
pub struct Opening<T> {
    pub items: Snapshot<Vec<T>>,
    pub passes: u32,
}

impl<T> Drop for Opening<T> {
    fn drop(self) {
        let Opening {
            items: _,
            passes: _,
        } = self;
    }
}

/// What the seat of a pass knows: the row as it was made, whether the pass keeps the emptied list of items, how many
/// passes are joined in it, whether it has drawn a number past the row's end, and the numbers that it drew in the row.
/// No value of it is made.
pub struct View<T> {
    pub items: LinkedList<T>,
    pub passes: u32,
    pub keeps: bool,
    pub parts: u32,
    pub past: bool,
    pub drawn: LinkedList<(u32, Stage<T>)>,
}

/// The rule of a row's table.
pub struct Draws;

impl<T> TableRule<Option<T>, View<T>, Opening<T>> for Draws {
    ghost use Rattle.work_claims.specs.Rule.{KeepsRow, first_view};

    ghost holds = { KeepsRow };

    ghost first = { first_view };
}
