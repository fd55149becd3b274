//! The order of events.

ghost use Rattle.std.specs.Prelude.{◌≡◌};
ghost use Rattle.sim_base.specs.KeyOrder.{before};

use crate::time::Time;

/// The number of a node.
#[derive(Clone, Copy, Debug, PartialEq, Eq, PartialOrd, Ord)]
pub struct NodeId(pub u32);

/// Where an event stands in the order of events: by time, then by the node that it is for, then by
/// when and by whom it was scheduled, and by its scheduler's count of events.
#[derive(Clone, Copy, Debug, PartialEq, Eq, PartialOrd, Ord)]
pub struct Key {
    pub time: Time,
    pub node: NodeId,
    pub sent: Time,
    pub by: NodeId,
    pub count: u64,
}

impl Key {
    /// Whether an event with this key fires before one with the other.
    pub fn is_before(&self, other: &Key) -> bool
        ensures { result ≡ before self.now other.now }
    {
        self.cmp(other).is_lt()
    }
}
