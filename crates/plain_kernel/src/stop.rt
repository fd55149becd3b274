//! Why a run did not come to its end.

use sim_base::{Key, NodeId};

/// Why a run did not come to its end.
#[derive(Clone, Copy, Debug, PartialEq, Eq)]
pub enum KernelStop {
    NoMemory,
    /// The node of the event under this key would have scheduled more events than it may.
    Limit { key: Key, node: NodeId },
    /// Lines could not be written.
    WriteFault,
}
