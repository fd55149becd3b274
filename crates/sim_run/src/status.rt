//! The answers of a run.

use command_words::WordFault;
use scenario_form::Refusal;
use sim_base::{NodeId, Time};

/// How a run of the program ended.
#[derive(Clone, Copy, Debug, PartialEq, Eq)]
pub enum Status {
    Done,
    Words(WordFault),
    Scenario(Refusal),
    ReadFault,
    WriteFault,
    /// At this time the node would have scheduled more events than it may.
    Limit { node: NodeId, time: Time },
    NoMemory,
    /// The bytes are no capture: they leave the format here.
    Capture { offset: u64 },
}
