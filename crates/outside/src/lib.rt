//! What a run meets outside: where the input comes from, and where files and text go.
#![tactic(auto)]

mod calls;
mod gate;
mod memory;
mod sink;
mod source;
mod store;
mod system;

pub use gate::{Gate, MeetGate, OpenGate};
pub use memory::{MemSink, MemSource, MemStore};
pub use sink::Sink;
pub use source::{Failed, Source};
pub use store::{File, StoreStop, TraceStore};
pub use system::{FolderStore, StdinSource, StdoutSink};
