//! The words of the command line: the command and its settings, or the first fault.
#![tactic(auto)]

mod command;
mod setting;

pub use command::{Command, Partition, Settings, WordCode, WordFault, read_command};
