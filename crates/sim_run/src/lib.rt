//! A run of the program: from the words and bytes that come in to the files and text that go out.
#![tactic(auto)]

mod captures;
mod create;
mod input;
mod output;
mod partition;
mod pieces;
mod places;
mod program;
mod report;
mod show;
mod simulate;
mod sizes;
mod status;
mod stop;
mod summary;
mod trace_files;
mod traces;

pub use command_words::{WordCode, WordFault};
pub use program::run_program;
pub use scenario_form::{Code, Place, Refusal};
pub use status::Status;
