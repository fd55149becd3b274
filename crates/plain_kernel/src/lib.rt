//! The plain run: one thread, one list of events.
#![tactic(auto)]

mod outcome;
mod report;
mod run;
mod stop;

pub use report::Report;
pub use run::run_plain;
pub use stop::KernelStop;
