//! Reading a scenario from TOML: the scenario, or the first refusal with its place.
#![tactic(auto)]

mod across;
mod app;
mod cut;
mod document;
mod field;
mod fields;
mod groups;
mod interface;
mod lan;
mod link;
mod lookups;
mod loss;
mod network;
mod queue;
mod read;
mod refusal;
mod route;
mod scenario;
mod sections;
mod shape;
mod table;
mod twice;
mod values;

pub use cut::cut_into;
pub use field::Code;
pub use read::{SCENARIO_LIMIT, document_of, read_scenario};
pub use refusal::{Place, ReadStop, Refusal};
pub use scenario::{App, Kind, Lan, Link, Loss, Queue, Route, Routing, Scenario};
