//! The world in which a run begins: the nodes of a scenario, and the first ticks of its applications.
#![tactic(auto)]

mod apps;
mod draft;
mod ends;
mod graph;
mod grouping;
mod guide;
mod ifaces;
mod lans;
mod losses;
mod networks;
mod plan;
mod routing;
mod shares;
mod ticks;
mod world;

pub use world::World;
