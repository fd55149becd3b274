//! A row of items that threads draw by number. Each number is drawn once over all passes, and the one thread that
//! closes the row has at each place the item that was given back there.
#![tactic(auto)]

mod plays;
mod row;
mod view;

pub use row::{Back, Pass, Row};
pub use view::Stage;
