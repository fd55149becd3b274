//! Tests of rows whose items threads draw by number.
#![tactic(auto)]

#[cfg(test)]
mod rows;
