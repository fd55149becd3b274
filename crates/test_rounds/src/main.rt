//! Tokens passed on over a net of five nodes, by one list of events and by rounds over groups of nodes. Reads trials
//! from standard input, a line each, and writes what they gave:
//!
//! - `plain ALLOWANCE` runs one list, and writes each firing: its time, its node, and how often the token might still be
//!   passed on.
//! - `groups G G G G G order G .. lookahead L allowance A` runs rounds, the groups of a window in this order, and writes
//!   whether firings and ending equal those of the plain run.
#![tactic(auto)]

mod network;
mod rounds;
mod soundness;
mod trial;

use anyhow::Result;
use rounds::{Outcome, are_equal, run_in_one_list, run_in_rounds};
use std::alloc::{AllocError, Global};
use trial::Trial;

/// The firings of a run, and how it ended.
fn firings_text(alloc: Global, outcome: &Outcome) -> Result<String, AllocError> {
    let mut text = String::new(alloc);
    for token in outcome.fired.iter() {
        let (time, node, hops) = (token.key.time.0, token.key.node.0, token.hops);
        let firing = format!(in alloc; "{time} {node} {hops}\n")?;
        text.push_str(firing.as_str())?;
    }
    let ending = ending_text(alloc, outcome)?;
    text.push_str(ending.as_str())?;
    Ok(text)
}

/// `done`, or the time and the node at which a node might pass on no more.
fn ending_text(alloc: Global, outcome: &Outcome) -> Result<String, AllocError> {
    match &outcome.limit {
        None => format!(in alloc; "done"),
        Some(key) => {
            let (time, node) = (key.time.0, key.node.0);
            format!(in alloc; "limit at {time} of {node}")
        }
    }
}

/// What rounds gave, beside the plain run.
fn comparison_text(alloc: Global, plain: &Outcome, rounds: &Outcome) -> Result<String, AllocError> {
    let count = rounds.fired.len();
    let count_of_rounds = rounds.rounds;
    let ending = ending_text(alloc, rounds)?;
    let verdict = if are_equal(plain, rounds) {
        "equal"
    } else {
        "different"
    };
    format!(in alloc; "{count} firings in {count_of_rounds} rounds, {ending}: {verdict}")
}

/// What a trial gave.
fn trial_text(alloc: Global, line: &str) -> Result<String> {
    match Trial::read(alloc, line)? {
        Trial::Plain { allowance } => {
            let plain = run_in_one_list(alloc, allowance)?;
            Ok(firings_text(alloc, &plain)?)
        }
        Trial::Rounds { allowance, cut } => {
            let plain = run_in_one_list(alloc, allowance)?;
            let rounds = run_in_rounds(alloc, allowance, &cut)?;
            Ok(comparison_text(alloc, &plain, &rounds)?)
        }
    }
}

fn main(rt: HostRuntime) -> Result<()> {
    let alloc = rt.alloc();
    for line in rt.lines(alloc) {
        let line = line?;
        let text = trial_text(alloc, line.as_str())?;
        println!(rt; "{text}")?;
    }
    Ok(())
}
