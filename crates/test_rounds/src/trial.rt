//! A trial, as a line says it.

use anyhow::{Context, Result};
use std::alloc::Global;

/// Groups of nodes, the order in which they fire in each window, and how long a window is.
#[derive(Debug, Drop)]
pub struct GroupOrder {
    pub groups: Vec<u32>,
    pub order: Vec<u32>,
    pub lookahead: u64,
}

/// What to run.
#[derive(Debug, Drop)]
pub enum Trial {
    Plain { allowance: u64 },
    Rounds { allowance: u64, cut: GroupOrder },
}

fn number(text: &str) -> Result<u64> {
    text.parse::<u64>().ok().context("a number is missing")
}

fn small_numbers(alloc: Global, text: &str) -> Result<Vec<u32>> {
    let mut numbers = Vec::new(alloc);
    for word in text.split(" ") {
        let number = word.parse::<u32>().ok().context("a group is missing")?;
        numbers.push(number)?;
    }
    Ok(numbers)
}

fn rounds(alloc: Global, line: &str) -> Result<Trial> {
    let (groups, rest) = line.split_once(" order ").context("order is missing")?;
    let (order, rest) = rest
        .split_once(" lookahead ")
        .context("lookahead is missing")?;
    let (lookahead, allowance) = rest
        .split_once(" allowance ")
        .context("allowance is missing")?;
    let groups = small_numbers(alloc, groups)?;
    let order = small_numbers(alloc, order)?;
    let lookahead = number(lookahead)?;
    Ok(Trial::Rounds {
        allowance: number(allowance)?,
        cut: GroupOrder {
            groups,
            order,
            lookahead,
        },
    })
}

impl Trial {
    /// The trial of a line.
    pub fn read(alloc: Global, line: &str) -> Result<Trial> {
        match line.split_once(" ") {
            Some(("plain", allowance)) => Ok(Trial::Plain {
                allowance: number(allowance)?,
            }),
            Some(("groups", rest)) => rounds(alloc, rest),
            _ => Err(anyhow::anyhow!("neither plain nor groups")),
        }
    }
}
