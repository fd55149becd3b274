//! A run by one list of tokens, and a run by rounds.

ghost use Rattle.std.specs.Prelude.{◌≡◌, filter};
ghost use Rattle.sim_base.specs.KeyOrder.{before};

use crate::network::{net, opening};
use crate::soundness::{is_well, may_run};
use crate::trial::GroupOrder;
use anyhow::{Context, Result, bail};
use model_tokens::{Net, Part, Token, group_at, put, run_plain};
use sim_base::Key;
use std::alloc::Global;

/// What a run fired, the first key at which a node might pass on no more, and how many rounds there were.
#[derive(Debug, Drop)]
pub struct Outcome {
    pub fired: Vec<Token>,
    pub limit: Option<Key>,
    pub rounds: u32,
}

/// The run by one list of tokens.
pub fn run_in_one_list(alloc: Global, allowance: u64) -> Result<Outcome> {
    let net = net(alloc, allowance)?;
    let mut world = opening(alloc, &[], 0)?;
    if !is_well(&net) || !may_run(&net, &[], 0, &world) {
        bail!("a world that is not sound");
    }
    let limit = run_plain(&net, &mut world)?;
    let Part {
        counts: _,
        pending: _,
        sent: _,
        fired,
    } = world;
    Ok(Outcome {
        fired,
        limit,
        rounds: 0,
    })
}

/// A group's firings below an end.
fn run_group(
    net: &Net,
    groups: &[u32],
    group: u32,
    end: u64,
    part: &mut Part,
) -> Result<Option<Key>> {
    if !is_well(net) || end > net.stop || !may_run(net, groups, group, part) {
        bail!("a part that may not run");
    }
    let limit = part.run_below(net, groups, group, end)?;
    Ok(limit)
}

/// The lesser of two keys.
fn lesser(one: Option<Key>, other: Option<Key>) -> Option<Key> {
    match (one, other) {
        (Some(one), Some(other)) => Some(if one.is_before(&other) { one } else { other }),
        (Some(one), None) => Some(one),
        (None, other) => other,
    }
}

/// The firings of a round, group by group in an order, and the least key at which a node might pass on no more.
fn run_round(net: &Net, cut: &GroupOrder, parts: &mut [Part], end: u64) -> Result<Option<Key>> {
    let mut limit = None;
    for group in cut.order.iter() {
        let at = *group as usize;
        if at >= parts.len() {
            bail!("no such group");
        }
        let left = run_group(net, cut.groups.as_slice(), *group, end, &mut parts[at])?;
        limit = lesser(limit, left);
    }
    Ok(limit)
}

/// The earlier of a time and that of a part's first token.
fn earlier(least: Option<u64>, part: &Part) -> Option<u64> {
    match (least, part.pending.first()) {
        (Some(least), Some(token)) => Some(least.min(token.key.time.0)),
        (None, Some(token)) => Some(token.key.time.0),
        (least, None) => least,
    }
}

/// The time of the first token of all.
fn first_time(parts: &[Part]) -> Option<u64> {
    let mut least = None;
    for part in parts {
        least = earlier(least, part);
    }
    least
}

/// Moves what the parts have fired into one log, in the order of keys.
fn merge(parts: &mut [Part], log: &mut Vec<Token>) -> Result<()> {
    for part in parts.iter_mut() {
        for token in part.fired.iter() {
            put(log, *token)?;
        }
        part.fired.clear();
    }
    Ok(())
}

/// Takes out what the parts have for other groups.
fn take_sent(alloc: Global, parts: &mut [Part]) -> Result<Vec<Token>> {
    let mut sent = Vec::new(alloc);
    for part in parts.iter_mut() {
        for token in part.sent.iter() {
            sent.push(*token)?;
        }
        part.sent.clear();
    }
    Ok(sent)
}

/// Hands over what the parts have for other groups.
fn hand_over(alloc: Global, groups: &[u32], parts: &mut [Part]) -> Result<()> {
    let sent = take_sent(alloc, parts)?;
    for token in sent.iter() {
        let group = group_at(groups, token.key.node.0) as usize;
        if group < parts.len() {
            put(&mut parts[group].pending, *token)?;
        }
    }
    Ok(())
}

/// The firings before the key at which a node might pass on no more.
fn before_limit(mut fired: Vec<Token>, limit: &Key) -> Vec<Token>
    ensures { result.items ≡ filter (λ token. before token.key limit.now) fired.items }
{
    fired.retain(|token| token.key.is_before(limit));
    fired
}

/// Rounds over parts until no token is left before the net's stop, or a node may pass on no more.
fn run_parts(alloc: Global, net: &Net, cut: &GroupOrder, parts: &mut [Part]) -> Result<Outcome> {
    let mut fired = Vec::new(alloc);
    for rounds in 0..1000 {
        let from = match first_time(parts) {
            Some(from) if from < net.stop => from,
            _ => {
                return Ok(Outcome {
                    fired,
                    limit: None,
                    rounds,
                });
            }
        };
        let end = net.stop.min(from.saturating_add(cut.lookahead));
        let left = run_round(net, cut, parts, end)?;
        merge(parts, &mut fired)?;
        if let Some(limit) = left {
            return Ok(Outcome {
                fired: before_limit(fired, &limit),
                limit: Some(limit),
                rounds: rounds + 1,
            });
        }
        hand_over(alloc, cut.groups.as_slice(), parts)?;
    }
    bail!("too many rounds")
}

/// The run by rounds.
pub fn run_in_rounds(alloc: Global, allowance: u64, cut: &GroupOrder) -> Result<Outcome> {
    let net = net(alloc, allowance)?;
    let mut parts = Vec::new(alloc);
    let count = u32::try_from(cut.order.len())
        .ok()
        .context("too many groups")?;
    for group in 0..count {
        parts.push(opening(alloc, cut.groups.as_slice(), group)?)?;
    }
    run_parts(alloc, &net, cut, &mut parts)
}

/// Whether two runs fired the same and ended at the same key.
pub fn are_equal(one: &Outcome, other: &Outcome) -> bool {
    one.limit == other.limit
        && one.fired.len() == other.fired.len()
        && one.fired.iter().zip(other.fired.iter()).all(|pair| pair.0.key == pair.1.key
            && pair.0.hops == pair.1.hops)
}
