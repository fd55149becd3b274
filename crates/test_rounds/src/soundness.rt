//! Whether a net and a group's part are as a run requires them, looked at when the program runs.

ghost use Rattle.std.specs.Prelude.{◌≡◌, ◌<◌, ℕ, true, All, length, map, slice_get, unwrap_or};
ghost use Rattle.std.specs.Bool.{OnTrue};
ghost use Rattle.sim_base.specs.KeyOrder.{IsRising, before};
ghost use Rattle.model_tokens.specs.Tokens.{IsWell, IsWellLink, event_of, group_of};
ghost use Rattle.model_tokens.specs.TokenParts.{MayRun};
ghost use Rattle.test_rounds.specs.OwnTokens.{IsOwnToken};

use model_tokens::{Link, Net, Part, Token, group_at};

/// Whether a link leads to one of so many nodes, and takes some time.
fn is_well_link(link: &Link, nodes: usize) -> bool
    ensures { OnTrue result (IsWellLink nodes link.now) }
{
    (link.to as usize) < nodes && link.delay > 0 && link.delay < 100
}

/// Whether each link leads to one of so many nodes, and takes some time.
fn are_well_links(links: &[Link], nodes: usize) -> bool
    ensures { OnTrue result (All (λ link. IsWellLink nodes link) links.now) }
{
    links.iter().all(|link| is_well_link(link, nodes))
}

/// Whether a net is well, and small.
pub fn is_well(net: &Net) -> bool
    ensures { OnTrue result (IsWell net.now) }
{
    are_well_links(net.links.as_slice(), net.links.len())
        && net.links.len() < 100
        && net.stop < 1000
        && net.allowance < 1000
}

/// Whether a token comes before each of some others.
fn comes_before(token: &Token, others: &[Token]) -> bool
    ensures { OnTrue result (All (λ other. before token.now.key other.key ≡ true) others.now) }
{
    others.iter().all(|other| token.key.is_before(&other.key))
}

/// Whether each token comes before all that follow.
fn are_rising(tokens: &[Token]) -> bool
    ensures { OnTrue result (IsRising (λ e. e.key) (map event_of tokens.now)) }
{
    match tokens {
        [] => true,
        [first, rest @ ..] => comes_before(first, rest) && are_rising(rest),
    }
}

/// How many tokens a node has passed on.
fn count_of(counts: &[u64], node: u32) -> u64
    ensures { result ≡ unwrap_or (slice_get counts.now node) 0 }
{
    counts.get(node as usize).copied().unwrap_or(0)
}

/// Whether a token has been counted by its sender, where that is the group's.
fn is_counted(groups: &[u32], group: u32, counts: &[u64], token: &Token) -> bool
    ensures { OnTrue result (group_of groups.now token.now.key.by.0 ≡ group →
        token.now.key.count < unwrap_or (slice_get counts.now token.now.key.by.0) 0) }
{
    group_at(groups, token.key.by.0) != group || token.key.count < count_of(counts, token.key.by.0)
}

/// Whether a group may fire a token.
fn is_own_token(nodes: usize, groups: &[u32], group: u32, counts: &[u64], token: &Token) -> bool
    ensures { OnTrue result (IsOwnToken nodes groups.now group counts.now token.now) }
{
    (token.key.node.0 as usize) < nodes
        && group_at(groups, token.key.node.0) == group
        && is_counted(groups, group, counts, token)
}

/// Whether a group may fire each of some tokens.
fn are_own_tokens(
    nodes: usize,
    groups: &[u32],
    group: u32,
    counts: &[u64],
    tokens: &[Token],
) -> bool
    ensures { OnTrue result (All (λ token. IsOwnToken nodes groups.now group counts.now token) tokens.now) }
{
    tokens
        .iter()
        .all(|token| is_own_token(nodes, groups, group, counts, token))
}

/// Whether a group's part may run.
pub fn may_run(net: &Net, groups: &[u32], group: u32, part: &Part) -> bool
    ensures { OnTrue result (MayRun net.now groups.now group part.now) }
{
    let nodes = net.links.len();
    let tokens = part.pending.as_slice();
    if part.counts.len() != nodes {
        return false;
    }
    if !are_rising(tokens) {
        return false;
    }
    are_own_tokens(nodes, groups, group, part.counts.as_slice(), tokens)
}
