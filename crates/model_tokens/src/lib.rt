//! Tokens that nodes pass on over links with delays: one list of events, or rounds over groups of nodes.
#![tactic(auto)]

ghost use Rattle.std.specs.Prelude.{◌≡◌, ◌≤◌, ◌<◌, ◌^◌, ℕ, length, map, IfOk, slice_get, vec_len, Some, position, MatchOption, slice_set, true, false, ◌++◌, ◌∷◌, [], ◌+◌};
ghost use Rattle.std.specs.List.{All};
ghost use Rattle.round_core.specs.World.{first};
ghost use Rattle.sim_base.specs.KeyOrder.{before, IsRising, insert_by};
ghost use Rattle.round_core.specs.Laws.{IsHealthy, IsSound};
ghost use Rattle.round_core.specs.Parts.{IsPartSound, PartRuns};
ghost use Rattle.round_core.specs.Rounds.{IsPlainRun, below};
ghost use Rattle.model_tokens.specs.Tokens.{IsNumbered, IsWell, event_of, group_of, reaction_of, react, token_health, token_rules};
ghost use Rattle.model_tokens.specs.TokenParts.{HaveRun, IsStep, MayRun, key_left, part_of};

use sim_base::{Key, NodeId, Time};
use std::alloc::AllocError;

/// Where a node passes tokens on to, and how long that takes.
#[derive(Clone, Copy, Debug)]
pub struct Link {
    pub to: u32,
    pub delay: u64,
}

/// A token that arrives: when and where, and how often it may still be passed on.
#[derive(Clone, Copy, Debug)]
pub struct Token {
    pub key: Key,
    pub hops: u64,
}

/// Each node's link, how many tokens a node may pass on, and when the run stops.
#[derive(Debug, Drop)]
pub struct Net {
    pub links: Vec<Link>,
    pub allowance: u64,
    pub stop: u64,
}

/// What a node does with a token.
#[derive(Clone, Copy, Debug)]
pub enum Answer {
    Refused,
    Kept,
    PassedOn(Token),
}

/// What the target of a token does with it, when it has passed on so many.
fn react_to(net: &Net, passed_on: u64, token: &Token) -> Answer
    requires well { IsWell net.now }
    requires target { token.now.key.node.0 < length net.now.links.items }
    requires early { token.now.key.time.0 < net.now.stop }
    ensures reaction { react net.now.links.items net.now.allowance (event_of token.now) (Some passed_on)
        ≡ reaction_of result passed_on token.now }
    ensures numbered { IsNumbered result net.now.allowance passed_on token.now }
{
    let link = net.links[token.key.node.0 as usize];
    if token.hops == 0 {
        Answer::Kept
    } else if passed_on < net.allowance {
        Answer::PassedOn(Token {
            key: Key {
                time: Time(token.key.time.0 + link.delay),
                node: NodeId(link.to),
                sent: token.key.time,
                by: token.key.node,
                count: passed_on,
            },
            hops: token.hops - 1,
        })
    } else {
        Answer::Refused
    }
}

/// The first of some tokens that come behind a key.
fn first_behind(tokens: &[Token], key: &Key) -> Option<usize>
    ensures { result ≡ position (λ t. before key.now t.key) tokens.now }
{
    tokens.iter().position(|token| key.is_before(&token.key))
}

/// Puts a token among others, in the order of their keys.
pub fn put(tokens: &mut Vec<Token>, token: Token) -> Result<(), AllocError>
    ensures { IfOk result (λ _. map event_of tokens.new.items ≡
        insert_by (λ e. e.key) (event_of token) (map event_of tokens.old.items)) }
{
    match first_behind(tokens, &token.key) {
        Some(at) => tokens.insert(at, token)?,
        None => tokens.push(token)?,
    }
    Ok(())
}

/// A group's part: how many tokens its nodes have passed on, its tokens, what it has for other groups, and its log.
#[derive(Debug, Drop)]
pub struct Part {
    pub counts: Vec<u64>,
    pub pending: Vec<Token>,
    pub sent: Vec<Token>,
    pub fired: Vec<Token>,
}

/// What a part did: it fired its least token, or had none, or its node may pass on no more.
#[derive(Clone, Copy, Debug)]
pub enum Step {
    Fired,
    Idle,
    Refused(Key),
}

/// The first of some tokens in the order of their keys, where it comes below an end.
fn first_below(tokens: &[Token], end: u64) -> Option<Token>
    requires { IsRising (λ e. e.key) (map event_of tokens.now) }
    ensures { MatchOption result (first (below end) (map event_of tokens.now) ≡ None)
        (λ t. (t.key.time.0 < end) × (slice_get tokens.now 0 ≡ Some t)) }
{
    match tokens {
        [] => None,
        [token, ..] => {
            if token.key.time.0 < end {
                Some(*token)
            } else {
                None
            }
        }
    }
}

/// The group of a node.
pub fn group_at(groups: &[u32], node: u32) -> u32
    ensures { result ≡ group_of groups.now node }
{
    groups.get(node as usize).copied().unwrap_or(0)
}

impl Part {
    /// Takes out the first token and logs it.
    fn log_first(&mut self, token: Token) -> Result<(), AllocError>
        requires { slice_get self.old.pending.items 0 ≡ Some token }
        ensures counts { IfOk result (λ _. self.new.counts.items ≡ self.old.counts.items) }
        ensures pending { IfOk result (λ _. self.old.pending.items ≡ token ∷ self.new.pending.items) }
        ensures sent { IfOk result (λ _. self.new.sent.items ≡ self.old.sent.items) }
        ensures fired { IfOk result (λ _. self.new.fired.items ≡ self.old.fired.items ++ token ∷ []) }
    {
        self.pending.remove(0);
        self.fired.push(token)?;
        Ok(())
    }

    /// Counts a token that a node passes on, and puts it among the group's own or those for other groups.
    fn pass_on(
        &mut self,
        node: u32,
        passed_on: u64,
        own: bool,
        next: Token,
    ) -> Result<(), AllocError>
        requires node { node < length self.old.counts.items }
        requires room { passed_on + 1 < 2 ^ 64 }
        ensures counts { IfOk result (λ _. self.new.counts.items ≡ slice_set self.old.counts.items node (passed_on + 1)) }
        ensures fired { IfOk result (λ _. self.new.fired.items ≡ self.old.fired.items) }
        ensures own { IfOk result (λ _. own ≡ true →
            (map event_of self.new.pending.items
            ≡ insert_by (λ e. e.key) (event_of next) (map event_of self.old.pending.items))
            × (self.new.sent.items ≡ self.old.sent.items)) }
        ensures other { IfOk result (λ _. own ≡ false →
            (self.new.pending.items ≡ self.old.pending.items)
            × (self.new.sent.items ≡ self.old.sent.items ++ next ∷ [])) }
    {
        self.counts[node as usize] = passed_on + 1;
        if own {
            put(&mut self.pending, next)?;
        } else {
            self.sent.push(next)?;
        }
        Ok(())
    }

    /// Fires the first token below an end, where there is one and its node may go on.
    fn fire_first(
        &mut self,
        net: &Net,
        groups: &[u32],
        group: u32,
        end: u64,
    ) -> Result<Step, AllocError>
        requires well { IsWell net.now }
        requires nodes { length self.old.counts.items ≡ length net.now.links.items }
        requires early { end ≤ net.now.stop }
        requires healthy { IsHealthy (token_health net.now.links.items) (part_of self.old).world }
        requires rising { IsRising (λ e. e.key) (part_of self.old).world.pending }
        ensures step { IfOk result (λ step. IsStep (token_rules net.now.links.items net.now.allowance) (group_of groups.now) group end
            (part_of self.old) (part_of self.new) step) }
        ensures nodes { IfOk result (λ _. length self.new.counts.items ≡ length self.old.counts.items) }
    {
        let token = match first_below(&self.pending, end) {
            None => return Ok(Step::Idle),
            Some(token) => token,
        };
        let passed_on = self.counts[token.key.node.0 as usize];
        match react_to(net, passed_on, &token) {
            Answer::Refused => Ok(Step::Refused(token.key)),
            Answer::Kept => {
                self.log_first(token)?;
                Ok(Step::Fired)
            }
            Answer::PassedOn(next) => {
                let own = group_at(groups, next.key.node.0) == group;
                self.log_first(token)?;
                self.pass_on(token.key.node.0, passed_on, own, next)?;
                Ok(Step::Fired)
            }
        }
    }

    /// Fires the group's tokens below an end, in the order of their keys. Where a node may not go on, the group stops,
    /// and answers the key.
    pub fn run_below(
        &mut self,
        net: &Net,
        groups: &[u32],
        group: u32,
        end: u64,
    ) -> Result<Option<Key>, AllocError>
        requires well { IsWell net.now }
        requires nodes { length self.old.counts.items ≡ length net.now.links.items }
        requires early { end ≤ net.now.stop }
        requires sound { IsPartSound (token_rules net.now.links.items net.now.allowance) (token_health net.now.links.items)
            (group_of groups.now) group (part_of self.old) }
        ensures runs { IfOk result (λ _. PartRuns (token_rules net.now.links.items net.now.allowance) (group_of groups.now) group end
            (part_of self.old) (part_of self.new)) }
        ensures left { IfOk result (λ left. left ≡ key_left end (part_of self.new)) }
        ensures nodes { IfOk result (λ _. length self.new.counts.items ≡ length self.old.counts.items) }
        ensures sound { IfOk result (λ _. IsPartSound (token_rules net.now.links.items net.now.allowance)
            (token_health net.now.links.items) (group_of groups.now) group (part_of self.new)) }
    {
        'firings: loop {
            match self.fire_first(net, groups, group, end)? {
                Step::Fired => {}
                Step::Idle => return Ok(None),
                Step::Refused(key) => return Ok(Some(key)),
            }
        }
    }
}

/// The plain run: one list of tokens, in the order of their keys, until none is below the net's stop or a node may not
/// go on, whose key is answered.
pub fn run_plain(net: &Net, world: &mut Part) -> Result<Option<Key>, AllocError>
    requires well { IsWell net.now }
    requires nodes { length world.old.counts.items ≡ length net.now.links.items }
    requires sound { IsSound (token_rules net.now.links.items net.now.allowance) (token_health net.now.links.items)
        (part_of world.old).world }
    ensures run { IfOk result (λ _. IsPlainRun (token_rules net.now.links.items net.now.allowance) net.now.stop
        (part_of world.old).world (part_of world.new).world) }
    ensures limit { IfOk result (λ limit. limit ≡ key_left net.now.stop (part_of world.new)) }
{
    let limit = world.run_below(net, &[], 0, net.stop)?;
    Ok(limit)
}

/// A round's firings on one thread: each group in turn runs its part below the window's end.
pub fn run_all(net: &Net, groups: &[u32], parts: &mut [Part], end: u64) -> Result<(), AllocError>
    requires well { IsWell net.now }
    requires early { end ≤ net.now.stop }
    requires count { length parts.old < 2 ^ 32 }
    requires sound { (g : ℕ) (p : Part) → slice_get parts.old g ≡ Some p → MayRun net.now groups.now g p }
    ensures runs { IfOk result (λ _. HaveRun net.now groups.now end (length parts.old) parts.old parts.new) }
{
    for group in 0..parts.len() {
        parts[group].run_below(net, groups, group as u32, end)?;
    }
    Ok(())
}
