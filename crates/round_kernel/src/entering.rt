//! In which order a round's groups are entered, and how many workers enter them.

ghost use Rattle.std.specs.Prelude.{◌≡◌, ◌≤◌, ◌<◌, ◌^◌, IfOk, length};
ghost use Rattle.round_kernel.specs.Turns.{AreTurns};

use crate::groups::Group;
use crate::report::total;
use pkt_face::Pkt;
use row_work::{order_of, put_in_order};
use sim_base::NoMemory;
use std::alloc::Global;

/// How many events each worker of a round is to fire at least. To start a thread and to join it takes as long as some 40.
const EVENTS_A_WORKER: u64 = 200;

/// The order of the next round: the groups by falling estimate, then by number. A group's estimate is the number of events
/// that it fired in the round before.
#[derive(Drop)]
pub struct Turns {
    pub order: Vec<u32>,
    estimates: Vec<u64>,
    // How many events each group has fired.
    fired: Vec<u64>,
}

impl Turns {
    /// The order of the first round, before which nothing has fired.
    pub fn first(alloc: Global, groups: u32) -> Result<Turns, NoMemory>
        ensures { IfOk result (AreTurns groups) }
    {
        let estimates = zeros(alloc, groups)?;
        let fired = zeros(alloc, groups)?;
        let order = order_of(alloc, &estimates)?;
        Ok(Turns {
            order,
            estimates,
            fired,
        })
    }

    /// The order of the round that follows on one in which the groups have fired.
    pub fn follow<P: Pkt>(&mut self, groups: &Vec<Group<P>>)
        requires turns { AreTurns (length groups.now.items) self.old }
        ensures { AreTurns (length groups.now.items) self.new }
    {
        estimate(groups, &mut self.fired, &mut self.estimates);
        put_in_order(&mut self.order, &self.estimates);
    }

    /// How many workers the round has: as many as it is worth, by the events of the round before. In the first round, before
    /// which nothing is known, all of them, but for those that would find no group.
    pub fn workers(&self, round: u64, workers: u32) -> u32
        requires { 1 ≤ workers }
        ensures some { 1 ≤ result }
        ensures few { result ≤ workers }
    {
        let most = some_of(self.order.len() as u64, workers);
        if round == 0 {
            return most;
        }
        some_of(total(&self.estimates) / EVENTS_A_WORKER, most)
    }
}

/// So many of the workers, but at least one.
fn some_of(count: u64, workers: u32) -> u32
    requires { 1 ≤ workers }
    ensures some { 1 ≤ result }
    ensures few { result ≤ workers }
{
    count.max(1).min(u64::from(workers)) as u32
}

/// As many zeros.
fn zeros(alloc: Global, count: u32) -> Result<Vec<u64>, NoMemory>
    ensures { IfOk result (λ zeros. length zeros.items ≡ count) }
{
    let mut zeros = Vec::with_capacity(alloc, count as usize)?;
    zeros.resize(count as usize, 0)?;
    Ok(zeros)
}

/// Estimates each group by what it has fired since it was last counted, and counts it anew.
fn estimate<P: Pkt>(groups: &Vec<Group<P>>, fired: &mut Vec<u64>, estimates: &mut Vec<u64>)
    requires fired { length fired.old.items ≡ length groups.now.items }
    requires estimates { length estimates.old.items ≡ length groups.now.items }
    ensures fired { length fired.new.items ≡ length fired.old.items }
    ensures estimates { length estimates.new.items ≡ length estimates.old.items }
{
    for at in 0..groups.len() {
        let now = groups[at].lp().fired();
        estimates[at] = now.saturating_sub(fired[at]);
        fired[at] = now;
    }
}
