//! A round: what groups leave that have run to a window's end.

ghost use Rattle.std.specs.Prelude.{◌≡◌, ◌≤◌, ◌^◌, IfOk, List, length, map};
ghost use Rattle.pkt_face.specs.Seen.{plain_line};
ghost use Rattle.lp_run.specs.Lp.{IsWellLp};
ghost use Rattle.std.specs.List.{All};
ghost use Rattle.row_work.specs.Order.{AreNumbers};
ghost use Rattle.trace_merge.specs.Merge.{AreGroups};
ghost use Rattle.round_kernel.specs.Left.{HavePlayed, lines_in, lps_of, plain_sends};
ghost use Rattle.round_kernel.specs.Stops.{HaveGone, limit_of};
ghost use Rattle.round_kernel.specs.Window.{Gone};

use crate::firing::{first_stop, run_groups};
use crate::groups::Group;
use crate::left::{Left, take_left};
use node_step::Event;
use outside::Gate;
use pkt_face::{Line, Pkt};
use sim_base::{Key, NoMemory, NodeId, Time};
use std::thread::Threads;
use trace_merge::merge;

/// What a round leaves: its lines in their order, the events that groups have scheduled for one another, and the least key at
/// which a group has stopped, if one has. The lines are those before it.
#[derive(Drop)]
pub struct Round<P: Pkt> {
    pub lines: Vec<Line<P>>,
    pub sends: Vec<Event<P>>,
    pub stop: Option<(Key, NodeId)>,
}

/// The key of a stop.
fn key_of(stop: Option<(Key, NodeId)>) -> Option<Key>
    ensures { result ≡ limit_of stop }
{
    match stop {
        None => None,
        Some(stop) => Some(stop.0),
    }
}

/// Runs the groups to the window's end, drawn in an order by some workers, and takes out what they leave.
pub fn play<R: Threads + Sync, P: Pkt, G: Gate + Sync>(
    rt: &R,
    groups: &mut Vec<Group<P>>,
    order: &[u32],
    workers: u32,
    gate: &G,
    round: u64,
    end: Time,
) -> Result<Round<P>, NoMemory>
    requires some_worker { 1 ≤ workers }
    requires few_workers { workers ≤ 64 }
    requires order { AreNumbers (length groups.old.items) order.now }
    requires end { end.0 ≤ 10 ^ 12 }
    requires well { All (λ group. IsWellLp group.0) groups.old.items }
    requires apart { (gone : List Gone) → HaveGone end.0 (lps_of groups.old.items) gone → AreGroups (lines_in gone) }
    ensures { IfOk result (λ round. HavePlayed end.0 (lps_of groups.old.items) (lps_of groups.new.items)
        (map (plain_line P.plain) round.lines.items) (plain_sends P.plain round.sends.items) round.stop) }
{
    run_groups(rt, groups, order, workers, gate, round, end)?;
    let stop = first_stop(groups)?;
    let Left { lines, sends } = take_left(groups)?;
    let lines = merge(lines, key_of(stop))?;
    Ok(Round { lines, sends, stop })
}
