//! The groups of a cut.

ghost use Rattle.std.specs.Prelude.{◌≡◌, ◌≤◌, ◌^◌, ◌++◌, [], None, All, IfOk, OnOk, map};
ghost use Rattle.pkt_face.specs.Seen.{plain_line};
ghost use Rattle.node_step.specs.Loads.{plain_event};
ghost use Rattle.node_rules.specs.Worlds.{event_of};
ghost use Rattle.lp_run.specs.Lp.{IsWellLp};
ghost use Rattle.lp_run.specs.Pending.{AreNew, HasNoKey};
ghost use Rattle.sim_world.specs.Opening.{OpensRuns};
ghost use Rattle.sim_world.specs.Shares.{part_seen};
ghost use Rattle.round_kernel.specs.Cut.{Fits};
ghost use Rattle.round_kernel.specs.Groups.{AreFirst, group_made};
ghost use Rattle.round_kernel.specs.Handing.{got_one};
ghost use Rattle.round_kernel.specs.Left.{lps_of};
ghost use Rattle.round_kernel.specs.Window.{HasGone};

use lp_run::{Lp, LpStop};
use node_step::{Event, Part};
use partition_cut::Cut;
use pkt_face::{Line, Pkt};
use sim_base::{NoMemory, Time};
use sim_world::World;
use std::alloc::Global;
use std::marker::Model;

/// A group of nodes, and why it has stopped before the end of its last window, if it has. It is one word, so that it goes to
/// a worker and back at no cost.
///
/// ```text
/// list of groups, place in a row: | box |
///                                    |
///                                    v
///                                 | nodes | pending | lines | sends | fired | stop |
/// ```
#[derive(Drop)]
pub struct Group<P: Pkt> {
    held: Box<(Lp<P>, Option<LpStop>), Global>,
}

impl<P: Pkt> Model for Group<P> {
    ghost use Rattle.std.specs.Coded.{codes};
    ghost use Rattle.tcp_flow.specs.contracts.conn.Conn as conn;
    ghost use Rattle.round_kernel.specs.Window.{Gone};

    ghost Value = { Gone };

    ghost coded = { Prim.hlevel (codes, conn.the_row.coded) };

    ghost view = { λ g. g.held.value };
}

impl<P: Pkt> Group<P> {
    /// A group that has not stopped.
    pub fn make(alloc: Global, lp: Lp<P>) -> Result<Group<P>, NoMemory>
        ensures { IfOk result (λ group. group ≡ (lp, None)) }
    {
        Ok(Group {
            held: Box::new(alloc, (lp, None))?,
        })
    }

    /// The nodes with their events, and what they have left.
    pub fn lp(&self) -> &Lp<P>
        ensures { result.now ≡ self.now.0 }
    {
        &self.held.0
    }

    /// Why it has stopped before the end of its last window, if it has.
    pub fn stop(&self) -> Option<LpStop>
        ensures { result ≡ self.now.1 }
    {
        self.held.1
    }

    /// Runs to a window's end.
    pub fn run_below(&mut self, end: Time)
        requires end { end.0 ≤ 10 ^ 12 }
        requires well { IsWellLp self.old.0 }
        ensures { HasGone end.0 self.old.0 self.new.0 self.new.1 }
    {
        run_held(&mut self.held, end);
    }

    /// Takes out the lines.
    pub fn take_lines(&mut self) -> Vec<Line<P>>
        ensures lines { map (plain_line P.plain) result.items ≡ self.old.0.lines }
        ensures rest { self.new ≡ (record self.old.0 { lines = [] }, self.old.1) }
    {
        self.held.0.take_lines()
    }

    /// Takes out the events for other groups.
    pub fn take_sends(&mut self) -> Vec<Event<P>>
        ensures sends { map event_of (map (plain_event P.plain) result.items) ≡ self.old.0.sends }
        ensures rest { self.new ≡ (record self.old.0 { sends = [] }, self.old.1) }
    {
        self.held.0.take_sends()
    }

    /// Takes in an event that another group has scheduled for one of these nodes.
    pub fn receive(&mut self, event: Event<P>) -> Result<(), NoMemory>
        requires { HasNoKey event.key self.old.0.pending }
        ensures { OnOk result (self.new ≡ got_one (event_of (plain_event P.plain event)) self.old) }
    {
        self.held.0.receive(event)
    }
}

/// Runs the nodes of a group to a window's end.
fn run_held<P: Pkt>(held: &mut (Lp<P>, Option<LpStop>), end: Time)
    requires end { end.0 ≤ 10 ^ 12 }
    requires well { IsWellLp held.old.0 }
    ensures { HasGone end.0 held.old.0 held.new.0 held.new.1 }
{
    held.1 = match held.0.run_below(end) {
        Ok(()) => None,
        Err(stop) => Some(stop),
    };
}

/// The groups of a cut, in which nothing has fired yet. On `NoMemory` the world is given up.
pub fn split<P: Pkt>(world: World<P>, cut: &Cut) -> Result<Vec<Group<P>>, NoMemory>
    requires opens { OpensRuns world }
    requires fits { Fits world cut.now }
    ensures { IfOk result (λ groups. AreFirst world cut.now (lps_of groups.items)) }
{
    let parts = world.split(cut)?;
    let groups = make_groups(parts)?;
    Ok(groups)
}

/// A group for each part.
fn make_groups<P: Pkt>(mut parts: Vec<(Part<P>, Vec<Event<P>>)>) -> Result<Vec<Group<P>>, NoMemory>
    requires { All (λ part. AreNew (map event_of part.1) []) (map (part_seen P.plain) parts.items) }
    ensures { IfOk result (λ groups. lps_of groups.items ≡ map group_made (map (part_seen P.plain) parts.items)) }
{
    let alloc = *parts.allocator();
    let mut groups = Vec::with_capacity(alloc, parts.len())?;
    parts.as_mut_slice().reverse();
    'parts: while let Some((part, first)) = parts.pop() {
        let lp = Lp::make(part, first)?;
        groups.push(Group::make(alloc, lp)?)?;
    }
    Ok(groups)
}
