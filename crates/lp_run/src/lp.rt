//! A group of nodes that fires its own events.

ghost use Rattle.std.specs.Prelude.{◌≡◌, ◌≤◌, ◌^◌, [], IfOk, IfErr, OnErr, OnOk, map};
ghost use Rattle.sim_base.specs.KeyOrder.{insert_by};
ghost use Rattle.pkt_face.specs.Seen.{plain_line};
ghost use Rattle.node_step.specs.Loads.{plain_event};
ghost use Rattle.node_rules.specs.Worlds.{event_of};
ghost use Rattle.lp_run.specs.Lp.{HasRun, HasStopped, IsRefused, IsStep, IsWellLp, made};
ghost use Rattle.lp_run.specs.Pending.{AreNew, HasNoKey, first_key};

use crate::handing::{hand_out, schedule};
use crate::stop::LpStop;
use event_queue::Queue;
use node_step::{Effects, Event, Load, Part};
use pkt_face::{Line, Pkt};
use sim_base::{Key, NoMemory, Time};
use std::marker::Model;

/// A group of nodes, the events that are pending for them, and what their firings have left: events for other groups,
/// and lines.
#[derive(Drop)]
pub struct Lp<P: Pkt> {
    part: Part<P>,
    pending: Queue<Load<P>>,
    effects: Effects<P>,
    sends: Vec<Event<P>>,
    fired: u64,
}

impl<P: Pkt> Model for Lp<P> {
    ghost use Rattle.std.specs.Prelude.{◌≡◌, [], map};
    ghost use Rattle.node_rules.specs.Worlds.{event_of};
    ghost use Rattle.pkt_face.specs.Seen.{plain_line};
    ghost use Rattle.node_step.specs.Loads.{plain_event, plain_load};
    ghost use Rattle.std.specs.Coded.{codes};
    ghost use Rattle.tcp_flow.specs.contracts.conn.Conn as conn;
    ghost use Rattle.lp_run.specs.Lp.{PlainLp};
    ghost use Rattle.lp_run.specs.Pending.{pending_event};

    ghost Value = { PlainLp };

    ghost coded = { Prim.hlevel (codes, conn.the_row.coded) };

    ghost view = { λ lp. record { part = lp.part; pending = map (pending_event (plain_load P.plain)) lp.pending; sends = map event_of (map (plain_event P.plain) lp.sends.items); lines = map (plain_line P.plain) lp.effects.lines.items; fired = lp.fired } };

    ghost invariant = { λ lp. lp.effects.sends.items ≡ [] };
}

impl<P: Pkt> Lp<P> {
    /// Fires the group's events below `end`, in the order of their keys. Events for other groups, and all lines, are
    /// kept until they are taken. `Limit` names the first event whose node may schedule no more: what came before it has
    /// been fired, and its lines can be taken. After a refusal the group fires no more.
    pub fn run_below(&mut self, end: Time) -> Result<(), LpStop>
        requires end { end.0 ≤ 10 ^ 12 }
        requires well { IsWellLp self.old }
        ensures run { OnOk result (HasRun end.0 self.old self.new) }
        ensures well { OnOk result (IsWellLp self.new) }
        ensures stop { IfErr result (HasStopped end.0 self.old self.new) }
    {
        'firings: loop {
            match self.fire_below(end) {
                Ok(true) => {}
                Ok(false) => return Ok(()),
                Err(stop) => return Err(stop),
            }
        }
    }

    /// Fires the least event below `end`, where there is one, and answers whether there was.
    fn fire_below(&mut self, end: Time) -> Result<bool, LpStop>
        requires end { end.0 ≤ 10 ^ 12 }
        requires well { IsWellLp self.old }
        ensures step { IfOk result (IsStep end.0 self.old self.new) }
        ensures stop { IfErr result (IsRefused end.0 self.old self.new) }
    {
        let Some((key, load)) = self.pending.pop_below(end) else {
            return Ok(false);
        };
        if let Err(stop) = self.part.fire(Event { key, load }, &mut self.effects) {
            return Err(LpStop::at(key, stop));
        }
        self.fired = self.fired.saturating_add(1);
        let handed = hand_out(
            &self.part,
            &mut self.effects.sends,
            &mut self.pending,
            &mut self.sends,
        );
        self.effects.sends.clear();
        handed?;
        Ok(true)
    }
}

impl<P: Pkt> Lp<P> {
    /// A group of these nodes, with these first events. On `NoMemory` both are given up.
    pub fn make(part: Part<P>, first: Vec<Event<P>>) -> Result<Lp<P>, NoMemory>
        requires { AreNew (map event_of (map (plain_event P.plain) first.items)) [] }
        ensures { IfOk result (λ lp. lp ≡ made part (map event_of (map (plain_event P.plain) first.items))) }
    {
        let alloc = *first.allocator();
        let mut pending = Queue::make(alloc);
        let mut first = first;
        schedule(&mut first, &mut pending)?;
        Ok(Lp {
            part,
            pending,
            effects: Effects {
                sends: first,
                lines: Vec::new(alloc),
            },
            sends: Vec::new(alloc),
            fired: 0,
        })
    }

    /// Takes in an event that another group has scheduled for one of these nodes. After `NoMemory` the group is as before.
    pub fn receive(&mut self, ev: Event<P>) -> Result<(), NoMemory>
        requires { HasNoKey ev.key self.old.pending }
        ensures ok { OnOk result (self.new ≡ record self.old { pending = insert_by (λ e. e.key) (event_of (plain_event P.plain ev)) self.old.pending }) }
        ensures err { OnErr result (self.new ≡ self.old) }
    {
        self.pending.push(ev.key, ev.load)?;
        Ok(())
    }

    /// The key of the least event.
    pub fn least(&self) -> Option<Key>
        ensures { result ≡ first_key self.now.pending }
    {
        self.pending.least()
    }

    /// Takes out the events for other groups, in the order in which they were scheduled.
    pub fn take_sends(&mut self) -> Vec<Event<P>>
        ensures sends { map event_of (map (plain_event P.plain) result.items) ≡ self.old.sends }
        ensures rest { self.new ≡ record self.old { sends = [] } }
    {
        let empty = Vec::new(*self.sends.allocator());
        std::mem::replace(&mut self.sends, empty)
    }

    /// Takes out the lines, in the order in which they were written.
    pub fn take_lines(&mut self) -> Vec<Line<P>>
        ensures lines { map (plain_line P.plain) result.items ≡ self.old.lines }
        ensures rest { self.new ≡ record self.old { lines = [] } }
    {
        let empty = Vec::new(*self.effects.lines.allocator());
        std::mem::replace(&mut self.effects.lines, empty)
    }

    /// How many events have fired.
    pub fn fired(&self) -> u64
        ensures { result ≡ self.now.fired }
    {
        self.fired
    }

    /// The nodes.
    pub fn part(&self) -> &Part<P>
        ensures { result.now ≡ self.now.part }
    {
        &self.part
    }
}
