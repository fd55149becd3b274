//! The fragments that a node holds (RFC 791, section 3.2): each one goes to its datagram, and a timer drops what isn't whole
//! after thirty seconds.
//!
//!     datagrams:   (src, dst, proto, id) -> the fragments that are held, and the stamp of their timer
//!     timers:      stamp -> (src, dst, proto, id)

ghost use Rattle.std.specs.Prelude.{◌≡◌, ◌≤◌, ◌^◌, All, OnOk, None, replicate};
ghost use Rattle.std.specs.BTreeMap.{is_at};
ghost use Rattle.std.specs.Map.{remove_entry};
ghost use Rattle.layer_words.specs.Acts.{Appends};
ghost use Rattle.frag_core.specs.declared.words.Act.TheVariants.{Dropped};
ghost use Rattle.frag_core.specs.Fragment.{id_of};
ghost use Rattle.frag_core.specs.Held.{ready};
ghost use Rattle.frag_core.specs.Seen.{plain_act, plain_fragment, plain_in};

use crate::fragment::{DatagramId, Fragment};
use crate::reassembly::{Reassembly, is_misshapen};
use crate::words::{Act, In};
use layer_words::next_stamp;
use pkt_face::Pkt;
use sim_base::{NoMemory, Numbers, Time};
use std::alloc::Global;
use std::collections::BTreeMap;
use std::marker::Model;

/// How long the fragments of a datagram are held, in nanoseconds.
const PATIENCE: u64 = 30_000_000_000;

/// The fragments of a node, by their datagrams, and the timers that run.
#[derive(Drop)]
pub struct Frags<P: Pkt> {
    datagrams: BTreeMap<DatagramId, Reassembly<P>>,
    timers: BTreeMap<u64, DatagramId>,
}

impl<P: Pkt> Model for Frags<P> {
    ghost use Rattle.frag_core.specs.Step.{PlainFrags};

    ghost Value = { PlainFrags };

    ghost view = { λ f. record { datagrams = f.datagrams.entries; timers = f.timers.entries } };
}

impl<P: Pkt> Frags<P> {
    ghost use Rattle.frag_core.specs.Step.{CanTake, FitsDatagram, acts_of_more, comes, comes_to, fires, given_up, id_cmp, no_frags, step, under, whole_under, with_more, with_new, without};

    /// A node that holds no fragment.
    pub fn make(alloc: Global) -> Frags<P>
        ensures { result ≡ no_frags }
    {
        Frags {
            datagrams: BTreeMap::new(alloc),
            timers: BTreeMap::new(alloc),
        }
    }

    /// Takes an input, with the node's numbers, and puts the acts that follow behind `out`. A whole datagram has at most
    /// 65,515 bytes behind its header. After `NoMemory` all are given up.
    #[tactic(auto, using(crate::proofs::Fitting::fires_fit))]
    pub fn step(
        &mut self,
        input: In<P>,
        maker: &mut P::Maker,
        numbers: &mut Numbers,
        out: &mut Vec<Act<P>>,
    ) -> Result<(), NoMemory>
        requires { CanTake (plain_in P.plain input) }
        ensures state { OnOk result (self.new ≡ (step self.old numbers.old (plain_in P.plain input)).state) }
        ensures numbers { OnOk result (numbers.new ≡ (step self.old numbers.old (plain_in P.plain input)).numbers) }
        ensures acts { OnOk result (Appends (plain_act P.plain) out.old.items out.new.items (step self.old numbers.old (plain_in P.plain input)).acts) }
        ensures fits { OnOk result (All FitsDatagram (step self.old numbers.old (plain_in P.plain input)).acts) }
    {
        match input {
            In::Piece { now, head, packet } => {
                self.comes(now, Fragment { head, packet }, maker, numbers, out)
            }
            In::Timer { stamp } => self.fires(stamp, out),
        }
    }

    /// A fragment goes to its datagram.
    fn comes(
        &mut self,
        now: Time,
        fragment: Fragment<P>,
        maker: &mut P::Maker,
        numbers: &mut Numbers,
        out: &mut Vec<Act<P>>,
    ) -> Result<(), NoMemory>
        requires { now.0 ≤ 2 ^ 60 }
        ensures state { OnOk result (self.new ≡ (comes now.0 (plain_fragment P.plain fragment) self.old numbers.old).state) }
        ensures numbers { OnOk result (numbers.new ≡ (comes now.0 (plain_fragment P.plain fragment) self.old numbers.old).numbers) }
        ensures acts { OnOk result (Appends (plain_act P.plain) out.old.items out.new.items (comes now.0 (plain_fragment P.plain fragment) self.old numbers.old).acts) }
        ensures fits { OnOk result (All FitsDatagram (comes now.0 (plain_fragment P.plain fragment) self.old numbers.old).acts) }
    {
        let id = DatagramId::of(&fragment.head);
        if !self.datagrams.contains_key(&id) {
            return self.begin(now, id, fragment, maker, numbers, out);
        }
        self.go_on(id, fragment, maker, out)
    }

    /// One more fragment of a datagram.
    fn go_on(
        &mut self,
        id: DatagramId,
        fragment: Fragment<P>,
        maker: &mut P::Maker,
        out: &mut Vec<Act<P>>,
    ) -> Result<(), NoMemory>
        ensures state { OnOk result (self.new ≡ with_more (under id self.old.datagrams) id (plain_fragment P.plain fragment) self.old) }
        ensures acts { OnOk result (Appends (plain_act P.plain) out.old.items out.new.items (acts_of_more (under id self.old.datagrams) (plain_fragment P.plain fragment))) }
        ensures fits { OnOk result (All FitsDatagram (acts_of_more (under id self.old.datagrams) (plain_fragment P.plain fragment))) }
    {
        let Some(held) = self.datagrams.get_mut(&id) else {
            return Ok(());
        };
        if held.refuses(&fragment) {
            out.push(Act::Dropped)?;
            return Ok(());
        }
        held.put(fragment)?;
        if held.is_whole() {
            let stamp = held.stamp();
            return self.finish(id, stamp, maker, out);
        }
        Ok(())
    }

    /// The first fragment of a datagram sets its timer.
    fn begin(
        &mut self,
        now: Time,
        id: DatagramId,
        fragment: Fragment<P>,
        maker: &mut P::Maker,
        numbers: &mut Numbers,
        out: &mut Vec<Act<P>>,
    ) -> Result<(), NoMemory>
        requires time { now.0 ≤ 2 ^ 60 }
        requires id { id ≡ id_of fragment.head }
        ensures state { OnOk result (self.new ≡ (comes_to now.0 (plain_fragment P.plain fragment) None self.old numbers.old).state) }
        ensures numbers { OnOk result (numbers.new ≡ (comes_to now.0 (plain_fragment P.plain fragment) None self.old numbers.old).numbers) }
        ensures acts { OnOk result (Appends (plain_act P.plain) out.old.items out.new.items (comes_to now.0 (plain_fragment P.plain fragment) None self.old numbers.old).acts) }
        ensures fits { OnOk result (All FitsDatagram (comes_to now.0 (plain_fragment P.plain fragment) None self.old numbers.old).acts) }
    {
        if is_misshapen(&fragment) {
            out.push(Act::Dropped)?;
            return Ok(());
        }
        let alloc = *out.allocator();
        let stamp = next_stamp(numbers);
        out.push(Act::TimerAt {
            at: Time(now.0 + PATIENCE),
            stamp,
        })?;
        let held = Reassembly::begin(alloc, stamp, fragment)?;
        self.keep(id, stamp, held, maker, out)
    }

    /// Holds the first fragment of a datagram, unless it is the whole.
    fn keep(
        &mut self,
        id: DatagramId,
        stamp: u64,
        held: Reassembly<P>,
        maker: &mut P::Maker,
        out: &mut Vec<Act<P>>,
    ) -> Result<(), NoMemory>
        requires { stamp ≡ held.stamp }
        ensures state { OnOk result (self.new ≡ with_new id held self.old) }
        ensures acts { OnOk result (Appends (plain_act P.plain) out.old.items out.new.items (ready held.held)) }
        ensures fits { OnOk result (All FitsDatagram (ready held.held)) }
    {
        if held.is_whole() {
            out.push(held.join(maker)?)?;
            return Ok(());
        }
        self.timers.insert(stamp, id)?;
        self.datagrams.insert(id, held)?;
        Ok(())
    }

    /// Hands a whole datagram on. It is no longer held, and its timer's stamp is no longer current.
    fn finish(
        &mut self,
        id: DatagramId,
        stamp: u64,
        maker: &mut P::Maker,
        out: &mut Vec<Act<P>>,
    ) -> Result<(), NoMemory>
        ensures state { OnOk result (self.new ≡ without id stamp self.old) }
        ensures acts { OnOk result (Appends (plain_act P.plain) out.old.items out.new.items (whole_under (under id self.old.datagrams))) }
        ensures fits { OnOk result (All FitsDatagram (whole_under (under id self.old.datagrams))) }
    {
        self.timers.remove(&stamp);
        let Some(held) = self.datagrams.remove(&id) else {
            return Ok(());
        };
        out.push(held.join(maker)?)?;
        Ok(())
    }

    /// A timer drops what is held of its datagram; one whose stamp isn't current does nothing.
    fn fires(&mut self, stamp: u64, out: &mut Vec<Act<P>>) -> Result<(), NoMemory>
        ensures state { OnOk result (self.new ≡ (fires stamp self.old).state) }
        ensures acts { OnOk result (Appends (plain_act P.plain) out.old.items out.new.items (fires stamp self.old).acts) }
    {
        let Some(id) = self.timers.remove(&stamp) else {
            return Ok(());
        };
        self.give_up(id, out)
    }

    /// Drops what is held of a datagram.
    fn give_up(&mut self, id: DatagramId, out: &mut Vec<Act<P>>) -> Result<(), NoMemory>
        ensures state { OnOk result (self.new ≡ record self.old { datagrams = remove_entry (is_at (id_cmp id)) self.old.datagrams }) }
        ensures acts { OnOk result (Appends (plain_act P.plain) out.old.items out.new.items (given_up (under id self.old.datagrams))) }
    {
        let Some(held) = self.datagrams.remove(&id) else {
            return Ok(());
        };
        drop_each(held.count(), out)
    }
}

/// Counts so many packets as dropped.
fn drop_each<P: Pkt>(count: usize, out: &mut Vec<Act<P>>) -> Result<(), NoMemory>
    ensures { OnOk result (Appends (plain_act P.plain) out.old.items out.new.items (replicate count Dropped)) }
{
    for done in 0..count {
        out.push(Act::Dropped)?;
    }
    Ok(())
}
