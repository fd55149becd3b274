//! The disc of CoDel.

ghost use Rattle.std.specs.Prelude.{◌≡◌, ◌≤◌, ◌<◌, ◌^◌, OnErr, IfOk, IfNone, IfSome};
ghost use Rattle.codel_disc.specs.Answers.{OfferIs};
ghost use Rattle.codel_disc.specs.Class.{Gives};
ghost use Rattle.codel_disc.specs.Disc.{empty, held_frames, held_in_queues, next};
ghost use Rattle.codel_disc.specs.QueuesSeen.{plain_queues};

use crate::class::Class;
use crate::flows::Flows;
use crate::kind::CodelKind;
use crate::queues::Queues;
use pkt_face::{Offer, Pkt};
use sim_base::{NoMemory, Time};
use std::alloc::Global;
use std::marker::Model;

/// The frames that wait for a device, and when each was offered. A time that goes back counts as the greatest one given so
/// far. Contracts see the disc as its limit, that time, and the queues with what CoDel knows of them.
#[derive(Drop)]
pub struct Codel<P: Pkt> {
    limit: u32,
    held: u32,
    latest: Time,
    queues: Queues<P>,
}

impl<P: Pkt> Model for Codel<P> {
    ghost use Rattle.codel_disc.specs.Disc.{PlainCodel};
    ghost use Rattle.codel_disc.specs.QueuesSeen.{IsCodel, plain_queues};

    ghost Value = { PlainCodel };

    ghost view = { λ d. record { limit = d.limit; latest = d.latest.0; queues = plain_queues d.queues } };

    ghost invariant = { λ d. IsCodel d.limit d.held d.latest.0 (plain_queues d.queues) };
}

impl<P: Pkt> Codel<P> {
    /// A disc in which no frame waits.
    pub fn make(alloc: Global, kind: CodelKind) -> Result<Codel<P>, NoMemory>
        ensures { IfOk result (λ disc. disc ≡ empty kind) }
    {
        match kind {
            CodelKind::Codel { limit } => {
                Ok(Codel::idle(limit, Queues::Alone(Class::make(alloc))))
            }
            CodelKind::FqCodel { limit } => {
                let flows = Flows::make(alloc)?;
                Ok(Codel::idle(limit, Queues::Flows(flows)))
            }
        }
    }

    /// A disc with these queues, in which no frame waits.
    fn idle(limit: u32, queues: Queues<P>) -> Codel<P>
        requires { held_in_queues (plain_queues queues) ≡ 0 }
        ensures { result ≡ record { limit = limit; latest = 0; queues = plain_queues queues } }
    {
        Codel {
            limit,
            held: 0,
            latest: Time(0),
            queues,
        }
    }

    /// Keeps a frame behind the others of its class. A frame that isn't kept comes back: the disc holds its limit, or memory
    /// ran out.
    pub fn offer(&mut self, now: Time, packet: P) -> Offer<P>
        requires { now.0 ≤ 2 ^ 60 }
        ensures { OfferIs P.plain now.0 (P.plain packet) self.old self.new result }
    {
        let held = self.held;
        if held >= self.limit {
            return Offer::Full { packet, held };
        }
        let time = self.latest.max(now);
        match self.queues.keep(time, packet) {
            Ok(()) => {
                self.held += 1;
                self.latest = time;
                Offer::Kept
            }
            Err(packet) => Offer::NoMemory { packet },
        }
    }

    /// Takes the next frame out, and puts those that are dropped before it behind the others. It first makes room there for
    /// all frames that wait, and takes no other memory.
    pub fn next(&mut self, now: Time, dropped: &mut Vec<P>) -> Result<Option<P>, NoMemory>
        requires { now.0 ≤ 2 ^ 60 }
        ensures ok { IfOk result (λ given. Gives P.plain (next now.0 self.old) dropped.old.items dropped.new.items given self.new) }
        ensures none { IfOk result (λ given. IfNone given (held_frames self.old ≡ 0)) }
        ensures some { IfOk result (λ given. IfSome given (λ frame. 0 < held_frames self.old)) }
        ensures disc { OnErr result (self.new ≡ self.old) }
        ensures kept { OnErr result (dropped.new.items ≡ dropped.old.items) }
    {
        dropped.reserve(self.held as usize)?;
        let time = self.latest.max(now);
        let before = dropped.len();
        let given = self.queues.next(time, dropped);
        let gone = dropped.len() - before + given.iter().count();
        self.held -= gone as u32;
        self.latest = time;
        Ok(given)
    }
}
