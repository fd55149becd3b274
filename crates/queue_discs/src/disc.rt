//! A disc, which keeps frames and gives them.

ghost use Rattle.std.specs.Prelude.{◌≡◌, ◌≤◌, ◌^◌};
ghost use Rattle.sim_base.specs.Packet.{longest};

use crate::band::{Band, band_of_priority};
use crate::bands::Bands;
use crate::bucket::Bucket;
use pkt_face::{Offer, Pkt};
use sim_base::{Rate, Time};
use std::alloc::Global;
use std::marker::Model;

/// The packet tag that holds a frame's priority.
const PRIORITY_TAG: u32 = 1;

/// How a disc orders its frames, and how many it holds at most.
#[derive(Clone, Copy, Debug, PartialEq, Eq)]
pub enum DiscKind {
    /// First in, first out.
    Fifo { limit: u32 },
    /// First in, first out in each of three bands, and the first band before the others.
    Prio { limit: u32 },
    /// First in, first out, at `rate` on average and with at most `burst` bytes at once.
    Tbf { limit: u32, rate: Rate, burst: u32 },
}

/// What a disc gives when it is asked for the next frame.
#[derive(Debug, Drop)]
pub enum Next<P> {
    Frame(P),
    /// A frame waits, and may leave then.
    Wait(Time),
    Empty,
}

/// The frames that wait for a device. Contracts see it as its limit, its bands of plain packets and its bucket.
#[derive(Drop)]
pub struct Disc<P: Pkt> {
    limit: u32,
    by_priority: bool,
    bands: Bands<P>,
    bucket: Option<Bucket>,
}

impl<P: Pkt> Model for Disc<P> {
    ghost use Rattle.queue_discs.specs.Disc.{IsDisc, PlainDisc};

    ghost Value = { PlainDisc };

    ghost view = { λ d. record { limit = d.limit; by_priority = d.by_priority; bands = d.bands; bucket = d.bucket } };

    ghost invariant = { λ d. IsDisc (record { limit = d.limit; by_priority = d.by_priority; bands = d.bands; bucket = d.bucket }) };
}

impl<P: Pkt> Disc<P> {
    ghost use Rattle.queue_discs.specs.Answers.{OfferIs, gives, gives_bytes, gives_for, next, plain_next};
    ghost use Rattle.queue_discs.specs.Band.{band_of};
    ghost use Rattle.queue_discs.specs.Bands.{front_len};
    ghost use Rattle.queue_discs.specs.Bucket.{IsBucket};
    ghost use Rattle.queue_discs.specs.Disc.{IsDisc, IsKind, empty};

    /// A disc in which no frame waits.
    pub fn make(alloc: Global, kind: DiscKind) -> Disc<P>
        requires { IsKind kind }
        ensures { result ≡ empty kind }
    {
        let bands = Bands::new(alloc);
        match kind {
            DiscKind::Fifo { limit } => Disc {
                limit,
                by_priority: false,
                bands,
                bucket: None,
            },
            DiscKind::Prio { limit } => Disc {
                limit,
                by_priority: true,
                bands,
                bucket: None,
            },
            DiscKind::Tbf { limit, rate, burst } => Disc {
                limit,
                by_priority: false,
                bands,
                bucket: Some(Bucket::full(rate, burst)),
            },
        }
    }

    /// Keeps a frame behind the others of its band. A frame that isn't kept comes back: the disc holds its limit, or memory ran
    /// out.
    #[tactic(auto, using(crate::proofs::BandLaws::pushed_size))]
    pub fn offer(&mut self, packet: P) -> Offer<P>
        ensures answer { OfferIs P.plain (P.plain packet) self.old self.new result }
        ensures within { IsDisc self.new }
    {
        let held = self.bands.len();
        if held >= self.limit as usize {
            return Offer::Full {
                packet,
                held: held as u32,
            };
        }
        let band = self.band_of(&packet);
        match self.bands.push(band, packet) {
            Ok(()) => Offer::Kept,
            Err(refused) => Offer::NoMemory {
                packet: refused.value,
            },
        }
    }

    /// The band in which a frame is to wait.
    fn band_of(&self, packet: &P) -> Band
        ensures { result ≡ band_of self.now.by_priority (P.plain packet.now) }
    {
        if self.by_priority {
            band_of_priority(packet.tag(PRIORITY_TAG).unwrap_or(0))
        } else {
            Band::First
        }
    }

    /// Takes the next frame out, or tells until when it has to wait.
    pub fn next(&mut self, now: Time) -> Next<P>
        requires { now.0 ≤ 10 ^ 12 }
        ensures answer { plain_next P.plain result ≡ (next now.0 self.old).answer }
        ensures disc { self.new ≡ (next now.0 self.old).disc }
    {
        match self.bucket {
            None => self.give(),
            Some(bucket) => self.give_for(bucket.filled(now), now),
        }
    }

    /// Takes the frame in front out.
    #[tactic(auto, using(crate::proofs::BandLaws::front_size))]
    fn give(&mut self) -> Next<P>
        ensures answer { plain_next P.plain result ≡ (gives self.old).answer }
        ensures disc { self.new ≡ (gives self.old).disc }
    {
        match self.bands.pop() {
            Some(frame) => Next::Frame(frame),
            None => Next::Empty,
        }
    }

    /// Takes the frame in front out, if one waits and the bucket has credit for it.
    fn give_for(&mut self, bucket: Bucket, now: Time) -> Next<P>
        requires within { IsBucket bucket }
        requires time { now.0 ≤ 10 ^ 12 }
        ensures answer { plain_next P.plain result ≡ (gives_for (front_len self.old.bands) now.0 bucket self.old).answer }
        ensures disc { self.new ≡ (gives_for (front_len self.old.bands) now.0 bucket self.old).disc }
    {
        match self.bands.front_len() {
            None => {
                self.bucket = Some(bucket);
                Next::Empty
            }
            Some(bytes) => self.give_bytes(bytes, bucket, now),
        }
    }

    /// Takes the frame in front out, of so many bytes, if the bucket has credit for them.
    fn give_bytes(&mut self, bytes: u32, bucket: Bucket, now: Time) -> Next<P>
        requires bytes { bytes ≤ longest }
        requires within { IsBucket bucket }
        requires time { now.0 ≤ 10 ^ 12 }
        ensures answer { plain_next P.plain result ≡ (gives_bytes bytes now.0 bucket self.old).answer }
        ensures disc { self.new ≡ (gives_bytes bytes now.0 bucket self.old).disc }
    {
        if !bucket.has_credit_for(bytes) {
            self.bucket = Some(bucket);
            return Next::Wait(Time(now.0 + bucket.wait(bytes)));
        }
        self.bucket = Some(bucket.paid(bytes));
        self.give()
    }
}
