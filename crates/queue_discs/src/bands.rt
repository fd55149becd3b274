//! Frames that wait in three bands.

ghost use Rattle.std.specs.Prelude.{◌≡◌, ◌<◌, ◌≤◌, ◌^◌, IfErr, IfSome, OnErr, OnOk, length, map, option_map};
ghost use Rattle.sim_base.specs.Packet.{longest};
ghost use Rattle.queue_discs.specs.Bands.{all_of, first_len, front, front_len, no_frames, pushed};

use crate::band::Band;
use pkt_face::Pkt;
use std::alloc::{AllocFailed, Global};
use std::collections::VecDeque;
use std::marker::Model;

/// The frames of each band, the first to leave in front.
#[derive(Drop)]
pub struct Bands<P: Pkt> {
    first: VecDeque<P>,
    second: VecDeque<P>,
    third: VecDeque<P>,
}

impl<P: Pkt> Model for Bands<P> {
    ghost use Rattle.std.specs.Prelude.{map};
    ghost use Rattle.queue_discs.specs.Bands.{PlainBands};

    ghost Value = { PlainBands };

    ghost view = { λ b. record { first = map P.plain b.first.items; second = map P.plain b.second.items; third = map P.plain b.third.items } };
}

impl<P: Pkt> Bands<P> {
    /// No frame waits.
    pub fn new(alloc: Global) -> Bands<P>
        ensures { result ≡ no_frames }
    {
        Bands {
            first: VecDeque::new(alloc),
            second: VecDeque::new(alloc),
            third: VecDeque::new(alloc),
        }
    }

    /// How many frames wait.
    #[tactic(auto, using(crate::proofs::BandLaws::all_of_size))]
    pub fn len(&self) -> usize
        requires { length (all_of self.now) < 2 ^ 32 }
        ensures { result ≡ length (all_of self.now) }
    {
        self.first.len() + self.second.len() + self.third.len()
    }

    /// Lets a frame wait as the last of its band. It comes back where there is no memory for it.
    pub fn push(&mut self, band: Band, frame: P) -> Result<(), AllocFailed<P>>
        ensures ok { OnOk result (self.new ≡ pushed band (P.plain frame) self.old) }
        ensures err { OnErr result (self.new ≡ self.old) }
        ensures back { IfErr result (λ refused. P.plain refused.value ≡ P.plain frame) }
    {
        match band {
            Band::First => match self.first.push_back(frame) {
                Ok(()) => Ok(()),
                Err(refused) => Err(refused),
            },
            Band::Second => match self.second.push_back(frame) {
                Ok(()) => Ok(()),
                Err(refused) => Err(refused),
            },
            Band::Third => match self.third.push_back(frame) {
                Ok(()) => Ok(()),
                Err(refused) => Err(refused),
            },
        }
    }

    /// Takes the frame out that has waited longest in the first band that isn't empty.
    pub fn pop(&mut self) -> Option<P>
        ensures frame { option_map P.plain result ≡ (front self.old).frame }
        ensures left { self.new ≡ (front self.old).left }
    {
        if let Some(frame) = self.first.pop_front() {
            return Some(frame);
        }
        if let Some(frame) = self.second.pop_front() {
            return Some(frame);
        }
        match self.third.pop_front() {
            Some(frame) => Some(frame),
            None => None,
        }
    }

    /// The length of the frame that leaves next, if one waits.
    #[tactic(auto, using(crate::proofs::BandLaws::front_len_first, crate::proofs::BandLaws::front_len_second, crate::proofs::BandLaws::front_len_third))]
    pub fn front_len(&self) -> Option<u32>
        ensures value { result ≡ front_len self.now }
        ensures small { IfSome result (λ bytes. bytes ≤ longest) }
    {
        if let Some(bytes) = first_len(&self.first) {
            return Some(bytes);
        }
        if let Some(bytes) = first_len(&self.second) {
            return Some(bytes);
        }
        match first_len(&self.third) {
            Some(bytes) => Some(bytes),
            None => None,
        }
    }
}

/// The length of the first frame of a band, if it has one.
#[tactic(auto, using(crate::proofs::BandLaws::first_len_some, crate::proofs::BandLaws::first_len_none))]
fn first_len<P: Pkt>(band: &VecDeque<P>) -> Option<u32>
    ensures value { result ≡ first_len (map P.plain band.now.items) }
    ensures small { IfSome result (λ bytes. bytes ≤ longest) }
{
    match band.front() {
        Some(frame) => Some(frame.len()),
        None => None,
    }
}
