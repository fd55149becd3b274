//! Frames that an interface loses, and frames that come to it with one bit inverted.

ghost use Rattle.std.specs.Prelude.{◌≡◌};
ghost use Rattle.sim_base.specs.Losses.{AreRisingAbove, decided, drawn_for, is_listed};

use crate::memory::NoMemory;
use crate::random::Random;
use std::alloc::Global;
use std::marker::Model;

/// A draw of a million is below the millionths of frames that are lost.
const MILLION: u32 = 1_000_000;

/// What decides whether a frame is lost: nothing, its number, or a draw.
#[derive(Clone, Copy, Debug, PartialEq, Eq)]
pub enum LossKind {
    None,
    Frames,
    Millionths { millionths: u32 },
}

/// The frames that come to an interface, counted from 1: which of them are lost, and in which of them a bit is inverted.
#[derive(Debug, Drop)]
pub struct Loss {
    kind: LossKind,
    frames: Vec<u64>,
    flip_frames: Vec<u64>,
    flip_bit: u32,
    counted: u64,
}

impl Model for Loss {
    ghost use Rattle.sim_base.specs.Losses.{AreRisingAbove, PlainLoss};

    ghost Value = { PlainLoss };

    ghost view = { λ l. record { kind = l.kind; frames = l.frames.items; flip_frames = l.flip_frames.items; flip_bit = l.flip_bit; counted = l.counted } };

    ghost invariant = { λ l. AreRisingAbove 0 l.frames.items × AreRisingAbove 0 l.flip_frames.items };
}

impl Loss {
    ghost use Rattle.std.specs.Prelude.{IfOk};
    ghost use Rattle.sim_base.specs.Losses.{PlainLoss, after_loss, flipped, is_lost, no_loss, with_frame};

    /// Nothing is lost.
    pub fn none(alloc: Global) -> Loss
        ensures { result ≡ no_loss }
    {
        Loss {
            kind: LossKind::None,
            frames: Vec::new(alloc),
            flip_frames: Vec::new(alloc),
            flip_bit: 0,
            counted: 0,
        }
    }

    /// The loss of an interface to which no frame has come yet. `frames` are the numbers of the frames that are lost where the
    /// kind is `Frames`, `flip_frames` those of the frames in which the bit at `flip_bit` is inverted.
    pub fn make(
        alloc: Global,
        kind: LossKind,
        frames: &[u64],
        flip_frames: &[u64],
        flip_bit: u32,
    ) -> Result<Loss, NoMemory>
        requires frames_rise { AreRisingAbove 0 frames.now }
        requires flips_rise { AreRisingAbove 0 flip_frames.now }
        ensures { IfOk result (λ l. l ≡ record { kind = kind; frames = frames.now; flip_frames = flip_frames.now; flip_bit = flip_bit; counted = 0 }) }
    {
        Ok(Loss {
            kind,
            frames: Vec::from_slice(alloc, frames)?,
            flip_frames: Vec::from_slice(alloc, flip_frames)?,
            flip_bit,
            counted: 0,
        })
    }

    /// Counts a frame, and tells whether it is lost. It takes no memory.
    pub fn lost(&mut self, random: &mut Random) -> bool
        ensures answer { result ≡ is_lost random.old self.old }
        ensures draws { random.new ≡ after_loss random.old self.old }
        ensures counts { self.new ≡ with_frame self.old }
    {
        self.counted = self.counted.saturating_add(1);
        decide(self.kind, self.frames.as_slice(), random, self.counted)
    }

    /// The place of the bit that is inverted in the frame that was counted last, if one is.
    pub fn flip(&self) -> Option<u32>
        ensures { result ≡ flipped self.now }
    {
        if is_listed(self.counted, self.flip_frames.as_slice()) {
            Some(self.flip_bit)
        } else {
            None
        }
    }
}

/// Whether the frame of a number is lost.
fn decide(kind: LossKind, frames: &[u64], random: &mut Random, number: u64) -> bool
    requires { AreRisingAbove 0 frames.now }
    ensures answer { result ≡ decided kind frames.now random.old number }
    ensures draws { random.new ≡ drawn_for kind random.old }
{
    match kind {
        LossKind::None => false,
        LossKind::Frames => is_listed(number, frames),
        LossKind::Millionths { millionths } => random.draw(MILLION) < millionths,
    }
}

/// Whether a number stands among numbers that rise.
fn is_listed(number: u64, numbers: &[u64]) -> bool
    requires { AreRisingAbove 0 numbers.now }
    ensures { result ≡ is_listed number numbers.now }
{
    numbers.binary_search(&number).is_ok()
}
