//! A disc whose frames are numbered in the order in which they are offered.

use anyhow::{Result, bail};
use codel_disc::{Codel, CodelKind};
use pkt_face::{Offer, Pkt, PlainPkt};
use sim_base::{NodeId, Time, Uid};
use std::alloc::Global;

/// The number of the byte tag that names a frame's flow.
const FLOW: u32 = 1;

/// A disc, and how many frames it was offered.
#[derive(Drop)]
pub struct Play {
    disc: Codel<PlainPkt>,
    offered: u32,
}

impl Play {
    /// A disc without frames.
    pub fn begin(alloc: Global, kind: CodelKind) -> Result<Play> {
        let Ok(disc) = Codel::make(alloc, kind) else {
            bail!("no memory");
        };
        Ok(Play { disc, offered: 0 })
    }

    /// Offers a frame of so many bytes, of a flow.
    pub fn offer(&mut self, alloc: Global, now: u32, bytes: u16, flow: u64) -> Result<String> {
        self.offered = self.offered.saturating_add(1);
        let Some(frame) = numbered(alloc, self.offered, bytes, flow) else {
            bail!("no memory");
        };
        match self.disc.offer(Time(u64::from(now)), frame) {
            Offer::Kept => Ok(format!(in alloc; " kept")?),
            Offer::Full { held, .. } => Ok(format!(in alloc; " full, {held} held")?),
            Offer::NoMemory { .. } => bail!("no memory"),
        }
    }

    /// Asks for the next frame. The frames that were dropped before it come first.
    pub fn next(&mut self, alloc: Global, now: u32) -> Result<String> {
        let mut dropped = Vec::new(alloc);
        let Ok(given) = self.disc.next(Time(u64::from(now)), &mut dropped) else {
            bail!("no memory");
        };
        let mut text = String::new(alloc);
        for frame in dropped.iter() {
            let number = frame.uid().count;
            let word = format!(in alloc; " drops {number},")?;
            text.push_str(word.as_str())?;
        }
        let word = match given {
            Some(frame) => {
                let number = frame.uid().count;
                format!(in alloc; " gives {number}")?
            }
            None => format!(in alloc; " is empty")?,
        };
        text.push_str(word.as_str())?;
        Ok(text)
    }
}

/// A frame of zeros with a number, of a flow.
fn numbered(alloc: Global, number: u32, bytes: u16, flow: u64) -> Option<PlainPkt> {
    let uid = Uid {
        node: NodeId(0),
        count: u64::from(number),
    };
    let mut frame = PlainPkt::zeros(alloc, &mut (), uid, u32::from(bytes)).ok()?;
    frame.add_byte_tag(FLOW, flow).ok()?;
    Some(frame)
}
