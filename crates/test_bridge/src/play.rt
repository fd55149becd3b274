//! A bridge whose stations have numbers.

use anyhow::{Result, bail};
use bridge_dev::{Act, Bridge, In};
use pkt_face::{Pkt, PlainPkt};
use sim_base::{NodeId, Time, Uid};
use std::alloc::Global;

/// The MAC address of everyone.
const EVERYONE: [u8; 6] = [0xff; 6];

/// A bridge that hears stations.
#[derive(Drop)]
pub struct Play {
    bridge: Bridge,
}

impl Play {
    /// A bridge that has heard no station.
    pub fn begin(alloc: Global, ports: u32) -> Play {
        Play {
            bridge: Bridge::make(alloc, ports),
        }
    }

    /// Lets a frame come in, and tells where it goes out.
    pub fn hear(
        &mut self,
        alloc: Global,
        now: u64,
        port: u32,
        source: u8,
        to: Option<u8>,
    ) -> Result<String> {
        let Some(frame) = framed(alloc, source, to) else {
            bail!("no memory");
        };
        if port >= self.bridge.ports() || frame.len() < 14 {
            bail!("no such frame comes in");
        }
        let mut acts = Vec::new(alloc);
        let input = In::Frame {
            now: Time(now),
            port,
            frame,
        };
        let Ok(()) = self.bridge.step(input, &mut (), &mut acts) else {
            bail!("no memory");
        };
        told(alloc, acts.as_slice())
    }

    /// Tells where a station is looked for.
    pub fn find(&self, alloc: Global, now: u64, station: u8) -> Result<String> {
        match self.bridge.lookup(Time(now), mac(station)) {
            Some(port) => Ok(format!(in alloc; " {port}")?),
            None => Ok(format!(in alloc; " unknown")?),
        }
    }
}

fn mac(station: u8) -> [u8; 6] {
    [2, 0, 0, 0, 0, station]
}

/// A frame of 64 bytes from a station to another, or to everyone.
fn framed(alloc: Global, source: u8, to: Option<u8>) -> Option<PlainPkt> {
    let uid = Uid {
        node: NodeId(0),
        count: 0,
    };
    let to = match to {
        Some(station) => mac(station),
        None => EVERYONE,
    };
    let mut bytes = Vec::from_slice(alloc, &to).ok()?;
    bytes.extend_from_slice(&mac(source)).ok()?;
    bytes.resize(64, 0).ok()?;
    PlainPkt::from_bytes(alloc, &mut (), uid, &bytes).ok()
}

/// Where frames go out.
fn told(alloc: Global, acts: &[Act<PlainPkt>]) -> Result<String> {
    let mut text = String::new(alloc);
    for act in acts {
        let word = match act {
            Act::Out { port, frame } => format!(in alloc; " out at {port}, {} bytes", frame.len())?,
            Act::Ignored => format!(in alloc; " ignored")?,
        };
        text.push_str(word.as_str())?;
    }
    Ok(text)
}
