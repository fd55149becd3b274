//! Packets, addresses and numbers as words of a line.

use anyhow::{Context, Result, ensure};
use pkt_face::Pkt;
use sim_base::{NodeId, Numbers, Uid};
use std::alloc::{AllocError, Global};

/// What a node has numbered at first: nothing.
pub fn numbers() -> Numbers {
    Numbers {
        node: NodeId(0),
        packets: 0,
        ids: 0,
        stamps: 0,
    }
}

pub fn address(word: &str) -> Result<u32> {
    Ok(u32::from_str_radix(word, 16)?)
}

/// An address, or none where the word is `-`.
pub fn optional_address(word: &str) -> Result<Option<u32>> {
    if word == "-" {
        return Ok(None);
    }
    Ok(Some(address(word)?))
}

pub fn optional_written(alloc: Global, address: Option<u32>) -> Result<String, AllocError> {
    match address {
        Some(address) => format!(in alloc; "{address:08x}"),
        None => format!(in alloc; "-"),
    }
}

/// The packet of a word `HEX+N`.
pub fn read<P: Pkt>(alloc: Global, word: &str) -> Result<P> {
    let (digits, zeros) = word.split_once('+').context("a packet is HEX+N")?;
    let mut bytes = hex::decode(alloc, digits.as_bytes())?;
    let zeros = zeros.parse::<u16>()?;
    let len = bytes.len() + usize::from(zeros);
    ensure!(len <= 131_072, "a packet is that long at most");
    bytes.resize(len, 0)?;
    let uid = Uid {
        node: NodeId(0),
        count: 0,
    };
    P::from_bytes(alloc, &mut P::maker(alloc), uid, &bytes)
        .ok()
        .context("no memory")
}

/// The word for a packet: its zeros at the end are counted.
pub fn written<P: Pkt>(alloc: Global, packet: &P) -> Result<String, AllocError> {
    let mut bytes = vec![in alloc; 0; packet.len() as usize]?;
    packet.peek(0, &mut bytes);
    let zeros = bytes.iter().rev().take_while(|byte| **byte == 0).count();
    bytes.truncate(bytes.len().saturating_sub(zeros));
    let digits = hex::encode(alloc, bytes.as_slice())?;
    format!(in alloc; "{digits}+{zeros}")
}
