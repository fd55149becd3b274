//! The packets of a capture file as text.

use anyhow::Result;
use byteorder::{ByteOrder, LittleEndian};
use std::alloc::Global;

/// How long a file's head is.
const FILE_HEAD: usize = 24;

/// How long the head of a packet is.
const PACKET_HEAD: usize = 16;

/// A line for each packet: its time in seconds, how many bytes of how many were captured, and the first of them.
pub fn text(alloc: Global, file: &[u8], shown: usize) -> Result<String> {
    let mut text = String::new(alloc);
    let mut rest = &file[FILE_HEAD.min(file.len())..];
    while rest.len() >= PACKET_HEAD {
        let (head, behind) = rest.split_at(PACKET_HEAD);
        let seconds = LittleEndian::read_u32(&head[..4]);
        let nanoseconds = LittleEndian::read_u32(&head[4..8]);
        let captured = LittleEndian::read_u32(&head[8..12]);
        let length = LittleEndian::read_u32(&head[12..]);
        let (packet, later) = behind.split_at((captured as usize).min(behind.len()));
        let first = hex::encode(alloc, &packet[..shown.min(packet.len())])?;
        let space = if first.is_empty() { "" } else { " " };
        let line = format!(in alloc;
            "  {seconds}.{nanoseconds:09} {captured} of {length}{space}{first}\n"
        )?;
        text.push_str(line.as_str())?;
        rest = later;
    }
    Ok(text)
}
