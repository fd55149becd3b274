//! A packet as text: its bytes, equal ones in a row as one with their number, its byte tags, its packet
//! tags up to number 4, and its items with what was cut from them.

use pkt_face::Pkt;
use std::alloc::{AllocError, Global};

fn push_run(alloc: Global, text: &mut String, byte: u8, count: u32) -> Result<(), AllocError> {
    if count == 1 {
        text.push_str(format!(in alloc; " {byte:02x}")?.as_str())?;
    }
    if count > 1 {
        text.push_str(format!(in alloc; " {byte:02x}*{count}")?.as_str())?;
    }
    Ok(())
}

fn push_bytes(alloc: Global, text: &mut String, bytes: &[u8]) -> Result<(), AllocError> {
    let mut last = 0;
    let mut count: u32 = 0;
    for byte in bytes {
        if *byte != last {
            push_run(alloc, text, last, count)?;
            last = *byte;
            count = 0;
        }
        count = count.saturating_add(1);
    }
    push_run(alloc, text, last, count)
}

fn push_tags<P: Pkt>(alloc: Global, text: &mut String, packet: &P) -> Result<(), AllocError> {
    for tag in packet.byte_tags() {
        let (number, from, to, value) = (tag.tag, tag.from, tag.to, tag.value);
        text.push_str(format!(in alloc; " {number}@{from}-{to}={value}")?.as_str())?;
    }
    text.push_str(";")?;
    for number in 0..5 {
        if let Some(value) = packet.tag(number) {
            text.push_str(format!(in alloc; " {number}={value}")?.as_str())?;
        }
    }
    Ok(())
}

fn push_items<P: Pkt>(alloc: Global, text: &mut String, packet: &P) -> Result<(), AllocError> {
    for item in packet.items() {
        let (kind, size, front, back) = (item.kind, item.size, item.cut_front, item.cut_back);
        text.push_str(format!(in alloc; " {kind:?}:{size}-{front}-{back}")?.as_str())?;
    }
    Ok(())
}

pub fn text_of<P: Pkt>(alloc: Global, packet: &P) -> Result<String, AllocError> {
    let len = packet.len();
    let mut bytes = Vec::from_elem(alloc, 0, len as usize)?;
    packet.peek(0, bytes.as_mut_slice());
    let mut text = format!(in alloc; "{len}:")?;
    push_bytes(alloc, &mut text, bytes.as_slice())?;
    text.push_str(";")?;
    push_tags(alloc, &mut text, packet)?;
    text.push_str(";")?;
    push_items(alloc, &mut text, packet)?;
    Ok(text)
}
