//! From the bytes of a file to its capture. Heads alone are read; a packet's bytes are passed over.

ghost use Rattle.std.specs.Prelude.{◌≡◌, ℕ, ◌+◌, ◌^◌, ◌<◌, ◌≤◌, ◌⊎◌, length, drop, IfOk, OnOk, Ok, Err};
ghost use Rattle.pcap_form.specs.CaptureFile.{IsCapture};
ghost use Rattle.pcap_form.specs.CaptureHead.{fractions};
ghost use Rattle.pcap_form.specs.Reading.{capture_of, form_named, head_of, headed, major_read, packet_of, packets_of, IsReading, ArePacketsOf};

use crate::capture::{Capture, CaptureStop, Captured};
use crate::fields::{read_u16, read_u32};
use sim_base::{NoMemory, Sequence};
use std::alloc::Global;

/// No capture has more bytes.
pub const CAPTURE_LIMIT: usize = 268_435_456;

/// No file holds more bytes of a packet.
const FRAME_LIMIT: u32 = 262_144;

const FILE_HEAD: usize = 24;

const PACKET_HEAD: usize = 16;

/// How a file spells its numbers and its times.
#[derive(Clone, Copy)]
pub(crate) struct Form {
    pub big: bool,
    pub nano: bool,
}

/// What the head of a file says.
#[derive(Clone, Copy)]
pub(crate) struct FileHead {
    pub form: Form,
    pub snaplen: u32,
    pub linktype: u32,
}

/// Reads a capture: a file of the libpcap format, version 2.4, in either byte order, with nanoseconds
/// (magic number 0xa1b23c4d) or microseconds (0xa1b2c3d4). The zone, the accuracy, the snap length and
/// the link type have any value. Fractions are below a second, a packet's captured length is at most
/// 262,144, and the file has at most 268,435,456 bytes.
///
/// `Bad` comes exactly where the bytes are no such file, with the least place where they leave the
/// format.
pub fn read_capture(alloc: Global, bytes: &[u8]) -> Result<Capture, CaptureStop>
    ensures read { IfOk result (IsCapture bytes.now) }
    ensures every { (c : Capture) → IsCapture bytes.now c → (result ≡ Ok c) ⊎ (result ≡ Err CaptureStop.NoMemory) }
    ensures refused { (offset : ℕ) → result ≡ Err (CaptureStop.Bad offset) → (c : Capture) → ¬ IsCapture bytes.now c }
    ensures value { IsReading (capture_of bytes.now) result }
{
    read_limited(alloc, bytes)
}

/// Reads a capture, and refuses one of too many bytes.
#[tactic(auto, unfolding(crate::specs::Reading::capture_of))]
fn read_limited(alloc: Global, bytes: &[u8]) -> Result<Capture, CaptureStop>
    ensures { IsReading (capture_of bytes.now) result }
{
    let read = read_file(alloc, bytes);
    if bytes.len() <= CAPTURE_LIMIT {
        return read;
    }
    match read {
        Ok(_) => Err(CaptureStop::Bad {
            offset: CAPTURE_LIMIT as u64,
        }),
        Err(CaptureStop::Bad { offset }) => Err(CaptureStop::Bad {
            offset: offset.min(CAPTURE_LIMIT as u64),
        }),
        Err(CaptureStop::NoMemory) => Err(CaptureStop::NoMemory),
    }
}

/// Reads a capture of any number of bytes.
fn read_file(alloc: Global, bytes: &[u8]) -> Result<Capture, CaptureStop>
    ensures { IsReading (headed (head_of bytes.now) bytes.now) result }
{
    let head = match read_head(bytes) {
        Ok(head) => head,
        Err(offset) => return Err(CaptureStop::Bad { offset }),
    };
    match read_packets(alloc, head.form, bytes) {
        Ok(packets) => Ok(Capture {
            big: head.form.big,
            nano: head.form.nano,
            snaplen: head.snaplen,
            linktype: head.linktype,
            packets,
        }),
        Err(stop) => Err(stop),
    }
}

/// The head that bytes begin with, or where it is broken.
#[tactic(auto, unfolding(crate::specs::Reading::head_of))]
fn read_head(bytes: &[u8]) -> Result<FileHead, u64>
    ensures value { result ≡ head_of bytes.now }
    ensures size { OnOk result (24 ≤ length bytes.now) }
{
    if bytes.len() < 4 {
        return Err(bytes.len() as u64);
    }
    match form_named(read_u32(bytes, 0, true)) {
        Some(form) => read_version(form, bytes),
        None => Err(0),
    }
}

/// The form of a file by its magic number.
#[tactic(auto, unfolding(crate::specs::Reading::form_named))]
fn form_named(magic: u32) -> Option<Form>
    ensures { result ≡ form_named magic }
{
    match magic {
        0xa1b2_3c4d => Some(Form {
            big: true,
            nano: true,
        }),
        0xa1b2_c3d4 => Some(Form {
            big: true,
            nano: false,
        }),
        0x4d3c_b2a1 => Some(Form {
            big: false,
            nano: true,
        }),
        0xd4c3_b2a1 => Some(Form {
            big: false,
            nano: false,
        }),
        _ => None,
    }
}

/// What stands behind the magic number: the version, and fields of any value.
fn read_version(form: Form, bytes: &[u8]) -> Result<FileHead, u64>
    ensures value { result ≡ major_read form bytes.now }
    ensures size { OnOk result (24 ≤ length bytes.now) }
{
    let size = bytes.len();
    if size < 6 {
        return Err(size as u64);
    }
    if read_u16(bytes, 4, form.big) != 2 {
        return Err(4);
    }
    if size < 8 {
        return Err(size as u64);
    }
    if read_u16(bytes, 6, form.big) != 4 {
        return Err(6);
    }
    if size < FILE_HEAD {
        return Err(size as u64);
    }
    Ok(FileHead {
        form,
        snaplen: read_u32(bytes, 16, form.big),
        linktype: read_u32(bytes, 20, form.big),
    })
}

/// How many fractions are a second.
fn fractions_of(form: Form) -> u32
    ensures { result ≡ fractions form.nano }
{
    if form.nano { 1_000_000_000 } else { 1_000_000 }
}

/// The packet that bytes begin with, which stand at a place in the file, or where it is broken.
#[tactic(auto, unfolding(crate::specs::Reading::packet_of))]
fn read_packet(form: Form, at: u64, bytes: &[u8]) -> Result<Captured, u64>
    requires { at + length bytes.now < 2 ^ 63 }
    ensures value { result ≡ packet_of form at bytes.now }
    ensures size { IfOk result (λ p. 16 + p.captured ≤ length bytes.now) }
{
    let size = bytes.len();
    if size >= 8 && read_u32(bytes, 4, form.big) >= fractions_of(form) {
        return Err(at + 4);
    }
    if size >= 12 && read_u32(bytes, 8, form.big) > FRAME_LIMIT {
        return Err(at + 8);
    }
    if size < PACKET_HEAD {
        return Err(at + size as u64);
    }
    let captured = read_u32(bytes, 8, form.big);
    if size - PACKET_HEAD < captured as usize {
        return Err(at + size as u64);
    }
    Ok(Captured {
        seconds: read_u32(bytes, 0, form.big),
        fraction: read_u32(bytes, 4, form.big),
        captured,
        original: read_u32(bytes, 12, form.big),
        at: at + PACKET_HEAD as u64,
    })
}

/// The packets behind a head, up to the end of the bytes.
fn read_packets(alloc: Global, form: Form, bytes: &[u8]) -> Result<Sequence<Captured>, CaptureStop>
    requires { 24 ≤ length bytes.now }
    ensures { ArePacketsOf (packets_of (length bytes.now) form 24 (drop 24 bytes.now)) result }
{
    let mut packets = Sequence::new(alloc);
    let mut at = FILE_HEAD;
    while at < bytes.len() {
        let packet = match read_packet(form, at as u64, &bytes[at..]) {
            Ok(packet) => packet,
            Err(offset) => return Err(CaptureStop::Bad { offset }),
        };
        at += PACKET_HEAD + packet.captured as usize;
        match packets.push(packet) {
            Ok(()) => {}
            Err(NoMemory) => return Err(CaptureStop::NoMemory),
        }
    }
    Ok(packets)
}
