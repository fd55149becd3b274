//! Capture files in the libpcap format, version 2.4: a head, and then for each packet a head and its
//! bytes. A captured frame leaves the simulator here, little-endian with nanoseconds; a capture of any
//! tool, in either byte order, with nanoseconds or microseconds, is read here.
#![tactic(auto)]

mod capture;
mod fields;
mod laws;
mod packets;
mod reader;
#[cfg(test)]
mod tests;

ghost use Rattle.std.specs.Prelude.{◌≡◌, ◌<◌, ◌≤◌, ◌*◌, ◌^◌, ◌++◌, length, OnOk, OnErr};
ghost use Rattle.pcap_form.specs.Capture.{capture_head, captured_packet, packet_head};

pub use capture::{Capture, CaptureStop, Captured};
pub use laws::written_captures_are_files;
pub use packets::write_packet;
pub use reader::{CAPTURE_LIMIT, read_capture};
use sim_base::{NoMemory, Time};

/// How many bytes of a packet a file holds at most.
const SNAP_LENGTH: usize = 65_535;

/// Appends the head of a capture file, 24 bytes: magic number, version, time zone, accuracy, snap
/// length and link type. After want of memory `out` is as before.
pub fn write_head(linktype: u32, out: &mut Vec<u8>) -> Result<(), NoMemory>
    ensures ok { OnOk result (out.new.items ≡ out.old.items ++ capture_head linktype) }
    ensures err { OnErr result (out.new.items ≡ out.old.items) }
{
    out.extend_from_slice(&file_head_bytes(linktype))?;
    Ok(())
}

fn file_head_bytes(linktype: u32) -> [u8; 24]
    ensures { result ≡ capture_head linktype }
{
    let [a, b, c, d] = linktype.to_le_bytes();
    [
        0x4d, 0x3c, 0xb2, 0xa1, 2, 0, 4, 0, 0, 0, 0, 0, 0, 0, 0, 0, 0xff, 0xff, 0, 0, a, b, c, d,
    ]
}

/// The head of a packet of `size` bytes.
fn packet_head_bytes(time: Time, size: u32) -> [u8; 16]
    requires { time.0 < 2 ^ 32 * 10 ^ 9 }
    ensures { result ≡ packet_head time.0 size }
{
    let seconds = (time.0 / 1_000_000_000) as u32;
    let nanoseconds = (time.0 % 1_000_000_000) as u32;
    let [s0, s1, s2, s3] = seconds.to_le_bytes();
    let [n0, n1, n2, n3] = nanoseconds.to_le_bytes();
    let [c0, c1, c2, c3] = size.min(SNAP_LENGTH as u32).to_le_bytes();
    let [l0, l1, l2, l3] = size.to_le_bytes();
    [
        s0, s1, s2, s3, n0, n1, n2, n3, c0, c1, c2, c3, l0, l1, l2, l3,
    ]
}

/// Appends a packet that was captured at `time`: a head of 16 bytes, which are the seconds, the
/// nanoseconds, the captured length and the length, and the bytes up to the snap length. After want
/// of memory `out` is as before.
pub fn write_bytes(time: Time, bytes: &[u8], out: &mut Vec<u8>) -> Result<(), NoMemory>
    requires time { time.0 < 2 ^ 32 * 10 ^ 9 }
    requires size { length bytes.now ≤ 131072 }
    ensures ok { OnOk result (out.new.items ≡ out.old.items ++ captured_packet time.0 bytes.now) }
    ensures err { OnErr result (out.new.items ≡ out.old.items) }
{
    let before = out.len();
    let captured = &bytes[..SNAP_LENGTH.min(bytes.len())];
    out.extend_from_slice(&packet_head_bytes(time, bytes.len() as u32))?;
    match out.extend_from_slice(captured) {
        Ok(()) => Ok(()),
        Err(_) => {
            out.truncate(before);
            Err(NoMemory)
        }
    }
}
