//! Captured packets. Their bytes are read straight into the file's buffer.

ghost use Rattle.std.specs.Prelude.{◌≡◌, ◌<◌, ◌≤◌, ◌*◌, ◌^◌, ◌++◌, take, OnOk, OnErr};
ghost use Rattle.sim_base.specs.Packet.{len};
ghost use Rattle.pcap_form.specs.Capture.{captured_packet};

use crate::{SNAP_LENGTH, packet_head_bytes};
use pkt_face::Pkt;
use sim_base::{NoMemory, Time};

/// Appends a packet that was captured at `time`: a head of 16 bytes, which are the seconds, the
/// nanoseconds, the captured length and the length, and the packet's bytes up to the snap length.
/// After want of memory `out` is as before.
pub fn write_packet<P: Pkt>(time: Time, packet: &P, out: &mut Vec<u8>) -> Result<(), NoMemory>
    requires { time.0 < 2 ^ 32 * 10 ^ 9 }
    ensures ok { OnOk result (out.new.items ≡ out.old.items ++ captured_packet time.0 (P.plain packet.now).bytes) }
    ensures err { OnErr result (out.new.items ≡ out.old.items) }
{
    let before = out.len();
    let size = packet.len();
    let captured = SNAP_LENGTH.min(size as usize);
    out.extend_from_slice(&packet_head_bytes(time, size))?;
    match append_first(packet, captured, out) {
        Ok(()) => Ok(()),
        Err(refused) => {
            out.truncate(before);
            Err(refused)
        }
    }
}

/// Appends the first `n` bytes of a packet.
fn append_first<P: Pkt>(packet: &P, n: usize, out: &mut Vec<u8>) -> Result<(), NoMemory>
    requires { n ≤ len (P.plain packet.now) }
    ensures ok { OnOk result (out.new.items ≡ out.old.items ++ take n (P.plain packet.now).bytes) }
    ensures err { OnErr result (out.new.items ≡ out.old.items) }
{
    let start = out.len();
    out.resize(start + n, 0)?;
    packet.peek(0, &mut out[start..]);
    Ok(())
}
