//! A segment that no connection takes is refused (RFC 9293, 3.10.7.1).

ghost use Rattle.std.specs.Prelude.{◌≡◌, ◌≤◌, ◌<◌, ◌^◌, OnOk, IfOk, length, []};
ghost use Rattle.layer_words.specs.Acts.{Appends};
ghost use Rattle.tcp_wire.specs.Segment.{segment};
ghost use Rattle.tcp_flow.specs.Seen.{plain_act};
ghost use Rattle.tcp_flow.specs.Small.{AddsFitting};
ghost use Rattle.tcp_flow.specs.Stray.{answering, refusal, refused, reset_at};

use crate::words::{Act, Seg};
use layer_words::next_uid;
use pkt_face::Pkt;
use sim_base::{NoMemory, Numbers};
use std::alloc::Global;
use tcp_conn::Heard;
use tcp_wire::{Arrived, SocketPair, write_segment};

/// Answers a segment from one address to another by a RST, unless it is one.
pub fn refuse<P: Pkt>(
    alloc: Global,
    src: u32,
    dst: u32,
    arrived: &Arrived,
    maker: &mut P::Maker,
    numbers: &mut Numbers,
    out: &mut Vec<Act<P>>,
) -> Result<(), NoMemory>
    requires { length arrived.now.bytes < 2 ^ 32 }
    ensures numbers { OnOk result (numbers.new ≡ (refused src dst arrived.now numbers.old).numbers) }
    ensures acts { OnOk result (Appends (plain_act P.plain) out.old.items out.new.items (refused src dst arrived.now numbers.old).acts) }
    ensures datagrams { OnOk result (AddsFitting (plain_act P.plain) out.old.items out.new.items) }
{
    if arrived.says.rst {
        return Ok(());
    }
    let pair = answering(src, dst, arrived);
    let says = refusal(&arrived.says, arrived.bytes.len() as u64);
    let packet = write_segment(alloc, maker, next_uid(numbers), 0, &pair, &says, b"")?;
    out.push(Act::Emit {
        segment: Seg {
            src: dst,
            dst: src,
            packet,
        },
    })?;
    Ok(())
}

/// Who answers whom.
pub(crate) fn answering(src: u32, dst: u32, arrived: &Arrived) -> SocketPair
    ensures { result ≡ answering src dst arrived.now }
{
    SocketPair {
        addr: dst,
        port: arrived.dport,
        other_addr: src,
        other_port: arrived.sport,
    }
}

/// The RST that answers a segment of so many bytes.
fn refusal(says: &Heard, bytes: u64) -> Heard
    requires { bytes < 2 ^ 32 }
    ensures { result ≡ refusal says.now bytes }
{
    if says.has_ack {
        return reset_at(says.ack, 0, false);
    }
    let all = u64::from(says.seq) + bytes + u64::from(says.syn) + u64::from(says.fin);
    reset_at(0, (all % (1 << 32)) as u32, true)
}

fn reset_at(seq: u32, ack: u32, has_ack: bool) -> Heard
    ensures { result ≡ reset_at seq ack has_ack }
{
    Heard {
        seq,
        ack,
        window: u16::MAX,
        mss: None,
        syn: false,
        has_ack,
        fin: false,
        rst: true,
    }
}
