//! What a connection asks for, done: segments and deliveries become packets, and timers take stamps.

ghost use Rattle.std.specs.Prelude.{◌≡◌, ◌≤◌, ◌<◌, ◌^◌, ◌%◌, OnOk, IfOk, IfSome, All, length};
ghost use Rattle.sim_base.specs.Packet.{from_bytes};
ghost use Rattle.layer_words.specs.Acts.{Appends};
ghost use Rattle.layer_words.specs.Counting.{new_uid, with_packet};
ghost use Rattle.tcp_conn.specs.OnItsWay.{bytes_of, said};
ghost use Rattle.tcp_wire.specs.Segment.{segment};
ghost use Rattle.tcp_flow.specs.Conn.{all_done, done, with_stamp};
ghost use Rattle.tcp_flow.specs.Seen.{plain_act};
ghost use Rattle.tcp_flow.specs.Small.{AddsFitting, IsSmall};

use crate::conn::Conn;
use crate::words::{Act, Seg};
use layer_words::next_uid;
use pkt_face::Pkt;
use sim_base::{NoMemory, Numbers, Uid};
use std::alloc::Global;
use tcp_conn::{Effect, Heard, Outgoing};
use tcp_wire::write_segment;

impl Conn {
    /// Does all that the connection asks for, in order.
    pub(crate) fn carry_out<P: Pkt>(
        &mut self,
        alloc: Global,
        effects: &[Effect],
        maker: &mut P::Maker,
        numbers: &mut Numbers,
        out: &mut Vec<Act<P>>,
    ) -> Result<(), NoMemory>
        requires { All IsSmall effects.now }
        ensures conn { OnOk result (self.new ≡ (all_done self.old numbers.old effects.now).conn) }
        ensures numbers { OnOk result (numbers.new ≡ (all_done self.old numbers.old effects.now).numbers) }
        ensures acts { OnOk result (Appends (plain_act P.plain) out.old.items out.new.items (all_done self.old numbers.old effects.now).acts) }
        ensures datagrams { OnOk result (AddsFitting (plain_act P.plain) out.old.items out.new.items) }
        ensures connection { OnOk result (self.new.connection ≡ self.old.connection) }
        ensures pair { self.new.pair ≡ self.old.pair }
    {
        for effect in effects {
            self.carry_out_one(alloc, effect, maker, numbers, out)?;
        }
        Ok(())
    }

    fn carry_out_one<P: Pkt>(
        &mut self,
        alloc: Global,
        effect: &Effect,
        maker: &mut P::Maker,
        numbers: &mut Numbers,
        out: &mut Vec<Act<P>>,
    ) -> Result<(), NoMemory>
        requires { IsSmall effect.now }
        ensures conn { OnOk result (self.new ≡ (done self.old numbers.old effect.now).conn) }
        ensures numbers { OnOk result (numbers.new ≡ (done self.old numbers.old effect.now).numbers) }
        ensures acts { OnOk result (Appends (plain_act P.plain) out.old.items out.new.items (done self.old numbers.old effect.now).acts) }
        ensures datagrams { OnOk result (AddsFitting (plain_act P.plain) out.old.items out.new.items) }
        ensures connection { OnOk result (self.new.connection ≡ self.old.connection) }
        ensures pair { self.new.pair ≡ self.old.pair }
    {
        let app = self.app;
        match effect {
            Effect::Emit { segment } => {
                let packet = self.packet_of(alloc, segment, next_uid(numbers), maker)?;
                out.push(Act::Emit {
                    segment: Seg {
                        src: self.pair.addr,
                        dst: self.pair.other_addr,
                        packet,
                    },
                })?;
            }
            Effect::TimerAt { at } => {
                self.stamp = numbers.stamps;
                out.push(Act::TimerAt {
                    at: *at,
                    conn: self.number,
                    stamp: next_stamp(numbers),
                })?;
            }
            Effect::Connected => out.push(Act::Connected { app })?,
            Effect::Room { free } => out.push(Act::Room {
                app,
                free: *free as u32,
            })?,
            Effect::Deliver { bytes } => {
                let packet = delivery(alloc, bytes.as_slice(), next_uid(numbers), maker)?;
                out.push(Act::Deliver {
                    app,
                    src: self.pair.other_addr,
                    sport: self.pair.other_port,
                    packet,
                })?;
            }
            Effect::End => out.push(Act::End { app })?,
            Effect::Reset => out.push(Act::Reset { app })?,
            Effect::Dropped => out.push(Act::Dropped)?,
        }
        Ok(())
    }

    /// The packet of a segment, with the bytes that the connection holds at its position.
    fn packet_of<P: Pkt>(
        &self,
        alloc: Global,
        outgoing: &Outgoing,
        uid: Uid,
        maker: &mut P::Maker,
    ) -> Result<P, NoMemory>
        requires small { outgoing.now.bytes ≤ 9000 }
        requires mss { IfSome outgoing.now.mss (λ mss. mss < 2 ^ 16) }
        ensures { IfOk result (λ packet. P.plain packet ≡ segment uid self.now.app self.now.pair (said outgoing.now) (bytes_of self.now.connection outgoing.now)) }
    {
        let before = outgoing.position.saturating_sub(self.connection.una);
        let bytes = self.connection.buffer.part(before, outgoing.bytes);
        write_segment(
            alloc,
            maker,
            uid,
            self.app,
            &self.pair,
            &said(outgoing),
            bytes,
        )
    }
}

/// A delivery's packet.
fn delivery<P: Pkt>(
    alloc: Global,
    bytes: &[u8],
    uid: Uid,
    maker: &mut P::Maker,
) -> Result<P, NoMemory>
    requires { length bytes.now ≤ 65535 }
    ensures { IfOk result (λ packet. P.plain packet ≡ from_bytes uid bytes.now) }
{
    P::from_bytes(alloc, maker, uid, bytes)
}

/// Takes the stamp of the next timer that a node starts.
fn next_stamp(numbers: &mut Numbers) -> u64
    ensures stamp { result ≡ numbers.old.stamps }
    ensures taken { numbers.new ≡ with_stamp numbers.old }
{
    let stamp = numbers.stamps;
    numbers.stamps = numbers.stamps.saturating_add(1);
    stamp
}

/// What the header of a segment says.
fn said(outgoing: &Outgoing) -> Heard
    requires { IfSome outgoing.now.mss (λ mss. mss < 2 ^ 16) }
    ensures { result ≡ said outgoing.now }
{
    Heard {
        seq: in_32_bits(outgoing.position),
        ack: match outgoing.ack {
            Some(ack) => in_32_bits(ack),
            None => 0,
        },
        window: u16::MAX,
        mss: match outgoing.mss {
            Some(mss) => Some(mss as u16),
            None => None,
        },
        syn: outgoing.syn,
        has_ack: outgoing.ack.is_some(),
        fin: outgoing.fin,
        rst: false,
    }
}

/// A position in 32 bits.
fn in_32_bits(position: u64) -> u32
    ensures { result ≡ position % 2 ^ 32 }
{
    (position % (1 << 32)) as u32
}
