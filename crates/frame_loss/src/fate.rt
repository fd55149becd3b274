//! The fate of a frame.

ghost use Rattle.std.specs.Prelude.{◌≡◌, ◌*◌, ◌<◌, ◌≤◌, IfOk, length};
ghost use Rattle.sim_base.specs.Losses.{after_loss, with_frame};
ghost use Rattle.sim_base.specs.Packet.{len};
ghost use Rattle.frame_loss.specs.Fate.{damaged, fate, received, with_bit_inverted};
ghost use Rattle.frame_loss.specs.Seen.{frame_of, plain_fate};

use pkt_face::Pkt;
use sim_base::{Loss, NoMemory, Random};
use std::alloc::Global;

/// What becomes of a frame that comes to an interface.
#[derive(Debug, Drop)]
pub enum Fate<P> {
    Lost { frame: P },
    Received { frame: P },
}

/// Counts a frame that comes to an interface, and tells what becomes of it. After `NoMemory` all are given up.
pub fn receive<P: Pkt>(
    loss: &mut Loss,
    frame: P,
    alloc: Global,
    maker: &mut P::Maker,
    random: &mut Random,
) -> Result<Fate<P>, NoMemory>
    requires { 1 ≤ len (P.plain frame) }
    ensures fate { IfOk result (λ f. plain_fate P.plain f ≡ fate random.old loss.old (P.plain frame)) }
    ensures size { IfOk result (λ f. len (P.plain (frame_of f)) ≡ len (P.plain frame)) }
    ensures loss { loss.new ≡ with_frame loss.old }
    ensures random { random.new ≡ after_loss random.old loss.old }
{
    if loss.lost(random) {
        return Ok(Fate::Lost { frame });
    }
    Ok(Fate::Received {
        frame: received(loss.flip(), frame, alloc, maker)?,
    })
}

/// A frame as it comes, with a bit inverted where one is named.
fn received<P: Pkt>(
    flip: Option<u32>,
    frame: P,
    alloc: Global,
    maker: &mut P::Maker,
) -> Result<P, NoMemory>
    requires { 1 ≤ len (P.plain frame) }
    ensures value { IfOk result (λ packet. P.plain packet ≡ received flip (P.plain frame)) }
    ensures size { IfOk result (λ packet. len (P.plain packet) ≡ len (P.plain frame)) }
{
    match flip {
        None => Ok(frame),
        Some(bit) => damaged(&frame, bit, alloc, maker),
    }
}

/// A new packet of a frame's number and bytes, with one bit inverted.
#[tactic(auto, using(sim_base::proofs::PacketLaws::lengths))]
fn damaged<P: Pkt>(frame: &P, bit: u32, alloc: Global, maker: &mut P::Maker) -> Result<P, NoMemory>
    requires { 1 ≤ len (P.plain frame.now) }
    ensures value { IfOk result (λ packet. P.plain packet ≡ damaged bit (P.plain frame.now)) }
    ensures size { IfOk result (λ packet. len (P.plain packet) ≡ len (P.plain frame.now)) }
{
    let size = frame.len();
    let mut bytes = bytes_of(frame, alloc)?;
    invert(&mut bytes, bit % (8 * size));
    P::from_bytes(alloc, maker, frame.uid(), &bytes)
}

/// The bytes of a frame.
#[tactic(auto, using(crate::proofs::ByteLaws::slice_range_whole))]
fn bytes_of<P: Pkt>(frame: &P, alloc: Global) -> Result<Vec<u8>, NoMemory>
    ensures { IfOk result (λ bytes. bytes.items ≡ (P.plain frame.now).bytes) }
{
    let size = frame.len();
    let mut bytes = vec![in alloc; 0; size as usize]?;
    frame.peek(0, &mut bytes);
    Ok(bytes)
}

/// Inverts a bit, counted from the high bit of the first byte.
fn invert(bytes: &mut [u8], bit: u32)
    requires { bit < 8 * length bytes.old }
    ensures value { bytes.new ≡ with_bit_inverted bit bytes.old }
    ensures size { length bytes.new ≡ length bytes.old }
{
    bytes[(bit / 8) as usize] ^= 0x80 >> (bit % 8);
}
