//! A packet whose copies share a block, and the packet that it has to equal.

use crate::call::{self, Call};
use block_pool::Pool;
use pkt_face::{Pkt, PlainPkt};
use shared_packet::SharedPkt;
use sim_base::{NoMemory, NodeId, Uid};
use std::alloc::{AllocError, Global};

#[derive(Drop)]
pub struct Pair {
    shared: SharedPkt,
    plain: PlainPkt,
}

impl Pair {
    /// Ten bytes.
    pub fn new(alloc: Global, pool: &mut Pool, round: u32) -> Result<Pair, NoMemory> {
        let uid = Uid {
            node: NodeId(0),
            count: round as u64,
        };
        Ok(Pair {
            shared: opening(alloc, pool, uid)?,
            plain: opening(alloc, &mut (), uid)?,
        })
    }

    pub fn copy(&mut self, pool: &mut Pool) -> Result<Pair, NoMemory> {
        Ok(Pair {
            shared: self.shared.copy(pool)?,
            plain: self.plain.copy(&mut ())?,
        })
    }

    pub fn make(&mut self, pool: &mut Pool, call: Call) -> Result<(), NoMemory> {
        call.make(pool, &mut self.shared)?;
        call.make(&mut (), &mut self.plain)
    }

    pub fn join(&mut self, pool: &mut Pool, other: &Pair) -> Result<(), NoMemory> {
        call::join(pool, &mut self.shared, &other.shared)?;
        call::join(&mut (), &mut self.plain, &other.plain)
    }

    /// Whether both packets have the same bytes, tags and items.
    pub fn is_equal(&self, alloc: Global) -> Result<bool, AllocError> {
        let bytes = bytes_of(alloc, &self.shared)?;
        let others = bytes_of(alloc, &self.plain)?;
        Ok(
            bytes == others
                && self.shared.items() == self.plain.items()
                && self.shared.byte_tags() == self.plain.byte_tags(),
        )
    }
}

fn opening<P: Pkt>(alloc: Global, maker: &mut P::Maker, uid: Uid) -> Result<P, NoMemory> {
    let bytes = [0, 1, 2, 3, 4, 5, 6, 7, 8, 9];
    P::from_bytes(alloc, maker, uid, &bytes)
}

fn bytes_of<P: Pkt>(alloc: Global, packet: &P) -> Result<Vec<u8>, AllocError> {
    let mut bytes = Vec::from_elem(alloc, 0, packet.len() as usize)?;
    packet.peek(0, bytes.as_mut_slice());
    Ok(bytes)
}
