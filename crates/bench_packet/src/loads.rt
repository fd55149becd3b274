//! What is done many times. Each answers how many bytes the last packet had.

use pkt_face::Pkt;
use sim_base::{Kind, NoMemory, NodeId, Uid};
use std::alloc::Global;

const UID: Uid = Uid {
    node: NodeId(0),
    count: 0,
};

const UDP: [u8; 8] = [0xc0, 1, 0, 9, 4, 8, 0, 0];

const IPV4: [u8; 20] = [
    0x45, 0, 4, 0x1c, 0, 0, 0, 0, 64, 17, 0x60, 0xcd, 10, 1, 1, 1, 10, 1, 1, 2,
];

const PPP: [u8; 2] = [0, 0x21];

#[derive(Drop)]
pub struct Load<P: Pkt> {
    alloc: Global,
    maker: P::Maker,
}

impl<P: Pkt> Load<P> {
    pub fn new(alloc: Global) -> Load<P> {
        Load {
            alloc,
            maker: P::maker(alloc),
        }
    }

    pub fn make(&mut self, times: u32) -> Result<u32, NoMemory> {
        let mut bytes = 0;
        for _ in 0..times {
            let packet = P::zeros(self.alloc, &mut self.maker, UID, 1024)?;
            bytes = packet.len();
        }
        Ok(bytes)
    }

    #[tactic(auto, using(sim_base::proofs::PacketLaws::lengths))]
    pub fn push(&mut self, times: u32) -> Result<u32, NoMemory> {
        let mut bytes = 0;
        for _ in 0..times {
            let mut packet = P::zeros(self.alloc, &mut self.maker, UID, 1024)?;
            packet.push_front(&mut self.maker, Kind::Udp, &UDP)?;
            bytes = packet.len();
        }
        Ok(bytes)
    }

    pub fn bytes(&mut self, times: u32) -> Result<u32, NoMemory> {
        let mut bytes = 0;
        for _ in 0..times {
            let packet = P::from_bytes(self.alloc, &mut self.maker, UID, &[7; 1024])?;
            bytes = packet.len();
        }
        Ok(bytes)
    }

    pub fn copy(&mut self, times: u32) -> Result<u32, NoMemory> {
        let mut packet = self.datagram()?;
        let mut bytes = 0;
        for _ in 0..times {
            bytes = packet.copy(&mut self.maker)?.len();
        }
        Ok(bytes)
    }

    pub fn hop(&mut self, times: u32) -> Result<u32, NoMemory> {
        let mut packet = self.datagram()?;
        for _ in 0..times {
            forward(&mut self.maker, &mut packet)?;
        }
        Ok(packet.len())
    }

    pub fn saved(&mut self, times: u32) -> Result<u32, NoMemory> {
        let mut packet = self.datagram()?;
        let mut bytes = 0;
        for _ in 0..times {
            forward(&mut self.maker, &mut packet)?;
            bytes = packet.copy(&mut self.maker)?.len();
        }
        Ok(bytes)
    }

    // A frame of 1,054 bytes.
    #[tactic(auto, using(sim_base::proofs::PacketLaws::lengths))]
    fn datagram(&mut self) -> Result<P, NoMemory> {
        let mut packet = P::zeros(self.alloc, &mut self.maker, UID, 1024)?;
        packet.push_front(&mut self.maker, Kind::Udp, &UDP)?;
        packet.push_front(&mut self.maker, Kind::Ipv4, &IPV4)?;
        packet.push_front(&mut self.maker, Kind::Ppp, &PPP)?;
        Ok(packet)
    }
}

// A router takes the headers of link and IPv4 off, and puts those of the next link in front.
#[tactic(auto, using(sim_base::proofs::PacketLaws::lengths))]
fn forward<P: Pkt>(maker: &mut P::Maker, packet: &mut P) -> Result<(), NoMemory> {
    if packet.len() < 22 {
        return Ok(());
    }
    packet.pop_front(2, Kind::Ppp);
    packet.pop_front(20, Kind::Ipv4);
    packet.push_front(maker, Kind::Ipv4, &IPV4)?;
    packet.push_front(maker, Kind::Ppp, &PPP)
}
