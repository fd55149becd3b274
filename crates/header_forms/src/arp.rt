//! The packets of ARP for Ethernet and IPv4.

ghost use Rattle.std.specs.Prelude.{◌≡◌, ℕ, ◌≤◌, ◌<◌, ◌++◌, List, length, drop, MatchResult, Ok};
ghost use Rattle.std.specs.Result.{result_ok};

use crate::bad::Bad;
use crate::fields::{
    read_mac, read_u8, read_u16, read_u32, write_mac, write_u8, write_u16, write_u32,
};

#[derive(Clone, Copy, Debug, PartialEq, Eq)]
pub struct Arp {
    pub op: u16,
    pub sender_mac: [u8; 6],
    pub sender: u32,
    pub target_mac: [u8; 6],
    pub target: u32,
}

impl Arp {
    ghost use Rattle.header_forms.specs.Arp.{arp_bytes, arp_of, IsArp, BreaksArp, FitsArp, HasArpFields};

    pub const SIZE: usize = 28;

    /// Reads the header that the bytes begin with.
    pub fn read(bytes: &[u8]) -> Result<Arp, Bad>
        ensures reads { MatchResult result (λ h. IsArp h bytes.now (drop 28 bytes.now)) (λ bad. BreaksArp bad bytes.now) }
        ensures exact { (h : Arp) (rest : List ℕ) → FitsArp h → IsArp h bytes.now rest → result ≡ Ok h }
        ensures value { result_ok result ≡ arp_of bytes.now }
    {
        if bytes.len() < Arp::SIZE {
            return Err(Bad::Short {
                have: bytes.len() as u32,
            });
        }
        if read_u16(bytes, 0) != 1 {
            return Err(Bad::Version {
                byte: read_u8(bytes, 1),
            });
        }
        let protocol = read_u16(bytes, 2);
        if protocol != 0x0800 {
            return Err(Bad::Length {
                field: u32::from(protocol),
            });
        }
        let mac_size = read_u8(bytes, 4);
        if mac_size != 6 {
            return Err(Bad::Length {
                field: u32::from(mac_size),
            });
        }
        let address_size = read_u8(bytes, 5);
        if address_size != 4 {
            return Err(Bad::Length {
                field: u32::from(address_size),
            });
        }
        let op = read_u16(bytes, 6);
        if op != 1 && op != 2 {
            return Err(Bad::Length {
                field: u32::from(op),
            });
        }
        Ok(Arp::read_fields(bytes))
    }

    /// The fields of bytes that may be no header.
    fn read_fields(bytes: &[u8]) -> Arp
        requires { 28 ≤ length bytes.now }
        ensures { HasArpFields result bytes.now }
    {
        Arp {
            op: read_u16(bytes, 6),
            sender_mac: read_mac(bytes, 8),
            sender: read_u32(bytes, 14),
            target_mac: read_mac(bytes, 18),
            target: read_u32(bytes, 24),
        }
    }

    #[tactic(auto, unfolding(crate::specs::Arp::arp_bytes))]
    pub fn write(&self, out: &mut [u8])
        requires { length out.old ≡ 28 }
        ensures { out.new ≡ arp_bytes self.now }
    {
        write_u16(out, 0, 1);
        write_u16(out, 2, 0x0800);
        write_u8(out, 4, 6);
        write_u8(out, 5, 4);
        write_u16(out, 6, self.op);
        write_mac(out, 8, &self.sender_mac);
        write_u32(out, 14, self.sender);
        write_mac(out, 18, &self.target_mac);
        write_u32(out, 24, self.target);
    }
}
