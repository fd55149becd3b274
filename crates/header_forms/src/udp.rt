//! The header of UDP.

ghost use Rattle.std.specs.Prelude.{◌≡◌, ℕ, ◌≤◌, ◌^◌, ◌<◌, ◌++◌, List, length, drop, MatchResult, Ok};
ghost use Rattle.byteorder.specs.Endian.{big_bytes};
ghost use Rattle.std.specs.Result.{result_ok};

use crate::bad::Bad;
use crate::fields::{read_u16, write_u16};

#[derive(Clone, Copy, Debug, PartialEq, Eq)]
pub struct Udp {
    pub sport: u16,
    pub dport: u16,
    pub length: u16,
    pub checksum: u16,
}

impl Udp {
    ghost use Rattle.header_forms.specs.Udp.{udp_bytes, udp_of, IsUdp, BreaksUdp, FitsUdp};

    pub const SIZE: usize = 8;

    /// Reads the header that the bytes begin with.
    #[tactic(auto, unfolding(crate::specs::Udp::udp_bytes))]
    pub fn read(bytes: &[u8]) -> Result<Udp, Bad>
        ensures reads { MatchResult result (λ h. IsUdp h bytes.now (drop 8 bytes.now)) (λ bad. BreaksUdp bad bytes.now) }
        ensures exact { (h : Udp) (rest : List ℕ) → FitsUdp h → IsUdp h bytes.now rest → result ≡ Ok h }
        ensures value { result_ok result ≡ udp_of bytes.now }
    {
        if bytes.len() < Udp::SIZE {
            return Err(Bad::Short {
                have: bytes.len() as u32,
            });
        }
        let length = read_u16(bytes, 4);
        if length < 8 {
            return Err(Bad::Length {
                field: u32::from(length),
            });
        }
        Ok(Udp {
            sport: read_u16(bytes, 0),
            dport: read_u16(bytes, 2),
            length,
            checksum: read_u16(bytes, 6),
        })
    }

    #[tactic(auto, unfolding(crate::specs::Udp::udp_bytes))]
    pub fn write(&self, out: &mut [u8])
        requires { length out.old ≡ 8 }
        ensures { out.new ≡ udp_bytes self.now }
    {
        write_u16(out, 0, self.sport);
        write_u16(out, 2, self.dport);
        write_u16(out, 4, self.length);
        write_u16(out, 6, self.checksum);
    }
}
