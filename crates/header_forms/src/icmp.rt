//! The header of ICMP.

ghost use Rattle.std.specs.Prelude.{◌≡◌, ℕ, ◌≤◌, ◌<◌, ◌++◌, List, length, drop, MatchResult, Ok};
ghost use Rattle.std.specs.Result.{result_ok};

use crate::bad::Bad;
use crate::fields::{read_u8, read_u16, read_u32, write_u8, write_u16, write_u32};

#[derive(Clone, Copy, Debug, PartialEq, Eq)]
pub struct Icmp {
    pub kind: u8,
    pub code: u8,
    pub checksum: u16,
    pub rest: u32,
}

impl Icmp {
    ghost use Rattle.header_forms.specs.Icmp.{icmp_bytes, icmp_of, IsIcmp, BreaksIcmp, FitsIcmp};

    pub const SIZE: usize = 8;

    /// Reads the header that the bytes begin with.
    #[tactic(auto, unfolding(crate::specs::Icmp::icmp_bytes))]
    pub fn read(bytes: &[u8]) -> Result<Icmp, Bad>
        ensures reads { MatchResult result (λ h. IsIcmp h bytes.now (drop 8 bytes.now)) (λ bad. BreaksIcmp bad bytes.now) }
        ensures exact { (h : Icmp) (rest : List ℕ) → FitsIcmp h → IsIcmp h bytes.now rest → result ≡ Ok h }
        ensures value { result_ok result ≡ icmp_of bytes.now }
    {
        if bytes.len() < Icmp::SIZE {
            return Err(Bad::Short {
                have: bytes.len() as u32,
            });
        }
        Ok(Icmp {
            kind: read_u8(bytes, 0),
            code: read_u8(bytes, 1),
            checksum: read_u16(bytes, 2),
            rest: read_u32(bytes, 4),
        })
    }

    #[tactic(auto, unfolding(crate::specs::Icmp::icmp_bytes))]
    pub fn write(&self, out: &mut [u8])
        requires { length out.old ≡ 8 }
        ensures { out.new ≡ icmp_bytes self.now }
    {
        write_u8(out, 0, self.kind);
        write_u8(out, 1, self.code);
        write_u16(out, 2, self.checksum);
        write_u32(out, 4, self.rest);
    }
}
