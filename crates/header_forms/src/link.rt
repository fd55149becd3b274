//! The headers of PPP and Ethernet.

ghost use Rattle.std.specs.Prelude.{◌≡◌, ℕ, ◌≤◌, ◌<◌, ◌++◌, List, length, drop, MatchResult, Ok};
ghost use Rattle.std.specs.Result.{result_ok};

use crate::bad::Bad;
use crate::fields::{read_mac, read_u16, write_mac, write_u16};

#[derive(Clone, Copy, Debug, PartialEq, Eq)]
pub struct Ppp {
    pub proto: u16,
}

#[derive(Clone, Copy, Debug, PartialEq, Eq)]
pub struct Ethernet {
    pub dst: [u8; 6],
    pub src: [u8; 6],
    pub proto: u16,
}

impl Ppp {
    ghost use Rattle.header_forms.specs.Link.{ppp_bytes, ppp_of, IsPpp, BreaksPpp, FitsPpp};

    pub const SIZE: usize = 2;

    /// Reads the header that the bytes begin with.
    #[tactic(auto, unfolding(crate::specs::Link::ppp_bytes))]
    pub fn read(bytes: &[u8]) -> Result<Ppp, Bad>
        ensures reads { MatchResult result (λ h. IsPpp h bytes.now (drop 2 bytes.now)) (λ bad. BreaksPpp bad bytes.now) }
        ensures exact { (h : Ppp) (rest : List ℕ) → FitsPpp h → IsPpp h bytes.now rest → result ≡ Ok h }
        ensures value { result_ok result ≡ ppp_of bytes.now }
    {
        if bytes.len() < Ppp::SIZE {
            return Err(Bad::Short {
                have: bytes.len() as u32,
            });
        }
        Ok(Ppp {
            proto: read_u16(bytes, 0),
        })
    }

    #[tactic(auto, unfolding(crate::specs::Link::ppp_bytes))]
    pub fn write(&self, out: &mut [u8])
        requires { length out.old ≡ 2 }
        ensures { out.new ≡ ppp_bytes self.now }
    {
        write_u16(out, 0, self.proto);
    }
}

impl Ethernet {
    ghost use Rattle.header_forms.specs.Link.{ethernet_bytes, ethernet_of, IsEthernet, BreaksEthernet, FitsEthernet};

    pub const SIZE: usize = 14;

    /// Reads the header that the bytes begin with.
    #[tactic(auto, unfolding(crate::specs::Link::ethernet_bytes))]
    pub fn read(bytes: &[u8]) -> Result<Ethernet, Bad>
        ensures reads { MatchResult result (λ h. IsEthernet h bytes.now (drop 14 bytes.now)) (λ bad. BreaksEthernet bad bytes.now) }
        ensures exact { (h : Ethernet) (rest : List ℕ) → FitsEthernet h → IsEthernet h bytes.now rest → result ≡ Ok h }
        ensures value { result_ok result ≡ ethernet_of bytes.now }
    {
        if bytes.len() < Ethernet::SIZE {
            return Err(Bad::Short {
                have: bytes.len() as u32,
            });
        }
        Ok(Ethernet {
            dst: read_mac(bytes, 0),
            src: read_mac(bytes, 6),
            proto: read_u16(bytes, 12),
        })
    }

    #[tactic(auto, unfolding(crate::specs::Link::ethernet_bytes))]
    pub fn write(&self, out: &mut [u8])
        requires { length out.old ≡ 14 }
        ensures { out.new ≡ ethernet_bytes self.now }
    {
        write_mac(out, 0, &self.dst);
        write_mac(out, 6, &self.src);
        write_u16(out, 12, self.proto);
    }
}
