//! The header of IPv4, without options.

ghost use Rattle.std.specs.Prelude.{◌≡◌, ℕ, ◌≤◌, ◌<◌, ◌^◌, ◌++◌, List, length, drop, MatchResult, Ok};
ghost use Rattle.std.specs.Result.{result_ok};

use crate::bad::Bad;
use crate::fields::{read_u8, read_u16, read_u32, write_u8, write_u16, write_u32};
use crate::sum::Sum;

#[derive(Clone, Copy, Debug, PartialEq, Eq)]
pub struct Ipv4 {
    pub tos: u8,
    pub total: u16,
    pub id: u16,
    pub flags: u8,
    pub offset: u16,
    pub ttl: u8,
    pub proto: u8,
    pub src: u32,
    pub dst: u32,
}

impl Ipv4 {
    ghost use Rattle.header_forms.specs.Ipv4.{ipv4_bytes, ipv4_of, ipv4_with, IsIpv4, BreaksIpv4, FitsIpv4, HasIpv4Fields};

    pub const SIZE: usize = 20;

    /// The version, 4, and the size of the header in words of four bytes, 5.
    const FIRST: u8 = 0x45;

    /// Reads the header that the bytes begin with.
    #[tactic(auto, unfolding(crate::specs::Ipv4::ipv4_bytes))]
    pub fn read(bytes: &[u8]) -> Result<Ipv4, Bad>
        ensures reads { MatchResult result (λ h. IsIpv4 h bytes.now (drop 20 bytes.now)) (λ bad. BreaksIpv4 bad bytes.now) }
        ensures exact { (h : Ipv4) (rest : List ℕ) → FitsIpv4 h → IsIpv4 h bytes.now rest → result ≡ Ok h }
        ensures value { result_ok result ≡ ipv4_of bytes.now }
    {
        if bytes.len() < Ipv4::SIZE {
            return Err(Bad::Short {
                have: bytes.len() as u32,
            });
        }
        let byte = read_u8(bytes, 0);
        if byte != Ipv4::FIRST {
            return Err(Bad::Version { byte });
        }
        let total = read_u16(bytes, 2);
        if total < 20 {
            return Err(Bad::Length {
                field: u32::from(total),
            });
        }
        let field = read_u16(bytes, 10);
        let right = header_checksum(bytes);
        if field != right {
            return Err(Bad::Checksum { field, right });
        }
        Ok(Ipv4::read_fields(bytes))
    }

    /// The fields of bytes that may be no header.
    fn read_fields(bytes: &[u8]) -> Ipv4
        requires { 20 ≤ length bytes.now }
        ensures { HasIpv4Fields result bytes.now }
    {
        let flags_and_offset = read_u16(bytes, 6);
        Ipv4 {
            tos: read_u8(bytes, 1),
            total: read_u16(bytes, 2),
            id: read_u16(bytes, 4),
            flags: (flags_and_offset / 0x2000) as u8,
            offset: flags_and_offset % 0x2000,
            ttl: read_u8(bytes, 8),
            proto: read_u8(bytes, 9),
            src: read_u32(bytes, 12),
            dst: read_u32(bytes, 16),
        }
    }

    /// Writes the header with its checksum, the low 3 bits of the flags and the low 13 bits of the offset.
    pub fn write(&self, out: &mut [u8])
        requires { length out.old ≡ 20 }
        ensures { out.new ≡ ipv4_bytes self.now }
    {
        self.write_with(0, out);
        let right = checksum_of(out);
        write_u16(out, 10, right);
    }

    fn write_with(&self, checksum: u16, out: &mut [u8])
        requires { length out.old ≡ 20 }
        ensures { out.new ≡ ipv4_with checksum self.now }
    {
        write_u8(out, 0, Ipv4::FIRST);
        write_u8(out, 1, self.tos);
        write_u16(out, 2, self.total);
        write_u16(out, 4, self.id);
        write_u16(
            out,
            6,
            u16::from(self.flags % 8) * 0x2000 + self.offset % 0x2000,
        );
        write_u8(out, 8, self.ttl);
        write_u8(out, 9, self.proto);
        write_u16(out, 10, checksum);
        write_u32(out, 12, self.src);
        write_u32(out, 16, self.dst);
    }
}

ghost use Rattle.header_forms.specs.Checksum.{checksum};
ghost use Rattle.header_forms.specs.Ipv4Fields.{without_checksum};

fn checksum_of(bytes: &[u8]) -> u16
    ensures { result ≡ checksum bytes.now }
{
    let mut sum = Sum::start();
    sum.add(bytes);
    sum.finish()
}

/// The checksum that a header's own field should have.
fn header_checksum(bytes: &[u8]) -> u16
    requires { 20 ≤ length bytes.now }
    ensures { result ≡ checksum (without_checksum bytes.now) }
{
    let mut sum = Sum::start();
    sum.add(&bytes[..10]);
    sum.add_zeros(2);
    sum.add(&bytes[12..20]);
    sum.finish()
}
