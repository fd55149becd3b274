//! The header of TCP.

ghost use Rattle.std.specs.Prelude.{◌≡◌, ℕ, ◌≤◌, ◌<◌, ◌++◌, List, Option, length, drop, MatchResult, Ok};
ghost use Rattle.std.specs.Result.{result_ok};

use crate::bad::Bad;
use crate::fields::{read_u8, read_u16, read_u32, write_u8, write_u16, write_u32};
use crate::options::read_options;

/// The fields that the simulator uses. `size` is the length of the header with its options.
#[derive(Clone, Copy, Debug, PartialEq, Eq)]
pub struct Tcp {
    pub sport: u16,
    pub dport: u16,
    pub seq: u32,
    pub ack: u32,
    pub flags: u8,
    pub window: u16,
    pub checksum: u16,
    pub mss: Option<u16>,
    pub size: u32,
}

impl Tcp {
    ghost use Rattle.header_forms.specs.Tcp.{tcp_bytes, tcp_of, tcp_fields, written_size, size_byte, IsTcp, ReadsTcp, BreaksTcp, FitsTcp};

    /// The length of the fixed part.
    pub const SIZE: usize = 20;

    /// Reads the header that the bytes begin with. Of the options it keeps the first maximum segment size.
    pub fn read(bytes: &[u8]) -> Result<Tcp, Bad>
        ensures reads { MatchResult result (λ h. ReadsTcp h bytes.now (drop h.size bytes.now)) (λ bad. BreaksTcp bad bytes.now) }
        ensures exact { (h : Tcp) (rest : List ℕ) → ReadsTcp h bytes.now rest → result ≡ Ok h }
        ensures again { (h : Tcp) (rest : List ℕ) → FitsTcp h → IsTcp h bytes.now rest → result ≡ Ok h }
        ensures value { result_ok result ≡ tcp_of bytes.now }
    {
        Tcp::read_checked(bytes)
    }

    fn read_checked(bytes: &[u8]) -> Result<Tcp, Bad>
        ensures { MatchResult result (λ h. ReadsTcp h bytes.now (drop h.size bytes.now)) (λ bad. BreaksTcp bad bytes.now) }
    {
        if bytes.len() < Tcp::SIZE {
            return Err(Bad::Short {
                have: bytes.len() as u32,
            });
        }
        let words = read_u8(bytes, 12) / 16;
        if words < 5 {
            return Err(Bad::Length {
                field: u32::from(words),
            });
        }
        let size = 4 * u32::from(words);
        if bytes.len() < size as usize {
            return Err(Bad::Short {
                have: bytes.len() as u32,
            });
        }
        match read_options(&bytes[Tcp::SIZE..size as usize], None) {
            Ok(mss) => Ok(Tcp::read_fields(bytes, size, mss)),
            Err(size) => Err(Bad::Length {
                field: u32::from(size),
            }),
        }
    }

    /// The fields of bytes with a header of this size, whose options give this maximum segment size.
    fn read_fields(bytes: &[u8], size: u32, mss: Option<u16>) -> Tcp
        requires { 20 ≤ length bytes.now }
        ensures { result ≡ tcp_fields size mss bytes.now }
    {
        Tcp {
            sport: read_u16(bytes, 0),
            dport: read_u16(bytes, 2),
            seq: read_u32(bytes, 4),
            ack: read_u32(bytes, 8),
            flags: read_u8(bytes, 13),
            window: read_u16(bytes, 14),
            checksum: read_u16(bytes, 16),
            mss,
            size,
        }
    }

    /// The length of the header as it is written: 24 with a maximum segment size, and 20 without.
    pub fn written_size(&self) -> usize
        ensures { result ≡ written_size self.now.mss }
    {
        match self.mss {
            Some(_) => 24,
            None => 20,
        }
    }

    /// The size in words of four bytes, in the high half of a byte.
    fn size_byte(&self) -> u8
        ensures { result ≡ size_byte self.now.mss }
    {
        match self.mss {
            Some(_) => 6 * 16,
            None => 5 * 16,
        }
    }

    /// Writes the header, whatever `size` is: with the option of the maximum segment size, or with none.
    pub fn write(&self, out: &mut [u8])
        requires { length out.old ≡ written_size self.now.mss }
        ensures { out.new ≡ tcp_bytes self.now }
    {
        write_u16(out, 0, self.sport);
        write_u16(out, 2, self.dport);
        write_u32(out, 4, self.seq);
        write_u32(out, 8, self.ack);
        write_u8(out, 12, self.size_byte());
        write_u8(out, 13, self.flags);
        write_u16(out, 14, self.window);
        write_u16(out, 16, self.checksum);
        write_u16(out, 18, 0);
        if let Some(mss) = self.mss {
            write_u8(out, 20, 2);
            write_u8(out, 21, 4);
            write_u16(out, 22, mss);
        }
    }
}
