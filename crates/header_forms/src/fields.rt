//! Fields of a header, by their place: numbers with the highest byte first.

ghost use Rattle.std.specs.Prelude.{◌≡◌, ◌+◌, ◌≤◌, ◌++◌, length, take, drop};
ghost use Rattle.byteorder.specs.Endian.{big_bytes};
ghost use Rattle.header_forms.specs.Fields.{field};

use byteorder::{BigEndian, ByteOrder};

pub(crate) fn read_u16(bytes: &[u8], at: usize) -> u16
    requires { at + 2 ≤ length bytes.now }
    ensures { result ≡ field at 2 bytes.now }
{
    BigEndian::read_u16(&bytes[at..])
}

pub(crate) fn read_u32(bytes: &[u8], at: usize) -> u32
    requires { at + 4 ≤ length bytes.now }
    ensures { result ≡ field at 4 bytes.now }
{
    BigEndian::read_u32(&bytes[at..])
}

pub(crate) fn read_u64(bytes: &[u8], at: usize) -> u64
    requires { at + 8 ≤ length bytes.now }
    ensures { result ≡ field at 8 bytes.now }
{
    BigEndian::read_u64(&bytes[at..])
}

pub(crate) fn read_u8(bytes: &[u8], at: usize) -> u8
    requires { at + 1 ≤ length bytes.now }
    ensures { result ≡ field at 1 bytes.now }
{
    bytes[at]
}

pub(crate) fn write_u8(out: &mut [u8], at: usize, number: u8)
    requires { at + 1 ≤ length out.old }
    ensures all { out.new ≡ (take at out.old ++ big_bytes 1 number) ++ drop (at + 1) out.old }
{
    out[at] = number;
}

pub(crate) fn write_u16(out: &mut [u8], at: usize, number: u16)
    requires { at + 2 ≤ length out.old }
    ensures all { out.new ≡ (take at out.old ++ big_bytes 2 number) ++ drop (at + 2) out.old }
{
    BigEndian::write_u16(&mut out[at..], number);
}

pub(crate) fn write_u32(out: &mut [u8], at: usize, number: u32)
    requires { at + 4 ≤ length out.old }
    ensures all { out.new ≡ (take at out.old ++ big_bytes 4 number) ++ drop (at + 4) out.old }
{
    BigEndian::write_u32(&mut out[at..], number);
}

/// Six bytes at a place.
pub(crate) fn read_mac(bytes: &[u8], at: usize) -> [u8; 6]
    requires { at + 6 ≤ length bytes.now }
    ensures { result ≡ take 6 (drop at bytes.now) }
{
    let mut mac = [0; 6];
    mac.copy_from_slice(&bytes[at..at + 6]);
    mac
}

pub(crate) fn write_mac(out: &mut [u8], at: usize, mac: &[u8; 6])
    requires { at + 6 ≤ length out.old }
    ensures size { length mac.now ≡ 6 }
    ensures all { out.new ≡ (take at out.old ++ mac.now) ++ drop (at + 6) out.old }
{
    out[at..at + 6].copy_from_slice(mac);
}
