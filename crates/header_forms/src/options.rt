//! The options of TCP, of which the simulator uses the maximum segment size alone.

ghost use Rattle.std.specs.Prelude.{◌≡◌, ◌≤◌, length};
ghost use Rattle.header_forms.specs.TcpOptions.{has_right_size, option_size, options_from, size_with};

use crate::fields::read_u16;

/// Ends the options.
const END: u8 = 0;

/// Stands alone, to fill a place.
const NO_OPERATION: u8 = 1;

/// The maximum segment size, in two bytes.
const MAXIMUM_SEGMENT_SIZE: u8 = 2;

/// The maximum segment size that the options give, where `mss` was found before them, or the length of the
/// first option that is wrong.
pub(crate) fn read_options(options: &[u8], mss: Option<u16>) -> Result<Option<u16>, u8>
    ensures { result ≡ options_from 0 mss options.now }
{
    if options.is_empty() {
        return Ok(mss);
    }
    let kind = options[0];
    if kind == END {
        return Ok(mss);
    }
    let later = &options[1..];
    if kind == NO_OPERATION {
        return read_options(later, mss);
    }
    let size = size_of(later);
    if !fits(kind, size, later) {
        return Err(size);
    }
    read_options(&later[usize::from(size) - 1..], mss_with(mss, kind, later))
}

/// The length that stands behind an option's kind.
fn size_of(later: &[u8]) -> u8
    ensures { result ≡ option_size later.now }
{
    match later.first() {
        Some(size) => *size,
        None => 0,
    }
}

/// Whether an option of this kind may have the length that stands behind it.
fn fits(kind: u8, size: u8, later: &[u8]) -> bool
    requires { size ≡ option_size later.now }
    ensures { result ≡ has_right_size kind later.now }
{
    size >= 2 && usize::from(size) - 1 <= later.len() && (kind != MAXIMUM_SEGMENT_SIZE || size == 4)
}

/// The maximum segment size with this option behind those before it.
fn mss_with(mss: Option<u16>, kind: u8, later: &[u8]) -> Option<u16>
    requires { kind ≡ 2 → 3 ≤ length later.now }
    ensures { result ≡ size_with mss kind later.now }
{
    if mss.is_some() || kind != MAXIMUM_SEGMENT_SIZE {
        return mss;
    }
    Some(read_u16(later, 1))
}
