//! Parts of a run of bytes by counts that may pass its end.

ghost use Rattle.std.specs.Prelude.{◌≡◌, take, drop};

/// At most `n` bytes from the front.
pub fn first_of(bytes: &[u8], n: u64) -> &[u8]
    ensures { result.now ≡ take n bytes.now }
{
    if n < bytes.len() as u64 {
        &bytes[..n as usize]
    } else {
        bytes
    }
}

/// What lies behind the first `n` bytes.
pub fn behind_first(bytes: &[u8], n: u64) -> &[u8]
    ensures { result.now ≡ drop n bytes.now }
{
    if n < bytes.len() as u64 {
        &bytes[n as usize..]
    } else {
        &[]
    }
}
