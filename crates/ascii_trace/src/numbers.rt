//! Numbers and times as digits. A text is put into a row from its last byte to its first: each call puts its part so that
//! it ends at a place of the row, and answers where it begins.

ghost use Rattle.std.specs.Prelude.{◌≡◌, ◌+◌, ◌≤◌, ◌<◌, ◌%◌, ◌++◌, codes, drop, length};
ghost use Rattle.std.specs.Fmt.{decimal};
ghost use Rattle.ascii_trace.specs.Numbers.{last_digits, seconds};

use itoa::write_digits;
use sim_base::Time;

const NANOSECONDS_PER_SECOND: u64 = 1_000_000_000;

/// Puts a text. Where it is a literal, no call of the C library is left of it.
#[inline(always)]
pub fn put_text(text: &[u8], row: &mut [u8], end: usize) -> usize
    requires { (length text.now ≤ end) × (end ≤ length row.old) }
    ensures start { result + length text.now ≡ end }
    ensures written { drop result row.new ≡ text.now ++ drop end row.old }
{
    let start = end - text.len();
    row[start..end].copy_from_slice(text);
    start
}

/// Puts a number, which has at most 20 digits.
#[inline(always)]
pub fn put_decimal(number: u64, row: &mut [u8], end: usize) -> usize
    requires { (20 ≤ end) × (end ≤ length row.old) }
    ensures room { (result ≤ end) × (end ≤ result + 20) }
    ensures written { drop result row.new ≡ decimal number ++ drop end row.old }
{
    write_digits(number, row, end)
}

/// Puts a number behind a text.
#[inline(always)]
pub fn put_labelled(label: &[u8], number: u64, row: &mut [u8], end: usize) -> usize
    requires { (length label.now + 20 ≤ end) × (end ≤ length row.old) }
    ensures room { (result ≤ end) × (end ≤ result + (length label.now + 20)) }
    ensures written { drop result row.new ≡ (label.now ++ decimal number) ++ drop end row.old }
{
    let start = put_decimal(number, row, end);
    put_text(label, row, start)
}

/// Puts a time in seconds, with nine digits behind the point: at most 30 bytes.
#[inline]
pub fn put_seconds(time: Time, row: &mut [u8], end: usize) -> usize
    requires { (30 ≤ end) × (end ≤ length row.old) }
    ensures room { (result ≤ end) × (end ≤ result + 30) }
    ensures written { drop result row.new ≡ seconds time.0 ++ drop end row.old }
{
    let point = put_text(&fraction(time.0 % NANOSECONDS_PER_SECOND), row, end);
    put_decimal(time.0 / NANOSECONDS_PER_SECOND, row, point)
}

/// A byte for the last digit of a number.
pub fn last_digit(number: u64) -> u8
    ensures { result ≡ 48 + number % 10 }
{
    b'0' + (number % 10) as u8
}

/// The point, and the nine digits of the nanoseconds behind it.
pub fn fraction(nanoseconds: u64) -> [u8; 10]
    ensures { result ≡ codes "." ++ last_digits 9 nanoseconds }
{
    let tens = nanoseconds / 10;
    let hundreds = tens / 10;
    let microseconds = hundreds / 10;
    let ten_microseconds = microseconds / 10;
    let hundred_microseconds = ten_microseconds / 10;
    let milliseconds = hundred_microseconds / 10;
    let ten_milliseconds = milliseconds / 10;
    let hundred_milliseconds = ten_milliseconds / 10;
    [
        b'.',
        last_digit(hundred_milliseconds),
        last_digit(ten_milliseconds),
        last_digit(milliseconds),
        last_digit(hundred_microseconds),
        last_digit(ten_microseconds),
        last_digit(microseconds),
        last_digit(hundreds),
        last_digit(tens),
        last_digit(nanoseconds),
    ]
}
