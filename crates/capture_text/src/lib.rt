//! A capture as text: a line for its head, and a line for each packet.
//!
//!     little nanoseconds linktype 9 snaplen 65535
//!     2.000000000 1054 1054
#![tactic(auto)]

ghost use Rattle.std.specs.Prelude.{◌≡◌, ◌+◌, ◌≤◌, ◌++◌, codes, drop, length, string_bytes, IfOk, OnOk};
ghost use Rattle.std.specs.List.{flat_map};
ghost use Rattle.ascii_trace.specs.Numbers.{last_digits};
ghost use Rattle.capture_text.specs.Listing.{fraction_text, head_line, listing, order_name, packet_line, sizes_text, unit_name};

use ascii_trace::numbers::{fraction, last_digit, put_decimal, put_labelled, put_text};
use pcap_form::{Capture, Captured};
use sim_base::NoMemory;
use std::alloc::Global;

/// A packet's line has at most so many bytes.
const LINE: usize = 73;

/// The text of a capture. The first line has the order of the file's bytes, the unit of its times, its
/// link type and its snap length. Each packet's has its time in seconds, with 9 or 6 digits behind the
/// point, how many of its bytes the file holds, and how many it had.
pub fn listing(alloc: Global, capture: &Capture) -> Result<Vec<u8>, NoMemory>
    ensures { IfOk result (λ text. text.items ≡ listing capture.now) }
{
    let head = head_line(alloc, capture)?;
    let mut text = Vec::from_slice(alloc, head.as_bytes())?;
    push_packets(capture.nano, capture.packets.as_slice(), &mut text)?;
    Ok(text)
}

#[tactic(auto, unfolding(crate::specs::Listing::head_line))]
fn head_line(alloc: Global, capture: &Capture) -> Result<String, NoMemory>
    ensures { IfOk result (λ line. string_bytes line ≡ head_line capture.now) }
{
    let order = order_name(capture.big);
    let unit = unit_name(capture.nano);
    let linktype = capture.linktype;
    let snaplen = capture.snaplen;
    Ok(format!(in alloc; "{order} {unit} linktype {linktype} snaplen {snaplen}\n")?)
}

fn order_name(big: bool) -> &'static str
    ensures { result.now ≡ order_name big }
{
    if big { "big" } else { "little" }
}

fn unit_name(nano: bool) -> &'static str
    ensures { result.now ≡ unit_name nano }
{
    if nano { "nanoseconds" } else { "microseconds" }
}

/// Appends the line of each packet.
#[tactic(auto, using(std::proofs::lemmas::List::flat_map_more))]
fn push_packets(nano: bool, packets: &[Captured], out: &mut Vec<u8>) -> Result<(), NoMemory>
    ensures { OnOk result (out.new.items ≡ out.old.items ++ flat_map (packet_line nano) packets.now) }
{
    for packet in packets {
        push_packet(nano, packet, out)?;
    }
    Ok(())
}

/// Appends a packet's line. It is put together from its last byte to its first.
fn push_packet(nano: bool, packet: &Captured, out: &mut Vec<u8>) -> Result<(), NoMemory>
    ensures { OnOk result (out.new.items ≡ out.old.items ++ packet_line nano packet.now) }
{
    let mut row = [0; LINE];
    let sizes = put_sizes(packet, &mut row, LINE);
    let point = put_fraction(nano, packet.fraction, &mut row, sizes);
    let start = put_decimal(u64::from(packet.seconds), &mut row, point);
    out.extend_from_slice(&row[start..])?;
    Ok(())
}

/// Puts the two lengths of a packet, and the line's end: at most 43 bytes.
fn put_sizes(packet: &Captured, row: &mut [u8], end: usize) -> usize
    requires { (43 ≤ end) × (end ≤ length row.old) }
    ensures room { (result ≤ end) × (end ≤ result + 43) }
    ensures written { drop result row.new ≡ sizes_text packet.now ++ drop end row.old }
{
    let line = put_text(b"\n", row, end);
    let original = put_labelled(b" ", u64::from(packet.original), row, line);
    put_labelled(b" ", u64::from(packet.captured), row, original)
}

/// Puts the point, and the digits of a fraction: at most 10 bytes.
fn put_fraction(nano: bool, number: u32, row: &mut [u8], end: usize) -> usize
    requires { (10 ≤ end) × (end ≤ length row.old) }
    ensures room { (result ≤ end) × (end ≤ result + 10) }
    ensures written { drop result row.new ≡ fraction_text nano number ++ drop end row.old }
{
    if nano {
        put_text(&fraction(u64::from(number)), row, end)
    } else {
        put_text(&six_digits(u64::from(number)), row, end)
    }
}

/// The point, and the six digits of the microseconds behind it.
fn six_digits(microseconds: u64) -> [u8; 7]
    ensures { result ≡ codes "." ++ last_digits 6 microseconds }
{
    let tens = microseconds / 10;
    let hundreds = tens / 10;
    let milliseconds = hundreds / 10;
    let ten_milliseconds = milliseconds / 10;
    let hundred_milliseconds = ten_milliseconds / 10;
    [
        b'.',
        last_digit(hundred_milliseconds),
        last_digit(ten_milliseconds),
        last_digit(milliseconds),
        last_digit(hundreds),
        last_digit(tens),
        last_digit(microseconds),
    ]
}
