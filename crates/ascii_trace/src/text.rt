//! The text of a line.

ghost use Rattle.std.specs.Prelude.{◌≡◌, ◌+◌, ◌≤◌, ◌∷◌, [], ◌++◌, OnOk, OnErr, codes, drop, length};
ghost use Rattle.pkt_face.specs.Seen.{plain_line};
ghost use Rattle.ascii_trace.specs.Numbers.{IsLonger};
ghost use Rattle.ascii_trace.specs.Text.{cuts, entry_text, item_text, items_text, kind_name, line_text, packet_text, place_text, told};

use crate::entry::Entry;
use crate::numbers::{put_decimal, put_labelled, put_seconds, put_text};
use pkt_face::{Line, Pkt, Sign};
use sim_base::{Item, Kind, NoMemory};

/// The bytes before the items of a line are at most so many.
const HEAD: usize = 140;

/// The bytes of an item are at most so many.
const ITEM: usize = 72;

/// Appends a line of the trace. A line `Save` stands in a capture, and appends nothing. After want of memory `out` is as before.
pub fn write_line<P: Pkt>(line: &Line<P>, out: &mut Vec<u8>) -> Result<(), NoMemory>
    ensures ok { OnOk result (out.new.items ≡ out.old.items ++ line_text (plain_line P.plain line.now)) }
    ensures err { OnErr result (out.new.items ≡ out.old.items) }
{
    let entry = Entry {
        sign: line.sign,
        time: line.key.time,
        node: line.node,
        iface: line.iface,
        uid: line.packet.uid(),
        length: line.packet.len(),
    };
    write_entry(&entry, line.packet.items(), out)
}

/// Appends an entry, with the items of its packet. After want of memory `out` is as before.
pub fn write_entry(entry: &Entry, items: &[Item], out: &mut Vec<u8>) -> Result<(), NoMemory>
    ensures ok { OnOk result (out.new.items ≡ out.old.items ++ entry_text entry.now items.now) }
    ensures err { OnErr result (out.new.items ≡ out.old.items) }
{
    let before = out.len();
    match write_signed(entry, items, out) {
        Ok(()) => Ok(()),
        Err(refused) => {
            out.truncate(before);
            Err(refused)
        }
    }
}

fn write_signed(entry: &Entry, items: &[Item], out: &mut Vec<u8>) -> Result<(), NoMemory>
    ensures ok { OnOk result (out.new.items ≡ out.old.items ++ entry_text entry.now items.now) }
    ensures err { OnErr result (IsLonger out.old.items out.new.items) }
{
    match entry.sign {
        Sign::Enqueue => write_told(b'+', entry, items, out),
        Sign::Dequeue => write_told(b'-', entry, items, out),
        Sign::Drop => write_told(b'd', entry, items, out),
        Sign::Receive => write_told(b'r', entry, items, out),
        Sign::Save => Ok(()),
    }
}

/// Appends an entry with this sign.
fn write_told(sign: u8, entry: &Entry, items: &[Item], out: &mut Vec<u8>) -> Result<(), NoMemory>
    ensures ok { OnOk result (out.new.items ≡ out.old.items ++ told (sign ∷ []) entry.now items.now) }
    ensures err { OnErr result (IsLonger out.old.items out.new.items) }
{
    write_head(sign, entry, out)?;
    write_items(items, out)?;
    out.push(b'\n')?;
    Ok(())
}

/// Appends the sign, when and where, which packet it is, and its length. After want of memory `out` is as before.
fn write_head(sign: u8, entry: &Entry, out: &mut Vec<u8>) -> Result<(), NoMemory>
    ensures ok { OnOk result (out.new.items ≡ out.old.items ++ (sign ∷ place_text entry.now ++ packet_text entry.now)) }
    ensures err { OnErr result (out.new.items ≡ out.old.items) }
{
    let mut row = [0; HEAD];
    let packet = put_packet(entry, &mut row, HEAD);
    let place = put_place(entry, &mut row, packet);
    let start = put_text(&[sign], &mut row, place);
    out.extend_from_slice(&row[start..])?;
    Ok(())
}

/// Puts when and where: at most 75 bytes.
#[inline]
fn put_place(entry: &Entry, row: &mut [u8], end: usize) -> usize
    requires { (75 ≤ end) × (end ≤ length row.old) }
    ensures room { (result ≤ end) × (end ≤ result + 75) }
    ensures written { drop result row.new ≡ place_text entry.now ++ drop end row.old }
{
    let iface = put_labelled(b" i", u64::from(entry.iface), row, end);
    let node = put_labelled(b" n", u64::from(entry.node.0), row, iface);
    let time = put_seconds(entry.time, row, node);
    put_text(b" ", row, time)
}

/// Puts which packet it is, and its length: at most 64 bytes.
#[inline]
fn put_packet(entry: &Entry, row: &mut [u8], end: usize) -> usize
    requires { (64 ≤ end) × (end ≤ length row.old) }
    ensures room { (result ≤ end) × (end ≤ result + 64) }
    ensures written { drop result row.new ≡ packet_text entry.now ++ drop end row.old }
{
    let length = put_labelled(b" ", u64::from(entry.length), row, end);
    let count = put_labelled(b".", entry.uid.count, row, length);
    put_labelled(b" p", u64::from(entry.uid.node.0), row, count)
}

/// Appends the parts of a packet, the outermost first.
#[tactic(auto, using(std::proofs::lemmas::List::flat_map_more, crate::proofs::Longer::longer_behind))]
fn write_items(items: &[Item], out: &mut Vec<u8>) -> Result<(), NoMemory>
    ensures ok { OnOk result (out.new.items ≡ out.old.items ++ items_text items.now) }
    ensures err { OnErr result (IsLonger out.old.items out.new.items) }
{
    for item in items {
        write_item(item, out)?;
    }
    Ok(())
}

/// Appends a part of a packet. After want of memory `out` is as before.
fn write_item(item: &Item, out: &mut Vec<u8>) -> Result<(), NoMemory>
    ensures ok { OnOk result (out.new.items ≡ out.old.items ++ item_text item.now) }
    ensures err { OnErr result (out.new.items ≡ out.old.items) }
{
    let mut row = [0; ITEM];
    let size = put_cuts(item, &mut row, ITEM);
    let label = put_decimal(u64::from(item.size), &mut row, size);
    let start = put_name(item.kind, &mut row, label);
    out.extend_from_slice(&row[start..])?;
    Ok(())
}

/// Puts how much was cut from an item, where something was: at most 43 bytes.
#[inline]
fn put_cuts(item: &Item, row: &mut [u8], end: usize) -> usize
    requires { (43 ≤ end) × (end ≤ length row.old) }
    ensures room { (result ≤ end) × (end ≤ result + 43) }
    ensures written { drop result row.new ≡ cuts item.now ++ drop end row.old }
{
    if item.cut_front == 0 && item.cut_back == 0 {
        return end;
    }
    let bracket = put_text(b"]", row, end);
    let back = put_labelled(b",", u64::from(item.cut_back), row, bracket);
    put_labelled(b"[", u64::from(item.cut_front), row, back)
}

/// Puts the name of a part of a packet, with what stands around it: at most 9 bytes.
#[inline(always)]
fn put_name(kind: Kind, row: &mut [u8], end: usize) -> usize
    requires { (9 ≤ end) × (end ≤ length row.old) }
    ensures room { (result ≤ end) × (end ≤ result + 9) }
    ensures written { drop result row.new ≡ (codes " " ++ kind_name kind ++ codes ":") ++ drop end row.old }
{
    match kind {
        Kind::Ppp => put_text(b" ppp:", row, end),
        Kind::Ethernet => put_text(b" eth:", row, end),
        Kind::Trailer => put_text(b" trailer:", row, end),
        Kind::Arp => put_text(b" arp:", row, end),
        Kind::Ipv4 => put_text(b" ipv4:", row, end),
        Kind::Icmp => put_text(b" icmp:", row, end),
        Kind::Udp => put_text(b" udp:", row, end),
        Kind::Tcp => put_text(b" tcp:", row, end),
        Kind::Payload => put_text(b" payload:", row, end),
        Kind::Pad => put_text(b" pad:", row, end),
    }
}
