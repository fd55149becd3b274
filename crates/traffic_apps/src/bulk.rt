//! A bulk sender at work: it writes its stream as far as there is room, and closes behind the last byte.

ghost use Rattle.std.specs.Prelude.{◌≡◌, ◌==◌, ◌-◌, ◌++◌, min, OnOk};
ghost use Rattle.layer_words.specs.Acts.{Appends};
ghost use Rattle.traffic_apps.specs.Seen.{plain_act};
ghost use Rattle.traffic_apps.specs.Step.{close_if, write_of};

use crate::app::{Act, App};
use crate::kind::AppKind;
use crate::stream::stream;
use pkt_face::Pkt;
use sim_base::{NoMemory, Sequence};

/// The room of a connection that has just opened.
const FIRST_ROOM: u32 = 131_072;

impl App {
    ghost use Rattle.traffic_apps.specs.Step.{connected, finds_room, writes};

    /// Writes to a connection that has just opened.
    pub(crate) fn begin_writing<P: Pkt>(&mut self, out: &mut Vec<Act<P>>) -> Result<(), NoMemory>
        ensures state { OnOk result (self.new ≡ (connected self.old.kind self.old).state) }
        ensures acts { OnOk result (Appends (plain_act P.plain) out.old.items out.new.items (connected self.old.kind self.old).acts) }
    {
        match self.kind {
            AppKind::TcpBulk { bytes, .. } => {
                let left = bytes.saturating_sub(self.counts.sent_bytes);
                self.write(left, FIRST_ROOM, out)
            }
            _ => Ok(()),
        }
    }

    /// Writes on, where there is room again and something is left.
    pub(crate) fn go_on_writing<P: Pkt>(
        &mut self,
        free: u32,
        out: &mut Vec<Act<P>>,
    ) -> Result<(), NoMemory>
        ensures state { OnOk result (self.new ≡ (finds_room free self.old.kind self.old).state) }
        ensures acts { OnOk result (Appends (plain_act P.plain) out.old.items out.new.items (finds_room free self.old.kind self.old).acts) }
    {
        match self.kind {
            AppKind::TcpBulk { bytes, .. } => {
                let left = bytes.saturating_sub(self.counts.sent_bytes);
                if left == 0 {
                    return Ok(());
                }
                self.write(left, free, out)
            }
            _ => Ok(()),
        }
    }

    /// Writes as many of the bytes that are left as there is room for, and closes where these are all.
    fn write<P: Pkt>(&mut self, left: u64, free: u32, out: &mut Vec<Act<P>>) -> Result<(), NoMemory>
        ensures state { OnOk result (self.new ≡ (writes left free self.old).state) }
        ensures acts { OnOk result (Appends (plain_act P.plain) out.old.items out.new.items (writes left free self.old).acts) }
    {
        let count = left.min(u64::from(free)) as u32;
        let from = self.counts.sent_bytes;
        if count > 0 {
            self.counts.count_sent(count);
        }
        put_write(count, from, out)?;
        put_close(u64::from(count) == left, out)
    }
}

/// Asks for a write, where it has bytes.
fn put_write<P: Pkt>(count: u32, from: u64, out: &mut Vec<Act<P>>) -> Result<(), NoMemory>
    ensures { OnOk result (Appends (plain_act P.plain) out.old.items out.new.items (write_of count from)) }
{
    if count == 0 {
        return Ok(());
    }
    let bytes = stream(*out.allocator(), from, count)?;
    out.push(Act::Write {
        bytes: Sequence::from_vec(bytes),
    })?;
    Ok(())
}

/// Asks for the close, where all is written.
fn put_close<P: Pkt>(all: bool, out: &mut Vec<Act<P>>) -> Result<(), NoMemory>
    ensures { OnOk result (Appends (plain_act P.plain) out.old.items out.new.items (close_if all)) }
{
    if all {
        out.push(Act::Close)?;
    }
    Ok(())
}
