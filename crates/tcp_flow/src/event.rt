//! What happens to one connection.

ghost use Rattle.std.specs.Prelude.{◌≡◌, ◌≤◌, ◌<◌, ◌^◌, OnOk, length};
ghost use Rattle.layer_words.specs.Acts.{Appends};
ghost use Rattle.tcp_conn.specs.Clock.{latest};
ghost use Rattle.tcp_conn.specs.Fits.{Fits};
ghost use Rattle.tcp_flow.specs.Conn.{happened};
ghost use Rattle.tcp_flow.specs.Table.{is_closed};
ghost use Rattle.tcp_flow.specs.Seen.{plain_act};
ghost use Rattle.tcp_flow.specs.Small.{AddsFitting, CanHappen};

use crate::conn::Conn;
use crate::words::{Act, Event};
use pkt_face::Pkt;
use sim_base::{NoMemory, Numbers, Time};
use tcp_conn::Phase;

impl Conn {
    /// Takes an event, with the node's numbers, and puts the acts that follow behind `out`. After `NoMemory` all are given
    /// up, but the connection is still between the same two.
    pub fn step<P: Pkt>(
        &mut self,
        now: Time,
        event: &Event,
        maker: &mut P::Maker,
        numbers: &mut Numbers,
        out: &mut Vec<Act<P>>,
    ) -> Result<(), NoMemory>
        requires time { now.0 ≤ latest }
        requires fits { Fits self.old.connection }
        requires event { CanHappen event.now }
        ensures conn { OnOk result (self.new ≡ (happened now.0 event.now self.old numbers.old).conn) }
        ensures numbers { OnOk result (numbers.new ≡ (happened now.0 event.now self.old numbers.old).numbers) }
        ensures acts { OnOk result (Appends (plain_act P.plain) out.old.items out.new.items (happened now.0 event.now self.old numbers.old).acts) }
        ensures datagrams { OnOk result (AddsFitting (plain_act P.plain) out.old.items out.new.items) }
        ensures fits { OnOk result (Fits self.new.connection) }
        ensures pair { self.new.pair ≡ self.old.pair }
    {
        let alloc = *out.allocator();
        match event {
            Event::Segment { arrived } => { self.hears(alloc, now, arrived, maker, numbers, out) }
            Event::Timer => self.times_out(alloc, now, maker, numbers, out),
            Event::Write { bytes } => {
                self.write(alloc, now, bytes.as_slice(), maker, numbers, out)
            }
            Event::Close => self.close(alloc, now, maker, numbers, out),
        }
    }

    /// Whether the connection is over.
    pub(crate) fn is_closed(&self) -> bool
        ensures { result ≡ is_closed self.now.connection.phase }
    {
        match self.connection.phase {
            Phase::Closed => true,
            _ => false,
        }
    }
}
