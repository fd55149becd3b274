//! What a run tells, as text.

ghost use Rattle.std.specs.Prelude.{◌≡◌, [], OnOk};

use lp_run::Lp;
use pkt_face::{Line, Pkt};
use sim_base::{Key, NoMemory, NodeId, Time};
use std::alloc::Global;

/// Seconds, with nine decimals.
fn time_text(alloc: Global, time: Time) -> Result<String, NoMemory> {
    let seconds = time.0 / 1_000_000_000;
    let nanoseconds = time.0 % 1_000_000_000;
    Ok(format!(in alloc; "{seconds}.{nanoseconds:09}")?)
}

/// A frame that is saved: when, where, and how long it is.
fn line_text<P: Pkt>(alloc: Global, line: &Line<P>) -> Result<String, NoMemory> {
    let time = time_text(alloc, line.key.time)?;
    let (node, iface, len) = (line.node.0, line.iface, line.packet.len());
    Ok(format!(in alloc; "  {time} node {node} interface {iface} saves {len} bytes\n")?)
}

/// Tells where a window ends and how many events have fired until then, and takes the lines of the frames that it saved
/// and the events that it has scheduled for other groups.
pub fn add_window<P: Pkt>(
    alloc: Global,
    group: &mut Lp<P>,
    end: Time,
    text: &mut String,
) -> Result<(), NoMemory>
    ensures { OnOk result (group.new ≡ record group.old { lines = []; sends = [] }) }
{
    let lines = group.take_lines();
    let sends = group.take_sends().len();
    let fired = group.fired();
    let time = time_text(alloc, end)?;
    let window = format!(in alloc; "below {time}: {fired} events, {sends} for others\n")?;
    text.push_str(window.as_str())?;
    for line in &lines {
        let saved = line_text(alloc, line)?;
        text.push_str(saved.as_str())?;
    }
    Ok(())
}

/// Tells at which event the group has stopped.
pub fn add_limit(alloc: Global, key: Key, node: NodeId, text: &mut String) -> Result<(), NoMemory> {
    let time = time_text(alloc, key.time)?;
    let number = node.0;
    let limit = format!(in alloc; "limit node {number} time {time}\n")?;
    text.push_str(limit.as_str())?;
    Ok(())
}

/// Tells how many packets were dropped, and what applications have sent and got.
pub fn add_counts<P: Pkt>(alloc: Global, group: &Lp<P>, text: &mut String) -> Result<(), NoMemory> {
    let drops = group.part().drops();
    let dropped = format!(in alloc; "drops {drops}\n")?;
    text.push_str(dropped.as_str())?;
    for count in &group.part().counts()? {
        let (app, sent, got) = (count.app, count.sent, count.got);
        let (sent_bytes, got_bytes) = (count.sent_bytes, count.got_bytes);
        let counted = format!(in alloc;
            "app {app} sent {sent} {sent_bytes} received {got} {got_bytes}\n"
        )?;
        text.push_str(counted.as_str())?;
    }
    Ok(())
}
