//! The first ticks of a node's applications.

ghost use Rattle.std.specs.Prelude.{◌≡◌, ◌≤◌, length, OnOk};
ghost use Rattle.layer_words.specs.Acts.{Appends};
ghost use Rattle.node_step.specs.Loads.{plain_event};
ghost use Rattle.sim_world.specs.Ticks.{is_active, tick_count, ticks_of};

use crate::apps::Installed;
use node_step::{Event, Load};
use pkt_face::Pkt;
use sim_base::{Key, NoMemory, NodeId, Time};
use traffic_apps::AppKind;

/// Schedules the first tick of each active application of a node, in their order.
pub fn schedule_ticks<P: Pkt>(
    node: NodeId,
    apps: &[Installed],
    first: &mut Vec<Event<P>>,
) -> Result<(), NoMemory>
    requires { length apps.now ≤ 4000 }
    ensures { OnOk result (Appends (plain_event P.plain) first.old.items first.new.items (ticks_of node apps.now)) }
{
    let mut count = 0;
    for (place, app) in apps.iter().enumerate() {
        if is_active(app.kind) {
            let key = Key {
                time: app.start,
                node,
                sent: Time(0),
                by: node,
                count,
            };
            let load = Load::Tick { app: place as u32 };
            first.push(Event { key, load })?;
            count += 1;
        }
    }
    Ok(())
}

/// How many first ticks a node's applications have.
pub fn tick_count(apps: &[Installed]) -> u64
    ensures { result ≡ tick_count apps.now }
{
    apps.iter().filter(|app| is_active(app.kind)).count() as u64
}

/// Whether an application sends by itself.
fn is_active(kind: AppKind) -> bool
    ensures { result ≡ is_active kind }
{
    match kind {
        AppKind::UdpSend { .. }
        | AppKind::UdpEchoClient { .. }
        | AppKind::OnOff { .. }
        | AppKind::TcpBulk { .. }
        | AppKind::Ping { .. } => true,
        AppKind::UdpSink | AppKind::UdpEchoServer | AppKind::TcpSink => false,
    }
}
