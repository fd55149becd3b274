//! Handing over: what groups have scheduled for one another goes to its group, each event once.

ghost use Rattle.std.specs.Prelude.{◌≡◌, ◌<◌, All, OnOk, Some, length, slice_get, slice_index, slice_set};
ghost use Rattle.partition_cut.specs.Network.{group_at};
ghost use Rattle.round_kernel.specs.Handing.{CanGet, HaveGot, got_one};
ghost use Rattle.round_kernel.specs.Left.{lps_of, plain_sends};
ghost use Rattle.lp_run.specs.Pending.{HasNoKey};
ghost use Rattle.node_step.specs.Loads.{plain_event};
ghost use Rattle.node_rules.specs.Worlds.{event_of};
ghost use Rattle.round_kernel.specs.Window.{Gone};

use crate::groups::Group;
use node_step::Event;
use pkt_face::Pkt;
use sim_base::NoMemory;

/// A group gets an event.
fn give<P: Pkt>(groups: &mut Vec<Group<P>>, group: u32, event: Event<P>) -> Result<(), NoMemory>
    requires there { group < length groups.old.items }
    requires new { (was : Gone) → slice_get groups.old.items group ≡ Some was → HasNoKey event.key was.0.pending }
    ensures { OnOk result ((was : Gone) → slice_get groups.old.items group ≡ Some was →
        groups.new.items ≡ slice_set groups.old.items group (got_one (event_of (plain_event P.plain event)) was)) }
{
    groups[group as usize].receive(event)?;
    Ok(())
}

/// An event goes to its node's group.
fn deliver<P: Pkt>(
    groups: &mut Vec<Group<P>>,
    group_of: &[u32],
    event: Event<P>,
) -> Result<(), NoMemory>
    requires known { event.key.node.0 < length group_of.now }
    requires within { All (λ group. group < length groups.old.items) group_of.now }
    requires new { (was : Gone) → slice_get groups.old.items (slice_index group_of.now event.key.node.0) ≡ Some was → HasNoKey event.key was.0.pending }
    ensures { OnOk result ((was : Gone) → slice_get groups.old.items (slice_index group_of.now event.key.node.0) ≡ Some was →
        groups.new.items ≡ slice_set groups.old.items (slice_index group_of.now event.key.node.0) (got_one (event_of (plain_event P.plain event)) was)) }
{
    let group = group_of[event.key.node.0 as usize];
    give(groups, group, event)?;
    Ok(())
}

/// Each event goes to its node's group.
pub fn hand_over<P: Pkt>(
    groups: &mut Vec<Group<P>>,
    group_of: &[u32],
    mut sends: Vec<Event<P>>,
) -> Result<(), NoMemory>
    requires known { All (λ e. e.key.node.0 < length group_of.now) (plain_sends P.plain sends.items) }
    requires within { All (λ group. group < length groups.old.items) group_of.now }
    requires can { CanGet (group_at group_of.now) (lps_of groups.old.items) (plain_sends P.plain sends.items) }
    ensures { OnOk result (HaveGot (group_at group_of.now) (plain_sends P.plain sends.items) (lps_of groups.old.items) (lps_of groups.new.items)) }
{
    sends.as_mut_slice().reverse();
    'sends: while let Some(event) = sends.pop() {
        deliver(groups, group_of, event)?;
    }
    Ok(())
}
