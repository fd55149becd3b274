//! What a firing schedules: it goes to the group's own events, or is kept for other groups.

ghost use Rattle.std.specs.Prelude.{◌≡◌, ◌++◌, [], OnOk, filter, map, not};
ghost use Rattle.node_step.specs.Loads.{plain_event, plain_load};
ghost use Rattle.node_rules.specs.Worlds.{event_of};
ghost use Rattle.round_core.specs.Order.{insert_each};
ghost use Rattle.round_core.specs.Parts.{is_for};
ghost use Rattle.lp_run.specs.Lp.{own_group};
ghost use Rattle.lp_run.specs.Pending.{AreNew, pending_event};

use event_queue::Queue;
use node_step::{Event, Load, Part};
use pkt_face::Pkt;
use sim_base::NoMemory;

/// Puts each event whose node is in the part among the pending ones, and each other behind those for other groups.
pub fn hand_out<P: Pkt>(
    part: &Part<P>,
    scheduled: &mut Vec<Event<P>>,
    pending: &mut Queue<Load<P>>,
    sends: &mut Vec<Event<P>>,
) -> Result<(), NoMemory>
    requires new { AreNew (map event_of (map (plain_event P.plain) scheduled.old.items)) (map (pending_event (plain_load P.plain)) pending.old) }
    ensures pending { OnOk result (map (pending_event (plain_load P.plain)) pending.new ≡ insert_each (λ e. e.key) (filter (is_for (own_group part.now) 0) (map event_of (map (plain_event P.plain) scheduled.old.items))) (map (pending_event (plain_load P.plain)) pending.old)) }
    ensures sends { OnOk result (map event_of (map (plain_event P.plain) sends.new.items) ≡ map event_of (map (plain_event P.plain) sends.old.items) ++ filter (λ e. not (is_for (own_group part.now) 0 e)) (map event_of (map (plain_event P.plain) scheduled.old.items))) }
{
    scheduled.as_mut_slice().reverse();
    while let Some(event) = scheduled.pop() {
        if part.has(event.key.node) {
            pending.push(event.key, event.load)?;
        } else {
            sends.push(event)?;
        }
    }
    Ok(())
}

/// Puts events among the pending ones.
pub fn schedule<P: Pkt>(
    events: &mut Vec<Event<P>>,
    pending: &mut Queue<Load<P>>,
) -> Result<(), NoMemory>
    requires new { AreNew (map event_of (map (plain_event P.plain) events.old.items)) (map (pending_event (plain_load P.plain)) pending.old) }
    ensures pending { OnOk result (map (pending_event (plain_load P.plain)) pending.new ≡ insert_each (λ e. e.key) (map event_of (map (plain_event P.plain) events.old.items)) (map (pending_event (plain_load P.plain)) pending.old)) }
    ensures emptied { OnOk result (events.new.items ≡ []) }
{
    events.as_mut_slice().reverse();
    while let Some(event) = events.pop() {
        pending.push(event.key, event.load)?;
    }
    Ok(())
}
