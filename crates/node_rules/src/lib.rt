//! Nodes, links and LANs as a simulation of rounds: the rules by which nodes react, what stays true of them, and the laws
//! of rounds at these. The crate has definitions and laws alone, no code that runs.
#![tactic(auto)]

ghost use Rattle.std.specs.Prelude.{◌≡◌, ◌<◌, ◌≤◌, ◌^◌, ◌↔◌, ℕ, Bool, List, Option, None, Some, length, map, slice_get};
ghost use Rattle.sim_base.specs.declared.key.Key.{Key as PlainKey};
ghost use Rattle.sim_base.specs.Packet.{Packet};
ghost use Rattle.csma_dev.specs.declared.bus.Bus.{Bus};
ghost use Rattle.round_core.specs.Bound.{IsBounded};
ghost use Rattle.round_core.specs.Laws.{IsLawful, IsSound};
ghost use Rattle.round_core.specs.Lookahead.{IsPositive, LooksAhead};
ghost use Rattle.round_core.specs.Opening.{IsOpening};
ghost use Rattle.round_core.specs.World.{Limit, Rests, World, first, seen};
ghost use Rattle.node_step.specs.declared.loads.Event.{Event};
ghost use Rattle.node_step.specs.declared.loads.Load.{Load};
ghost use Rattle.node_step.specs.Firing.{Text, bus_at, free};
ghost use Rattle.node_step.specs.Node.{PlainNode};
ghost use Rattle.node_step.specs.Part.{CanFire, Fired, PlainPart, fire, place_of};
ghost use Rattle.node_rules.specs.Firings.{FiresSo, HoldsAll, IsNextFiring};
ghost use Rattle.node_rules.specs.Health.{IsCutBy, IsWellEvent, IsWellNode, health};
ghost use Rattle.node_rules.specs.Rules.{room, rules};
ghost use Rattle.node_rules.specs.Shape.{Shape};
ghost use Rattle.node_rules.specs.Worlds.{AreFirstEvents, AreWellNodes, event_of, node_at, opening_world, shape_of};

/// What a node schedules comes at least 1 ns later and is counted, and nodes and events stay well.
pub fn the_reaction_is_lawful()
    ensures { (limit : ℕ) (shape : Shape) → IsLawful (rules limit shape) (health shape) }
{}

/// Each event is for one of the nodes, and each firing takes what it schedules from what its node may still schedule; so
/// a run ends.
pub fn runs_are_bounded()
    ensures { (limit : ℕ) (shape : Shape) → IsBounded (rules limit shape) (health shape) shape.nodes (room limit) }
{}

/// Where the members of each LAN are in one group, and each link between two groups has a delay of at least the lookahead,
/// what a node schedules for another group is at least the lookahead later. Where no link has its ends in two groups, a node
/// schedules nothing for another group.
pub fn wires_look_ahead()
    ensures { (limit : ℕ) (shape : Shape) (group_of : ℕ → ℕ) (lookahead : Option ℕ) →
        IsPositive lookahead → IsCutBy shape group_of lookahead → LooksAhead (rules limit shape) (health shape) group_of lookahead }
{}

/// A part, whichever nodes it has, fires an event of a node that stands in it and is well as the rules say, and refuses it
/// exactly where they do; it reads and writes no bus but those on which the node sits.
pub fn fire_is_the_reaction()
    ensures refuses { (shape : Shape) (part : PlainPart) (e : Event Packet) (node : PlainNode) → length part.lans ≡ shape.lans →
        IsWellNode shape e.key.node.0 node → slice_get part.nodes (place_of e.key.node.0 part) ≡ Some node →
        (fire e part ≡ None) ↔ ((rules part.limit shape).react (event_of e) node
        (seen (rules part.limit shape) e.key.node.0 (bus_at part.lans)) ≡ Limit) }
    ensures fires { (shape : Shape) (part : PlainPart) (e : Event Packet) (node : PlainNode) (f : Fired) → length part.lans ≡ shape.lans →
        IsWellNode shape e.key.node.0 node → slice_get part.nodes (place_of e.key.node.0 part) ≡ Some node →
        fire e part ≡ Some f → FiresSo shape part e node f }
{}

/// What a part that holds all nodes fires is what fires next in their world, and it refuses the event exactly where
/// nothing is to fire.
pub fn fire_is_a_firing()
    ensures refuses { (shape : Shape) (part : PlainPart) (e : Event Packet) (test : PlainKey → Bool) (w : World PlainNode Bus (Load Packet) Text) →
        HoldsAll part → e.key.node.0 < length part.places → length part.lans ≡ shape.lans →
        ((node : PlainNode) → slice_get part.nodes e.key.node.0 ≡ Some node → IsWellNode shape e.key.node.0 node) →
        w.nodes ≡ node_at part.nodes → w.lans ≡ bus_at part.lans →
        first test w.pending ≡ Some (event_of e) → (fire e part ≡ None) ↔ Rests (rules part.limit shape) test w }
    ensures fires { (shape : Shape) (part : PlainPart) (e : Event Packet) (f : Fired) (test : PlainKey → Bool)
        (w : World PlainNode Bus (Load Packet) Text) →
        HoldsAll part → e.key.node.0 < length part.places → length part.lans ≡ shape.lans →
        ((node : PlainNode) → slice_get part.nodes e.key.node.0 ≡ Some node → IsWellNode shape e.key.node.0 node) →
        w.nodes ≡ node_at part.nodes → w.lans ≡ bus_at part.lans →
        first test w.pending ≡ Some (event_of e) → fire e part ≡ Some f → IsNextFiring part.limit shape test w e f }
    ensures holds { (shape : Shape) (part : PlainPart) (e : Event Packet) (f : Fired) → HoldsAll part → e.key.node.0 < length part.places →
        length part.lans ≡ shape.lans →
        ((node : PlainNode) → slice_get part.nodes e.key.node.0 ≡ Some node → IsWellNode shape e.key.node.0 node) →
        fire e part ≡ Some f → HoldsAll f.part × (f.part.limit ≡ part.limit) × (length f.part.lans ≡ length part.lans) }
{}

/// An event that is well, up to 10^12 ns, can fire in each part in which its node is well.
pub fn well_events_can_fire()
    ensures { (shape : Shape) (part : PlainPart) (e : Event Packet) (node : PlainNode) → IsWellEvent shape (event_of e) →
        IsWellNode shape e.key.node.0 node → e.key.node.0 < length part.places →
        slice_get part.nodes (place_of e.key.node.0 part) ≡ Some node → e.key.time.0 ≤ 10 ^ 12 → CanFire e part }
{}

/// Nodes that are well by what they have together, and first events for them, open a world, and it is sound.
pub fn well_nodes_open_a_world()
    ensures opening { (limit lans : ℕ) (nodes : List PlainNode) (events : List (Event Packet)) → AreFirstEvents lans nodes events →
        AreWellNodes lans nodes → IsOpening (rules limit (shape_of lans nodes)) (health (shape_of lans nodes)) (node_at nodes) (λ lan. free) (map event_of events) }
    ensures sound { (limit lans : ℕ) (nodes : List PlainNode) (events : List (Event Packet)) → AreFirstEvents lans nodes events →
        AreWellNodes lans nodes → IsSound (rules limit (shape_of lans nodes)) (health (shape_of lans nodes)) (opening_world nodes events) }
{}
