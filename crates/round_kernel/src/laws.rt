//! The laws of a run in rounds.

ghost use Rattle.std.specs.Prelude.{◌≡◌, ◌<◌, ◌≤◌, ◌^◌, ◌++◌, None, true, ◌↔◌, ℕ, suc, List, [], Some, map, slice_get};
ghost use Rattle.sim_base.specs.Packet.{Packet};
ghost use Rattle.sim_base.specs.declared.key.Key.{Key};
ghost use Rattle.sim_base.specs.declared.key.NodeId.{NodeId};
ghost use Rattle.sim_base.specs.KeyOrder.{before};
ghost use Rattle.pkt_face.specs.declared.line.Line.{Line as TraceLine};
ghost use Rattle.partition_cut.specs.declared.network.Cut.{Cut};
ghost use Rattle.partition_cut.specs.declared.network.Shape.{Shape};
ghost use Rattle.partition_cut.specs.AllowedCut.{IsCutOf};
ghost use Rattle.scenario_form.specs.declared.scenario.Scenario.{Scenario};
ghost use Rattle.scenario_form.specs.Shape.{IsNetworkOf};
ghost use Rattle.round_core.specs.Lines.{lines_of};
ghost use Rattle.round_core.specs.Parts.{IsIn};
ghost use Rattle.round_core.specs.Rounds.{Done, Limited, PlainEnds, below, times_of, windows};
ghost use Rattle.round_core.specs.World.{Event, Firing, first, with_log};
ghost use Rattle.node_step.specs.declared.loads.Event.{Event as NodeEvent};
ghost use Rattle.node_step.specs.declared.loads.Load.{Load};
ghost use Rattle.node_step.specs.Firing.{Text};
ghost use Rattle.node_step.specs.Part.{PlainPart};
ghost use Rattle.node_rules.specs.Firings.{trace_line};
ghost use Rattle.node_rules.specs.Rules.{rules};
ghost use Rattle.lp_run.specs.Lp.{IsWellLp, PlainLp};
ghost use Rattle.sim_world.specs.Opening.{OpensRuns};
ghost use Rattle.sim_world.specs.Shares.{AreSplit};
ghost use Rattle.sim_world.specs.World.{PlainWorld, world_of};
ghost use Rattle.plain_kernel.specs.Run.{shape_in, start};
ghost use Rattle.round_kernel.specs.Cut.{Fits, rounds_cut};
ghost use Rattle.round_kernel.specs.Groups.{Between, group_made};
ghost use Rattle.round_kernel.specs.Rounds.{AreHanded, HaveRun, lines_at};
ghost use Rattle.round_kernel.specs.Stops.{HaveGone, IsLeastStop, gone_lines};
ghost use Rattle.round_kernel.specs.Window.{Gone};
ghost use Rattle.trace_merge.specs.Merge.{LinesRise as TraceRises};
/// The groups that a world is split into begin the rounds. Between two rounds each group is well. Where each has run to the
/// window's end and got what the others have sent to it, the groups stand between the next two rounds, and the lines of all,
/// merged, are those of the firings that come next in the plain run. Where a group
/// has stopped, the plain run meets its limit at the least key of these, behind the firings before it.
/// Each window ends later than the one before. Where no group has an event left below the stop, the plain run has come to its
/// end, and there were as many rounds as the windows that hold its firings.
pub fn rounds_of_groups()
    ensures begins { (w : PlainWorld) (cut : Cut) (parts : List (PlainPart × List (NodeEvent Packet))) (lps : List PlainLp) →
        OpensRuns w → Fits w cut → AreSplit w cut.group_of.items cut.groups parts → lps ≡ map group_made parts →
        Between w cut lps [] 0 0 }
    ensures well { (w : PlainWorld) (cut : Cut) (lps : List PlainLp) (written : List (Firing Text)) (rounds last : ℕ) →
        Fits w cut → Between w cut lps written rounds last →
        (g : ℕ) (lp : PlainLp) → slice_get lps g ≡ Some lp → IsWellLp lp }
    ensures goes_on { (w : PlainWorld) (cut : Cut) (lps ran : List PlainLp) (written : List (Firing Text)) (rounds last end : ℕ)
        (least : Event (Load Packet)) →
        Fits w cut → (now : Between w cut lps written rounds last) → HaveRun end lps ran →
        first (below w.stop.0) now.next.world.pending ≡ Some least → (rounds_cut w cut).end_of least.key.time.0 ≡ end →
        (fired : List (Firing Text))
        × ((later : List PlainLp) → AreHanded cut ran later → Between w cut later (written ++ fired) (suc rounds) end)
        × ((lines : List (TraceLine Packet)) → TraceRises lines →
        ((l : TraceLine Packet) → IsIn l lines ↔ ((g : ℕ) × IsIn l (lines_at (slice_get ran g)))) →
        lines ≡ map trace_line (lines_of fired)) }
    ensures stops { (w : PlainWorld) (cut : Cut) (lps : List PlainLp) (ran : List Gone) (written : List (Firing Text)) (rounds last end : ℕ)
        (least : Event (Load Packet)) (key : Key) (node : NodeId) →
        Fits w cut → (now : Between w cut lps written rounds last) → HaveGone end lps ran →
        first (below w.stop.0) now.next.world.pending ≡ Some least → (rounds_cut w cut).end_of least.key.time.0 ≡ end →
        IsLeastStop ran key node →
        (node ≡ key.node) × (fired : List (Firing Text))
        × PlainEnds (rules w.limit (shape_in w)) w.stop.0 (start w) (Limited key (written ++ fired))
        × ((lines : List (TraceLine Packet)) → TraceRises lines →
        ((l : TraceLine Packet) → IsIn l lines ↔ (((g : ℕ) × IsIn l (gone_lines (slice_get ran g))) × (before l.key key ≡ true))) →
        lines ≡ map trace_line (lines_of fired)) }
    ensures moves { (w : PlainWorld) (cut : Cut) (lps : List PlainLp) (written : List (Firing Text)) (rounds last end : ℕ)
        (least : Event (Load Packet)) → Fits w cut → (now : Between w cut lps written rounds last) →
        first (below w.stop.0) now.next.world.pending ≡ Some least → (rounds_cut w cut).end_of least.key.time.0 ≡ end →
        (last < end) × (end ≤ w.stop.0) }
    ensures ends { (w : PlainWorld) (cut : Cut) (lps : List PlainLp) (written : List (Firing Text)) (rounds last : ℕ) →
        Fits w cut → (now : Between w cut lps written rounds last) →
        ((g : ℕ) (lp : PlainLp) → slice_get lps g ≡ Some lp → first (below w.stop.0) lp.pending ≡ None) →
        PlainEnds (rules w.limit (shape_in w)) w.stop.0 (start w) (Done (with_log written now.next.world))
        × (rounds ≡ windows (rounds_cut w cut).end_of 0 (times_of written)) }
{}

/// An allowed cut of a scenario's network fits the scenario's world, with its lookahead.
pub fn allowed_cuts_fit()
    ensures { (s : Scenario) (shape : Shape) (cut : Cut) → IsNetworkOf s shape → 1 ≤ s.nodes → s.nodes < 2 ^ 32 → IsCutOf shape cut →
        Fits (world_of s) cut }
{}
