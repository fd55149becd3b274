//! The pure law of rounds: what a run in rounds over groups writes is what the plain run writes.
#![tactic(auto)]

ghost use Rattle.std.specs.Prelude.{◌≡◌, ◌++◌, ℕ, suc, List, [], Option, Some, None, filter, length, ◌↔◌};
ghost use Rattle.round_core.specs.Kernel.{IsLeastLeft, IsNextRound, IsRoundOfParts};
ghost use Rattle.round_core.specs.Lines.{AreMergedLines, Line, LinesRise, lines_of};
ghost use Rattle.round_core.specs.Lookahead.{LooksAhead, LooksAheadBySteps, Steps, lookahead_cut, stepped_cut};
ghost use Rattle.round_core.specs.Parts.{AreHandedOver, AreParts, Part};
ghost use Rattle.round_core.specs.Bound.{IsBounded, plain_ending, plain_run};
ghost use Rattle.round_core.specs.Laws.{Health, IsClosed, IsLawful, IsSound, KeepsLans, BeginsAt};
ghost use Rattle.sim_base.specs.KeyOrder.{before, IsRising};
ghost use Rattle.round_core.specs.Opening.{IsOpening, opening};
ghost use Rattle.round_core.specs.Rounds.{Cut, Ending, Done, Limited, below, fired_by, IsAllowed, IsFull, IsPlainRun, IsPrefixOf, PlainEnds, RunsInRounds, firings_of, group_firings, times_of, windows};
ghost use Rattle.round_core.specs.World.{Event, Firing, IsPast, Rules, World, first, in_order, with_log};

/// A simulation, for the laws: its rules, and what it keeps true of its nodes, LANs and events.
pub trait Simulation {
    type Node;

    type Lan;

    type Load;

    type Text;

    ghost rules: { Self → Rules Self.Node Self.Lan Self.Load Self.Text };

    ghost health: { Self → Health Self.Node Self.Lan Self.Load };
}

/// A world made of nodes, LANs and first events that are well is sound.
pub fn opening_is_sound<S: Simulation>()
    ensures sound { (sim : S) (nodes : ℕ → S.Node) (lans : ℕ → S.Lan) (events : List (Event S.Load)) →
        IsOpening (S.rules sim) (S.health sim) nodes lans events →
        IsSound (S.rules sim) (S.health sim) (opening nodes lans events) }
    ensures past { (nodes : ℕ → S.Node) (lans : ℕ → S.Lan) (events : List (Event S.Load)) →
        IsPast {Node = S.Node} {Lan = S.Lan} {Load = S.Load} {Text = S.Text} (opening nodes lans events) }
{}

/// Every list of groups that leaves no group with an event to fire below a window's end leaves the same nodes and
/// LANs, the same pending events in the order of their keys, and the same firings in the order of their keys; so it
/// meets the same least limit. These are what the plain run leaves at the window's end or at that limit.
pub fn full_lists_agree<S: Simulation>()
    ensures agree { (sim : S) (group_of : ℕ → ℕ) (from end : ℕ) (w : World S.Node S.Lan S.Load S.Text) (some others : List ℕ) →
        IsLawful (S.rules sim) (S.health sim) → KeepsLans (S.rules sim) group_of →
        IsClosed (S.rules sim) (S.health sim) group_of from end → BeginsAt (S.rules sim) (S.health sim) from w →
        IsFull (S.rules sim) group_of end some w → IsFull (S.rules sim) group_of end others w →
        in_order (group_firings (S.rules sim) group_of end some w) ≡ in_order (group_firings (S.rules sim) group_of end others w) }
    ensures ends { (sim : S) (group_of : ℕ → ℕ) (from end : ℕ) (w : World S.Node S.Lan S.Load S.Text) (groups : List ℕ) →
        IsLawful (S.rules sim) (S.health sim) → KeepsLans (S.rules sim) group_of →
        IsClosed (S.rules sim) (S.health sim) group_of from end → BeginsAt (S.rules sim) (S.health sim) from w → IsPast w →
        IsFull (S.rules sim) group_of end groups w →
        let left = in_order (group_firings (S.rules sim) group_of end groups w) in
        first (below end) left.pending ≡ None → IsPlainRun (S.rules sim) end w left }
    ensures limited { (sim : S) (group_of : ℕ → ℕ) (from end : ℕ) (w : World S.Node S.Lan S.Load S.Text) (groups : List ℕ)
        (e : Event S.Load) →
        IsLawful (S.rules sim) (S.health sim) → KeepsLans (S.rules sim) group_of →
        IsClosed (S.rules sim) (S.health sim) group_of from end → BeginsAt (S.rules sim) (S.health sim) from w → IsPast w →
        IsFull (S.rules sim) group_of end groups w →
        let left = in_order (group_firings (S.rules sim) group_of end groups w) in
        first (below end) left.pending ≡ Some e →
        PlainEnds (S.rules sim) end w (Limited e.key (filter (λ f. before f.key e.key) left.fired)) }
{}

/// A run in rounds, over any allowed cut and by any lists of groups, ends as the plain run does, and what is written
/// before it is a prefix of what the plain run writes.
pub fn rounds_end_as_plain<S: Simulation>()
    ensures ends { (sim : S) (stop : ℕ) (cut : Cut) (w : World S.Node S.Lan S.Load S.Text) (rounds : List (List ℕ))
        (ending : Ending S.Node S.Lan S.Load S.Text) →
        IsLawful (S.rules sim) (S.health sim) → IsAllowed (S.rules sim) (S.health sim) stop cut →
        IsSound (S.rules sim) (S.health sim) w → IsPast w →
        RunsInRounds (S.rules sim) stop cut w rounds ending → PlainEnds (S.rules sim) stop w ending }
    ensures prefix { (sim : S) (stop : ℕ) (w : World S.Node S.Lan S.Load S.Text) (ending : Ending S.Node S.Lan S.Load S.Text) →
        PlainEnds (S.rules sim) stop w ending → IsPrefixOf w.fired (firings_of ending) }
    ensures windows { (sim : S) (stop : ℕ) (cut : Cut) (w final : World S.Node S.Lan S.Load S.Text) (rounds : List (List ℕ)) →
        IsLawful (S.rules sim) (S.health sim) → IsAllowed (S.rules sim) (S.health sim) stop cut →
        IsSound (S.rules sim) (S.health sim) w → w.fired ≡ [] →
        RunsInRounds (S.rules sim) stop cut w rounds (Done final) →
        length rounds ≡ windows cut.end_of 0 (times_of final.fired) }
{}

/// A plain run ends, within a stated number of firings, and in one way: the function that fires so often is the plain
/// run of the relation.
pub fn plain_run_ends<S: Simulation>()
    ensures exists { (sim : S) (stop count : ℕ) (room : S.Node → ℕ) (w : World S.Node S.Lan S.Load S.Text) →
        IsLawful (S.rules sim) (S.health sim) → IsBounded (S.rules sim) (S.health sim) count room →
        IsSound (S.rules sim) (S.health sim) w →
        IsPlainRun (S.rules sim) stop w (plain_run (S.rules sim) stop count room w) }
    ensures unique { (sim : S) (stop : ℕ) (w : World S.Node S.Lan S.Load S.Text) (one other : Ending S.Node S.Lan S.Load S.Text) →
        PlainEnds (S.rules sim) stop w one → PlainEnds (S.rules sim) stop w other → one ≡ other }
    ensures function { (sim : S) (stop count : ℕ) (room : S.Node → ℕ) (w : World S.Node S.Lan S.Load S.Text)
        (ending : Ending S.Node S.Lan S.Load S.Text) →
        IsLawful (S.rules sim) (S.health sim) → IsBounded (S.rules sim) (S.health sim) count room →
        IsSound (S.rules sim) (S.health sim) w →
        (PlainEnds (S.rules sim) stop w ending) ↔ (plain_ending (S.rules sim) stop count room w ≡ ending) }
{}

/// There is a run in rounds from each sound world, over any allowed cut.
pub fn rounds_exist<S: Simulation>()
    ensures { (sim : S) (stop count : ℕ) (room : S.Node → ℕ) (cut : Cut) (w : World S.Node S.Lan S.Load S.Text) →
        IsLawful (S.rules sim) (S.health sim) → IsBounded (S.rules sim) (S.health sim) count room →
        IsAllowed (S.rules sim) (S.health sim) stop cut → IsSound (S.rules sim) (S.health sim) w → IsPast w →
        (rounds : List (List ℕ)) × (ending : Ending S.Node S.Lan S.Load S.Text) ×
        RunsInRounds (S.rules sim) stop cut w rounds ending }
{}

/// A kernel's rounds begin with the parts of its first world, and end where no part has an event left below stop.
pub fn rounds_begin_and_end<S: Simulation>()
    ensures begins { (sim : S) (stop : ℕ) (cut : Cut) (start : World S.Node S.Lan S.Load S.Text) (parts : ℕ → Part S.Node S.Lan S.Load S.Text) →
        IsLawful (S.rules sim) (S.health sim) → IsSound (S.rules sim) (S.health sim) start → start.fired ≡ [] →
        ((end : ℕ) → AreParts (S.rules sim) cut.group_of end parts start) →
        IsNextRound (S.rules sim) (S.health sim) stop cut start [] 0 0 parts }
    ensures ends { (sim : S) (stop : ℕ) (cut : Cut) (start : World S.Node S.Lan S.Load S.Text) (written : List (Firing S.Text))
        (rounds last : ℕ) (parts : ℕ → Part S.Node S.Lan S.Load S.Text) →
        IsLawful (S.rules sim) (S.health sim) →
        (now : IsNextRound (S.rules sim) (S.health sim) stop cut start written rounds last parts) →
        ((g : ℕ) → first (below stop) (parts g).world.pending ≡ None) →
        PlainEnds (S.rules sim) stop start (Done (with_log written now.world))
        × (rounds ≡ windows cut.end_of 0 (times_of written)) }
{}

/// A round whose groups each run their own part: where no part has an event left below the end, the plain run comes by
/// what the parts hand over; else it meets a limit at the least event that is left, behind the firings before it.
pub fn rounds_of_parts<S: Simulation>()
    ensures goes_on { (sim : S) (stop count end : ℕ) (cut : Cut) (start : World S.Node S.Lan S.Load S.Text)
        (written fired : List (Firing S.Text)) (rounds last : ℕ) (parts news later : ℕ → Part S.Node S.Lan S.Load S.Text) →
        IsLawful (S.rules sim) (S.health sim) → IsAllowed (S.rules sim) (S.health sim) stop cut →
        (now : IsNextRound (S.rules sim) (S.health sim) stop cut start written rounds last parts) →
        IsRoundOfParts (S.rules sim) stop cut count end now.world parts news fired →
        ((g : ℕ) → first (below end) (news g).world.pending ≡ None) → AreHandedOver cut.group_of news later →
        IsNextRound (S.rules sim) (S.health sim) stop cut start (written ++ fired) (suc rounds) end later
        × ((g : ℕ) → length (news g).world.fired ≡ fired_by cut.group_of g fired) }
    ensures stops { (sim : S) (stop count end : ℕ) (cut : Cut) (start : World S.Node S.Lan S.Load S.Text)
        (written fired : List (Firing S.Text)) (rounds last : ℕ) (parts news : ℕ → Part S.Node S.Lan S.Load S.Text)
        (e : Event S.Load) →
        IsLawful (S.rules sim) (S.health sim) → IsAllowed (S.rules sim) (S.health sim) stop cut →
        (now : IsNextRound (S.rules sim) (S.health sim) stop cut start written rounds last parts) →
        IsRoundOfParts (S.rules sim) stop cut count end now.world parts news fired → IsLeastLeft end news e →
        PlainEnds (S.rules sim) stop start (Limited e.key (written ++ filter (λ f. before f.key e.key) fired)) }
{}

/// A cut with a positive lookahead, below which nothing reaches another group, is allowed; so is one whose lookahead
/// changes at stated steps, where no window passes a step.
pub fn lookahead_allows<S: Simulation>()
    ensures constant { (sim : S) (stop : ℕ) (group_of : ℕ → ℕ) (lookahead : Option ℕ) →
        LooksAhead (S.rules sim) (S.health sim) group_of lookahead →
        IsAllowed (S.rules sim) (S.health sim) stop (lookahead_cut group_of lookahead stop) }
    ensures stepped { (sim : S) (stop : ℕ) (group_of : ℕ → ℕ) (steps : Steps) →
        LooksAheadBySteps (S.rules sim) (S.health sim) group_of steps →
        IsAllowed (S.rules sim) (S.health sim) stop (stepped_cut group_of steps stop) }
{}

/// Firings in the order of their keys have lines in the order of keys and indices, and these are what merging the
/// lines of all parts gives.
pub fn lines_in_order<S: Simulation>()
    ensures rise { (fired : List (Firing S.Text)) → IsRising (λ f. f.key) fired → LinesRise (lines_of fired) }
    ensures merged { (sim : S) (group_of : ℕ → ℕ) (end : ℕ) (parts : ℕ → Part S.Node S.Lan S.Load S.Text)
        (w : World S.Node S.Lan S.Load S.Text) (lines : List (Line S.Text)) →
        AreParts (S.rules sim) group_of end parts w → AreMergedLines parts lines → IsRising (λ f. f.key) w.fired →
        lines ≡ lines_of w.fired }
{}
