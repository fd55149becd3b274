//! Laws of discs.

ghost use Rattle.std.specs.Prelude.{ℕ, List};
ghost use Rattle.sim_base.specs.declared.time.Rate.{Rate};
ghost use Rattle.queue_discs.specs.declared.disc.DiscKind.{DiscKind};
ghost use Rattle.queue_discs.specs.History.{Call, IsInBudget, IsInOrder, after};

/// What a disc has given and what it holds are what it kept, each frame once: first in, first out in each band, and in all
/// where priorities don't count.
#[tactic(auto, using(crate::proofs::OrderLaws::after_in_order))]
pub fn frames_leave_once_and_in_order()
    ensures { (kind : DiscKind) (calls : List Call) → IsInOrder (after kind calls) }
{}

/// What has left a token bucket is at most the burst and what the rate has brought since time 0.
#[tactic(auto, using(crate::proofs::BudgetLaws::always_in_budget))]
pub fn no_more_leaves_than_a_bucket_allows()
    ensures { (limit : ℕ) (rate : Rate) (burst : ℕ) (calls : List Call) → IsInBudget limit rate burst calls }
{}
