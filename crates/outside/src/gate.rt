//! What a worker passes before it fires a group in a round. A gate answers nothing and changes nothing that a run reads, so
//! that a test can see or hold the workers, and no run can tell.

ghost use Rattle.std.specs.Prelude.{◌≤◌};

use std::hint::spin_loop;
use std::sync::atomic::{AtomicBool, AtomicU64, Ordering};

/// Where each group passes in each round.
pub trait Gate {
    /// A worker is about to fire a group, by its number in the cut, in a round, from 0.
    fn enter(&self, group: u32, round: u64);
}

/// A gate that is always open.
#[derive(Clone, Copy, Debug, PartialEq, Eq)]
pub struct OpenGate;

impl Gate for OpenGate {
    fn enter(&self, _group: u32, _round: u64) {}
}

/// How often a held group looks for the others before it goes on without them.
const TURNS: u32 = 1_000_000_000;

/// A gate that holds a group in the first round until all others have entered it. Where one worker fires all groups, or each
/// worker has groups of its own, a held group may wait for one that comes behind it, and goes on alone in the end.
#[derive(Drop)]
pub struct MeetGate {
    held: u32,
    // The groups that are waited for, a bit each.
    others: u64,
    entered: AtomicU64,
    met: AtomicBool,
}

/// A group's bit, among 64 groups.
fn bit_of(group: u32) -> u64 {
    if group < 64 { 1 << group } else { 0 }
}

/// The bits of the groups below a number.
fn bits_below(groups: u32) -> u64
    requires { groups ≤ 64 }
{
    if groups < 64 {
        (1 << groups) - 1
    } else {
        u64::MAX
    }
}

impl MeetGate {
    /// A gate that holds this group until all other groups below `groups`, which is at most 64, have entered.
    pub fn make(held: u32, groups: u32) -> MeetGate
        requires few { groups ≤ 64 }
    {
        MeetGate {
            held,
            others: bits_below(groups) & !bit_of(held),
            entered: AtomicU64::new(0),
            met: AtomicBool::new(false),
        }
    }

    /// Whether all others had entered when the held group went on.
    pub fn met(&self) -> bool {
        self.met.load(Ordering::SeqCst)
    }

    /// Whether all others have entered.
    fn have_entered(&self) -> bool {
        self.entered.load(Ordering::SeqCst) & self.others == self.others
    }

    /// Waits for the others, 10^9 turns at most.
    fn wait_for_others(&self) {
        for _ in 0..TURNS {
            if self.have_entered() {
                self.met.store(true, Ordering::SeqCst);
                return;
            }
            spin_loop();
        }
    }
}

impl Gate for MeetGate {
    fn enter(&self, group: u32, round: u64) {
        if round > 0 {
            return;
        }
        self.entered.fetch_or(bit_of(group), Ordering::SeqCst);
        if group == self.held {
            self.wait_for_others();
        }
    }
}
