//! Runs whose workers pass a gate before they fire a group: which of them meet, and in which order the groups are entered.

use crate::runs::run_with;
use outside::{Gate, MeetGate};
use pkt_face::PlainPkt;
use sim_run::Status;
use std::process::Abort;
use std::sync::atomic::{AtomicU64, Ordering};

/// How many of the groups that are entered a gate keeps.
const KEPT: usize = 9;

/// A gate that keeps the first groups that are entered, in their order.
#[derive(Drop)]
struct KeptGate {
    count: AtomicU64,
    groups: [AtomicU64; KEPT],
}

impl KeptGate {
    fn new() -> KeptGate {
        KeptGate {
            count: AtomicU64::new(0),
            groups: [
                AtomicU64::new(0),
                AtomicU64::new(0),
                AtomicU64::new(0),
                AtomicU64::new(0),
                AtomicU64::new(0),
                AtomicU64::new(0),
                AtomicU64::new(0),
                AtomicU64::new(0),
                AtomicU64::new(0),
            ],
        }
    }
}

impl Gate for KeptGate {
    fn enter(&self, group: u32, _round: u64) {
        let at = self.count.fetch_add(1, Ordering::SeqCst);
        if let Some(place) = self.groups.get(at as usize) {
            place.store(u64::from(group), Ordering::SeqCst);
        }
    }
}

/// The demo of three links has the groups {0, 1}, {2} and {3}, since two of its links have at least the median delay. Whichever
/// group is held in the first round, a second worker goes on with the others.
#[test]
fn two_workers_meet_whichever_group_is_held(rt: HostRuntime) {
    for held in 0..3 {
        let gate = MeetGate::make(held, 3);
        let words = ["demo", "n=3", "workers=2", "partition=auto"];
        let (status, _, _) = run_with::<PlainPkt, _, _>(
            &rt,
            rt.alloc(),
            words.as_slice(),
            b"",
            (&[], &[]),
            &gate,
        );
        assert_eq!(&rt; status, Status::Done);
        assert!(&rt; gate.met());
    }
}

/// In the first round all estimates are 0. Its window, from 1 ms on, has two events of group 0, where node 1 sends and its frame
/// has left, one of group 1, where node 2 sends, and none of group 2. That of the second round, from 2.424 ms on, has one of
/// group 0, where that frame arrives, one of group 1, whose frame has left, and two of group 2, where node 3 sends and its frame
/// has left.
#[test]
fn groups_are_entered_by_falling_estimate_and_then_by_number(rt: HostRuntime) {
    let gate = KeptGate::new();
    let words = ["demo", "n=3", "workers=1", "partition=auto"];
    let (status, _, _) = run_with::<PlainPkt, _, _>(
        &rt,
        rt.alloc(),
        words.as_slice(),
        b"",
        (&[], &[]),
        &gate,
    );
    assert_eq!(&rt; status, Status::Done);
    assert!(&rt; gate.count.load(Ordering::SeqCst) >= 9);
    for (place, group) in gate.groups.iter().zip([0, 1, 2, 0, 1, 2, 2, 0, 1]) {
        assert_eq!(&rt; place.load(Ordering::SeqCst), group);
    }
}
