//! Runs in groups: refused cuts, windows, and runs that agree whatever their partition and workers.

use crate::runs::{assert_no_scenario, assert_run, changed, run};
use crate::scenarios::{CHAIN, ECHO, FIVE_EVENTS, NO_ROUTE, THREE_ON_A_LAN, TWO_DATAGRAMS};
use sim_base::{NodeId, Time};
use sim_run::{Code, Place, Refusal, Status};
use std::alloc::Global;
use std::process::Abort;
use std::thread::Threads;

/// What the sink gets of the echo, where each node is a group of its own. The first window ends 2 ms behind 2 s, before the frame
/// comes at 2.0036864 s; the echo comes in the third.
const ECHO_REPORT: &str = "events 5
drops 0
app 0 udp-echo-server sent 1 1024 received 1 1024
app 1 udp-echo-client sent 1 1024 received 1 1024
windows 3
group 0 events 3
group 1 events 2
";

/// What the sink gets of it in one group.
const ECHO_IN_ONE: &str = "events 5
drops 0
app 0 udp-echo-server sent 1 1024 received 1 1024
app 1 udp-echo-client sent 1 1024 received 1 1024
windows 1
group 0 events 5
";

/// What the sink gets where nothing happens in three groups.
const NOTHING: &str = "events 0
drops 0
windows 0
group 0 events 0
group 1 events 0
group 2 events 0
";

/// The refusal of groups.
fn at_groups(code: Code) -> Refusal {
    let place = Place {
        section: 0,
        index: 0,
        field: 8,
    };
    Refusal::Schema { place, code }
}

#[test]
fn groups_that_are_no_allowed_cut_are_refused(rt: HostRuntime) {
    let alloc = rt.alloc();
    let no_delay = changed(&rt, alloc, ECHO, "delay_ns = 2000000", "delay_ns = 0");
    let rows = [
        (no_delay.as_str(), "[[0], [1]]", Code::ZeroDelay { link: 0 }),
        (ECHO, "[[0, 1], [0]]", Code::GroupTwice { node: 0 }),
        (ECHO, "[[0]]", Code::GroupMissing { node: 1 }),
        (ECHO, "[]", Code::GroupMissing { node: 0 }),
        (
            no_delay.as_str(),
            "[[1], [1]]",
            Code::GroupTwice { node: 1 },
        ),
        (THREE_ON_A_LAN, "[[0, 1], [2]]", Code::Lan { lan: 0 }),
    ];
    for (scenario, groups, code) in rows {
        let line = format!(in alloc; "ascii = false\ngroups = {groups}").expect(&rt, "memory");
        let input = changed(&rt, alloc, scenario, "ascii = false", line.as_str());
        let refusal = at_groups(code);
        assert_no_scenario(&rt, alloc, "run", input.as_bytes(), refusal);
        assert_no_scenario(&rt, alloc, "check", input.as_bytes(), refusal);
    }
}

#[test]
fn an_echo_between_two_groups_has_three_windows(rt: HostRuntime) {
    let alloc = rt.alloc();
    let grouped = changed(&rt, alloc, ECHO, "ascii = false", "groups = [[0], [1]]");
    let rows = [
        (ECHO, "partition=one", ECHO_IN_ONE),
        (ECHO, "partition=file", ECHO_IN_ONE),
        (ECHO, "partition=auto", ECHO_REPORT),
        (grouped.as_str(), "partition=one", ECHO_IN_ONE),
        (grouped.as_str(), "partition=file", ECHO_REPORT),
        (grouped.as_str(), "partition=auto", ECHO_REPORT),
    ];
    for (input, partition, text) in rows {
        let words = ["run", partition, "workers=2", "report=yes"];
        assert_run(
            &rt,
            alloc,
            words.as_slice(),
            input,
            &[],
            Status::Done,
            &[2164, 2164],
            text,
        );
    }
}

/// The delays 1000, 3000, 2000 and 0 ns have the median 2000 ns among the positive ones, so the second and the third link are cut.
#[test]
fn a_chain_of_delays_has_three_groups(rt: HostRuntime) {
    assert_run(
        &rt,
        rt.alloc(),
        &["run", "report=yes"],
        CHAIN,
        &[],
        Status::Done,
        &[],
        NOTHING,
    );
}

/// Asserts that a scenario leaves the same files and text at every partition and number of workers.
fn assert_agree(rt: &(impl Abort + Threads + Sync), alloc: Global, input: &str, expected: Status) {
    let (plain, said) = run(
        rt,
        alloc,
        &["run", "partition=one"],
        input.as_bytes(),
        (&[], &[]),
        expected,
    );
    for partition in ["partition=one", "partition=file", "partition=auto"] {
        for workers in [
            "workers=1",
            "workers=2",
            "workers=3",
            "workers=8",
            "workers=64",
        ] {
            let words = ["run", partition, workers];
            let (store, sink) = run(
                rt,
                alloc,
                words.as_slice(),
                input.as_bytes(),
                (&[], &[]),
                expected,
            );
            assert!(rt; sink.bytes() == said.bytes());
            assert_eq!(rt; store.files().len(), plain.files().len());
            for (file, other) in store.files().iter().zip(plain.files()) {
                assert!(rt; file.name.as_slice() == other.name.as_slice());
                assert!(rt; file.bytes.as_slice() == other.bytes.as_slice());
            }
        }
    }
}

#[test]
fn runs_agree_at_every_partition_and_number_of_workers(rt: HostRuntime) {
    let alloc = rt.alloc();
    let grouped = changed(
        &rt,
        alloc,
        ECHO,
        "ascii = false",
        "ascii = true\ngroups = [[1], [0]]",
    );
    for input in [
        TWO_DATAGRAMS,
        ECHO,
        grouped.as_str(),
        NO_ROUTE,
        THREE_ON_A_LAN,
    ] {
        assert_agree(&rt, alloc, input, Status::Done);
    }
    let limit = Status::Limit {
        node: NodeId(0),
        time: Time(1_000_000),
    };
    let parted = changed(
        &rt,
        alloc,
        FIVE_EVENTS,
        "events_per_node = 5",
        "events_per_node = 5\ngroups = [[0], [1]]",
    );
    assert_agree(&rt, alloc, FIVE_EVENTS, limit);
    assert_agree(&rt, alloc, parted.as_str(), limit);
}

/// What the sink gets of the demo of one node, behind the number of events.
const DEMO: &str = "
drops 0
app 0 udp-sink sent 0 0 received 10 5000
app 1 tcp-sink sent 0 0 received 38 20000
app 2 udp-send sent 10 5000 received 0 0
";

#[test]
fn the_demo_of_one_node_delivers_all(rt: HostRuntime) {
    let alloc = rt.alloc();
    for partition in ["partition=one", "partition=file", "partition=auto"] {
        for workers in ["workers=1", "workers=2", "workers=8"] {
            let words = ["demo", "n=1", partition, workers];
            let (store, sink) = run(&rt, alloc, words.as_slice(), b"", (&[1], &[]), Status::Done);
            assert!(rt; store.files().is_empty());
            let text = str::from_utf8(sink.bytes()).expect(&rt, "text");
            assert!(rt; text.contains(DEMO));
        }
    }
}
