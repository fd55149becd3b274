//! Runs of the whole program over memory. The expected bytes are worked by hand.

use crate::runs::{assert_no_scenario, assert_run, changed, run};
use crate::scenarios::{ECHO, FIVE_EVENTS, NO_ROUTE, TWO_DATAGRAMS};
use sim_base::{NodeId, Time};
use sim_run::{Refusal, Status};

/// What the sink gets of the two datagrams.
const TWO_DATAGRAMS_SUMMARY: &str = "events 6
drops 0
app 0 udp-sink sent 0 0 received 2 140
app 1 udp-send sent 2 140 received 0 0
";

/// What the sink gets of the echo.
const ECHO_SUMMARY: &str = "events 5
drops 0
app 0 udp-echo-server sent 1 1024 received 1 1024
app 1 udp-echo-client sent 1 1024 received 1 1024
";

/// The text trace of the echo.
const ECHO_LINES: &str = "\
+ 2.000000000 n0 i0 p0.0 1054 ppp:2 ipv4:20 udp:8 payload:1024
- 2.000000000 n0 i0 p0.0 1054 ppp:2 ipv4:20 udp:8 payload:1024
r 2.003686400 n1 i0 p0.0 1054 ppp:2 ipv4:20 udp:8 payload:1024
+ 2.003686400 n1 i0 p0.0 1054 ppp:2 ipv4:20 udp:8 payload:1024
- 2.003686400 n1 i0 p0.0 1054 ppp:2 ipv4:20 udp:8 payload:1024
r 2.007372800 n0 i0 p0.0 1054 ppp:2 ipv4:20 udp:8 payload:1024
";

/// What the sink gets of the echo that is stopped at once.
const NO_ECHO_SUMMARY: &str = "events 0
drops 0
app 0 udp-echo-server sent 0 0 received 0 0
app 1 udp-echo-client sent 0 0 received 0 0
";

/// What the sink gets of the datagram without a route.
const NO_ROUTE_SUMMARY: &str = "events 5
drops 1
app 0 udp-send sent 1 100 received 0 0
";

/// What the sink gets of a check.
const SIZES: &str = "nodes 2 links 1 lans 0 routes 0 apps 2 losses 0
";

/// The head of the packet that is captured at 0 s.
const FIRST_HEAD: [u8; 16] = [0, 0, 0, 0, 0, 0, 0, 0, 0x64, 0, 0, 0, 0x64, 0, 0, 0];

/// The head of the packet that is captured at 0.001 s.
const SECOND_HEAD: [u8; 16] = [
    0, 0, 0, 0, 0x40, 0x42, 0x0f, 0, 0x64, 0, 0, 0, 0x64, 0, 0, 0,
];

/// The PPP, IPv4 and UDP headers of the first datagram.
const FIRST_FRAME: [u8; 30] = [
    0x00, 0x21, 0x45, 0x00, 0x00, 0x62, 0x00, 0x00, 0x00, 0x00, 0x40, 0x11, 0x64, 0x87, 0x0a, 0x01,
    0x01, 0x01, 0x0a, 0x01, 0x01, 0x02, 0xc0, 0x01, 0x00, 0x09, 0x00, 0x4e, 0x29, 0x43,
];

/// The head of the packet of 1054 bytes that is captured at 2 s.
const ECHO_HEAD: [u8; 16] = [2, 0, 0, 0, 0, 0, 0, 0, 0x1e, 4, 0, 0, 0x1e, 4, 0, 0];

/// The head of its echo, which is captured at 2.0073728 s.
const ECHOED_HEAD: [u8; 16] = [2, 0, 0, 0, 0, 0x80, 0x70, 0, 0x1e, 4, 0, 0, 0x1e, 4, 0, 0];

/// The PPP, IPv4 and UDP headers of the datagram to the echo server.
const ECHO_FRAME: [u8; 30] = [
    0x00, 0x21, 0x45, 0x00, 0x04, 0x1c, 0x00, 0x00, 0x00, 0x00, 0x40, 0x11, 0x60, 0xcd, 0x0a, 0x01,
    0x01, 0x01, 0x0a, 0x01, 0x01, 0x02, 0xc0, 0x01, 0x00, 0x09, 0x04, 0x08, 0x21, 0xcf,
];

/// The head of the packet that is captured at 0.0005 s.
const LATER_HEAD: [u8; 16] = [0, 0, 0, 0, 0x20, 0xa1, 7, 0, 0x64, 0, 0, 0, 0x64, 0, 0, 0];

/// The head of a capture file of a link.
const FILE_HEAD: [u8; 24] = [
    0x4d, 0x3c, 0xb2, 0xa1, 2, 0, 4, 0, 0, 0, 0, 0, 0, 0, 0, 0, 0xff, 0xff, 0, 0, 9, 0, 0, 0,
];

#[test]
fn two_datagrams_are_captured_and_counted(rt: HostRuntime) {
    let store = assert_run(
        &rt,
        rt.alloc(),
        &["run"],
        TWO_DATAGRAMS,
        &[],
        Status::Done,
        &[256, 256],
        TWO_DATAGRAMS_SUMMARY,
    );
    assert!(rt; store.files().len() == 2);
    let file = &store.files()[0];
    assert!(rt; file.name.as_slice() == b"trace-0-0.pcap".as_slice());
    let bytes = file.bytes.as_slice();
    assert!(rt; bytes.len() == 256);
    assert!(rt; bytes.get(0..24) == Some(FILE_HEAD.as_slice()));
    assert!(rt; bytes.get(24..40) == Some(FIRST_HEAD.as_slice()));
    assert!(rt; bytes.get(40..70) == Some(FIRST_FRAME.as_slice()));
    assert!(rt; bytes[70..140].iter().all(|b| *b == 0));
    assert!(rt; bytes.get(140..156) == Some(SECOND_HEAD.as_slice()));
    assert!(rt; bytes[163] == 1 && bytes[168] == 0x64 && bytes[169] == 0x86);
}

#[test]
fn an_echo_is_captured_at_both_ends(rt: HostRuntime) {
    let store = assert_run(
        &rt,
        rt.alloc(),
        &["run"],
        ECHO,
        &[],
        Status::Done,
        &[2164, 2164],
        ECHO_SUMMARY,
    );
    assert!(rt; store.files().len() == 2);
    let file = &store.files()[0];
    assert!(rt; file.name.as_slice() == b"trace-0-0.pcap".as_slice());
    let bytes = file.bytes.as_slice();
    assert!(rt; bytes.len() == 2164);
    assert!(rt; bytes.get(24..40) == Some(ECHO_HEAD.as_slice()));
    assert!(rt; bytes.get(40..70) == Some(ECHO_FRAME.as_slice()));
    assert!(rt; bytes[70..1094].iter().all(|b| *b == 0));
    assert!(rt; bytes.get(1094..1110) == Some(ECHOED_HEAD.as_slice()));
    assert!(rt; store.files()[1].name.as_slice() == b"trace-1-0.pcap".as_slice());
}

/// Each node begins to send the frame as soon as it waits, and the other gets it 3.6864 ms later.
#[test]
fn an_echo_has_six_lines_in_the_text_trace(rt: HostRuntime) {
    let input = changed(&rt, rt.alloc(), ECHO, "ascii = false", "ascii = true");
    let store = assert_run(
        &rt,
        rt.alloc(),
        &["run"],
        input.as_str(),
        &[],
        Status::Done,
        &[2164, 2164, ECHO_LINES.len()],
        ECHO_SUMMARY,
    );
    assert!(rt; store.files().len() == 3);
    let file = &store.files()[2];
    assert!(rt; file.name.as_slice() == b"trace.tr".as_slice());
    assert!(rt; file.bytes.as_slice() == ECHO_LINES.as_bytes());
}

#[test]
fn a_run_that_stops_at_once_fires_nothing(rt: HostRuntime) {
    let input = changed(
        &rt,
        rt.alloc(),
        ECHO,
        "stop_ns = 10000000000",
        "stop_ns = 0",
    );
    let store = assert_run(
        &rt,
        rt.alloc(),
        &["run"],
        input.as_str(),
        &[],
        Status::Done,
        &[24, 24],
        NO_ECHO_SUMMARY,
    );
    assert!(rt; store.files().len() == 2);
    assert!(rt; store.files()[1].bytes.as_slice() == FILE_HEAD.as_slice());
}

/// The datagram's frame has 130 bytes, and the report's 58.
#[test]
fn a_router_without_a_route_reports_it(rt: HostRuntime) {
    assert_run(
        &rt,
        rt.alloc(),
        &["run"],
        NO_ROUTE,
        &[],
        Status::Done,
        &[244, 244],
        NO_ROUTE_SUMMARY,
    );
}

#[test]
fn a_run_ends_where_a_node_may_schedule_no_more(rt: HostRuntime) {
    let limit = Status::Limit {
        node: NodeId(0),
        time: Time(1_000_000),
    };
    let sizes = [140, 140];
    let store = assert_run(
        &rt,
        rt.alloc(),
        &["run"],
        FIVE_EVENTS,
        &[],
        limit,
        &sizes,
        "",
    );
    assert!(rt; store.files().len() == 2);
    let first = store.files()[0].bytes.as_slice();
    let second = store.files()[1].bytes.as_slice();
    assert!(rt; first.get(24..40) == Some(FIRST_HEAD.as_slice()));
    assert!(rt; second.get(24..40) == Some(LATER_HEAD.as_slice()));
}

#[test]
fn a_check_writes_the_sizes_of_a_scenario(rt: HostRuntime) {
    let done = Status::Done;
    assert_run(&rt, rt.alloc(), &["check"], ECHO, &[], done, &[], SIZES);
}

/// Two calls make the files, two put their heads, and two the packets. The text trace is made behind the captures, and has no
/// head.
#[test]
fn a_failed_append_leaves_what_was_put_and_no_summary(rt: HostRuntime) {
    let fault = Status::WriteFault;
    assert_run(
        &rt,
        rt.alloc(),
        &["run", "partition=one"],
        ECHO,
        &[6],
        fault,
        &[2164, 24],
        "",
    );
    assert_run(
        &rt,
        rt.alloc(),
        &["run", "partition=one"],
        ECHO,
        &[3],
        fault,
        &[0, 0],
        "",
    );
    let input = changed(&rt, rt.alloc(), ECHO, "ascii = false", "ascii = true");
    let traced = input.as_str();
    assert_run(
        &rt,
        rt.alloc(),
        &["run", "partition=one"],
        traced,
        &[6],
        fault,
        &[24, 24, 0],
        "",
    );
}

#[test]
fn a_failed_read_makes_no_file(rt: HostRuntime) {
    let failing = ([2].as_slice(), [].as_slice());
    let input = ECHO.as_bytes();
    let (store, sink) = run(&rt, rt.alloc(), &["run"], input, failing, Status::ReadFault);
    assert!(rt; store.files().is_empty() && sink.bytes().is_empty());
}

#[test]
fn a_document_that_is_cut_off_is_no_toml(rt: HostRuntime) {
    let input = b"format = 1\n[[link".as_slice();
    assert_no_scenario(&rt, rt.alloc(), "run", input, Refusal::NotToml);
}

#[test]
fn one_byte_past_the_limit_is_too_long(rt: HostRuntime) {
    let input = vec![in rt.alloc(); b'#'; 16_777_217].expect(&rt, "memory");
    let refusal = Refusal::TooLong { taken: 16_777_217 };
    assert_no_scenario(&rt, rt.alloc(), "run", input.as_slice(), refusal);
}
