//! Runs of the whole program over memory, and what is asserted of them.

use outside::{Gate, MemSink, MemSource, MemStore, OpenGate};
use pkt_face::{Pkt, PlainPkt};
use sim_run::{Refusal, Status, WordCode, WordFault, run_program};
use std::alloc::Global;
use std::process::Abort;
use std::thread::Threads;

/// Runs the program with these words over packets of the type `P`, where the listed calls of the source and of the store fail
/// and the workers pass a gate. Gives back the answer, the store and the sink.
pub fn run_with<P: Pkt, R: Abort + Threads + Sync, G: Gate + Sync>(
    rt: &R,
    alloc: Global,
    words: &[&str],
    input: &[u8],
    failing: (&[u32], &[u32]),
    gate: &G,
) -> (Status, MemStore, MemSink) {
    let mut texts = Vec::new(alloc);
    for word in words {
        let text = String::from_str(alloc, word).expect(rt, "memory");
        texts.push(text).expect(rt, "memory");
    }
    let (reads, writes) = failing;
    let mut source = MemSource::make(alloc, input, reads).expect(rt, "memory");
    let mut store = MemStore::make(alloc, writes).expect(rt, "memory");
    let mut sink = MemSink::make(alloc, &[]).expect(rt, "memory");
    assert!(rt; texts.len() <= 1000);
    let status = run_program::<P, R, _, _, _, G>(
        rt,
        alloc,
        texts.as_slice(),
        &mut source,
        &mut store,
        &mut sink,
        gate,
    );
    (status, store, sink)
}

/// Asserts what a run with these words answers, where the listed calls of the source and of the store
/// fail, and gives back the store and the sink.
pub fn run(
    rt: &(impl Abort + Threads + Sync),
    alloc: Global,
    words: &[&str],
    input: &[u8],
    failing: (&[u32], &[u32]),
    expected: Status,
) -> (MemStore, MemSink) {
    let (status, store, sink) = run_with::<PlainPkt, _, _>(
        rt, alloc, words, input, failing, &OpenGate,
    );
    assert_eq!(rt; status, expected);
    (store, sink)
}

/// Asserts that these words are refused.
pub fn assert_refused(
    rt: &(impl Abort + Threads + Sync),
    alloc: Global,
    words: &[&str],
    place: u32,
    code: WordCode,
) {
    let fault = Status::Words(WordFault { place, code });
    run(rt, alloc, words, b"", (&[], &[]), fault);
}

/// Asserts that a command refuses these bytes, and that it makes no file.
pub fn assert_no_scenario(
    rt: &(impl Abort + Threads + Sync),
    alloc: Global,
    command: &str,
    input: &[u8],
    refusal: Refusal,
) {
    let refused = Status::Scenario(refusal);
    let (store, _sink) = run(rt, alloc, &[command], input, (&[], &[]), refused);
    assert!(rt; store.files().is_empty());
}

/// Asserts what a run with these words answers and leaves: the sizes of its files, and its text. Gives back the store.
pub fn assert_run(
    rt: &(impl Abort + Threads + Sync),
    alloc: Global,
    words: &[&str],
    input: &str,
    failing_writes: &[u32],
    expected: Status,
    sizes: &[usize],
    text: &str,
) -> MemStore {
    let failing = ([].as_slice(), failing_writes);
    let (store, sink) = run(rt, alloc, words, input.as_bytes(), failing, expected);
    assert_eq!(rt; store.files().len(), sizes.len());
    for (file, size) in store.files().iter().zip(sizes) {
        assert_eq!(rt; file.bytes.len(), *size);
    }
    assert!(rt; sink.bytes() == text.as_bytes());
    store
}

/// A scenario with one part replaced.
pub fn changed(rt: &impl Abort, alloc: Global, scenario: &str, old: &str, new: &str) -> String {
    scenario.replace(alloc, old, new).expect(rt, "memory")
}
