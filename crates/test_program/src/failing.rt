//! A run whose store fails at one of its calls.

use crate::runs::{changed, run, run_with};
use crate::scenarios::ECHO;
use outside::OpenGate;
use pkt_face::PlainPkt;
use sim_run::Status;

/// How many calls the echo makes at its store: three make the files and two put the captures' heads. Then the lines of each of three
/// rounds, in each of which one node sends or gets a frame, are put into its capture and into the text trace.
const CALLS: u32 = 11;

/// Whichever call fails, each file has a beginning of what it has at the run's end, and there is no summary.
#[test]
fn a_store_that_fails_once_has_beginnings_of_the_files(rt: HostRuntime) {
    let alloc = rt.alloc();
    let input = changed(
        &rt,
        alloc,
        ECHO,
        "ascii = false",
        "ascii = true\ngroups = [[0], [1]]",
    );
    let words = ["run", "workers=4", "partition=file"];
    let bytes = input.as_bytes();
    let later = ([].as_slice(), [CALLS + 1].as_slice());
    let (plain, _) = run(&rt, alloc, words.as_slice(), bytes, later, Status::Done);
    for call in 1..=CALLS {
        let writes = [call];
        let failing = ([].as_slice(), writes.as_slice());
        let (status, store, sink) = run_with::<PlainPkt, _, _>(
            &rt,
            alloc,
            words.as_slice(),
            bytes,
            failing,
            &OpenGate,
        );
        assert_eq!(&rt; status, Status::WriteFault);
        assert!(&rt; sink.bytes().is_empty());
        assert!(&rt; store.files().len() <= plain.files().len());
        for (file, full) in store.files().iter().zip(plain.files()) {
            assert!(&rt; file.name.as_slice() == full.name.as_slice());
            assert!(&rt; full.bytes.as_slice().starts_with(file.bytes.as_slice()));
        }
    }
}
