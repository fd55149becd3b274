//! The program: it reads a scenario from standard input. `run` runs it, and writes its captures and its
//! text trace into the working folder and its summary to standard output; `check` writes its sizes.
//! `demo` runs a scenario of its own. `show` reads a capture, and writes its listing.
//! Where something stops it, it writes one line that says what, and ends with a status other than 0.
#![tactic(auto)]

use outside::{FolderStore, OpenGate, StdinSource, StdoutSink};
use shared_packet::SharedPkt;
use sim_base::{NodeId, Time};
use sim_run::{Code, Refusal, Status, WordCode, WordFault, run_program};
use std::fs::File;
use std::process::ExitCode;
use std::thread::Threads;
use std::{env, io};

/// How many words of the command line are looked at.
const WORDS: usize = 1000;

/// The words of the command line behind the program's name. Words that are not UTF-8 are a faulty
/// command line.
fn words(rt: &HostRuntime) -> Result<Vec<String>, Status> {
    let args = match env::args(rt) {
        Ok(args) => args,
        Err(error) => return Err(status_of(&error)),
    };
    let mut words = Vec::new(rt.alloc());
    for word in args.skip(1) {
        if words.push(word).is_err() {
            return Err(Status::NoMemory);
        }
    }
    Ok(words)
}

/// What stops the program where its command line can't be read.
fn status_of(error: &io::Error) -> Status {
    if error.kind() == io::ErrorKind::OutOfMemory {
        return Status::NoMemory;
    }
    Status::Words(WordFault {
        place: 1,
        code: WordCode::UnknownCommand,
    })
}

/// Runs the program over the real input, folder and output. `threads` is the leave to start workers.
fn run<R: Threads + Sync>(threads: &R, rt: &HostRuntime) -> Status {
    let words = match words(rt) {
        Ok(words) => words,
        Err(status) => return status,
    };
    let Ok(folder) = rt.clone() else {
        return Status::NoMemory;
    };
    let mut source = StdinSource::new(rt.stdin());
    let mut store = FolderStore::new(rt.alloc(), folder);
    let mut sink = StdoutSink::new(rt.stdout());
    run_program::<SharedPkt, R, _, _, _, _>(
        threads,
        rt.alloc(),
        &words[..words.len().min(WORDS)],
        &mut source,
        &mut store,
        &mut sink,
        &OpenGate,
    )
}

/// Writes the line that says what stopped the program, if anything did.
fn write_fault_line(rt: &HostRuntime, status: Status) -> io::Result<()> {
    match status {
        Status::Done => Ok(()),
        Status::Words(WordFault { place, code }) => {
            let name = code_name(code);
            println!(rt; "words {place} {name}")
        }
        Status::Scenario(refusal) => write_refusal_line(rt, refusal),
        Status::ReadFault => println!(rt; "read fault"),
        Status::WriteFault => println!(rt; "write fault"),
        Status::Limit {
            node: NodeId(node),
            time: Time(time),
        } => println!(rt; "limit node {node} time {time}"),
        Status::NoMemory => println!(rt; "no memory"),
        Status::Capture { offset } => println!(rt; "capture {offset}"),
    }
}

fn code_name(code: WordCode) -> &'static str {
    match code {
        WordCode::NoCommand => "NoCommand",
        WordCode::UnknownCommand => "UnknownCommand",
        WordCode::NoValue => "NoValue",
        WordCode::UnknownKey => "UnknownKey",
        WordCode::Repeat => "Repeat",
        WordCode::BadValue => "BadValue",
        WordCode::MissingKey => "MissingKey",
    }
}

/// Writes the line of a refused scenario: where the first refusal is, and why.
fn write_refusal_line(rt: &HostRuntime, refusal: Refusal) -> io::Result<()> {
    match refusal {
        Refusal::TooLong { taken: _ } => println!(rt; "scenario TooLong"),
        Refusal::NotToml => println!(rt; "scenario NotToml"),
        Refusal::Schema { place, code } => {
            let section = place.section;
            let index = place.index;
            let field = place.field;
            let name = refusal_name(code);
            match refusal_number(code) {
                None => println!(rt; "scenario {section} {index} {field} {name}"),
                Some(number) => println!(rt; "scenario {section} {index} {field} {name} {number}"),
            }
        }
    }
}

fn refusal_name(code: Code) -> &'static str {
    match code {
        Code::Unknown => "Unknown",
        Code::Missing => "Missing",
        Code::WrongType => "WrongType",
        Code::Range => "Range",
        Code::Address => "Address",
        Code::Same => "Same",
        Code::Length => "Length",
        Code::Subnet => "Subnet",
        Code::Conflict => "Conflict",
        Code::Burst => "Burst",
        Code::Twice => "Twice",
        Code::NoNeighbour => "NoNeighbour",
        Code::Own => "Own",
        Code::NoInterface => "NoInterface",
        Code::GroupTwice { .. } => "GroupTwice",
        Code::GroupMissing { .. } => "GroupMissing",
        Code::Lan { .. } => "Lan",
        Code::ZeroDelay { .. } => "ZeroDelay",
    }
}

/// The number of the node, the LAN or the link that a refusal of groups names.
fn refusal_number(code: Code) -> Option<u32> {
    match code {
        Code::GroupTwice { node } | Code::GroupMissing { node } => Some(node),
        Code::Lan { lan } => Some(lan),
        Code::ZeroDelay { link } => Some(link),
        _ => None,
    }
}

/// The exit status of a run.
fn exit_code(status: Status) -> u8 {
    match status {
        Status::Done => 0,
        Status::Words(_) => 1,
        Status::Scenario(_) => 2,
        Status::ReadFault => 3,
        Status::WriteFault => 4,
        Status::Limit { .. } => 5,
        Status::NoMemory => 6,
        Status::Capture { .. } => 7,
    }
}

/// Takes a descriptor that is free. Where the process was started with a closed standard stream, this
/// stands in its place, so that no file of the run does: reading it gives nothing, and writing fails.
fn held_descriptor(rt: &HostRuntime) -> io::Result<File> {
    File::open(rt, "/dev/null")
}

/// A fault line that can't be written is a write fault.
fn main(rt: HostRuntime) -> ExitCode {
    let _held = (
        held_descriptor(&rt),
        held_descriptor(&rt),
        held_descriptor(&rt),
    );
    let status = run(&rt, &rt);
    let status = match write_fault_line(&rt, status) {
        Ok(()) => status,
        Err(_) => Status::WriteFault,
    };
    ExitCode::from(exit_code(status))
}
