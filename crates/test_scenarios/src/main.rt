//! What the program answers to scenarios, over files in memory. Standard input has rows: a line `=== COMMAND SHOWN FAILS: TITLE`, and
//! behind it a scenario. SHOWN says how many of the first bytes of each captured packet are written, and FAILS which call of
//! the store fails (0: none). Of each row stand in the output its title, the answer, the files with what was captured and told, and the text.
#![tactic(auto)]

mod capture;
mod row;

use anyhow::{Context, Result};
use outside::{File, MemSink, MemSource, MemStore, OpenGate};
use pkt_face::PlainPkt;
use row::Row;
use sim_run::{Status, run_program};
use std::alloc::Global;
use std::io;
use std::thread::Threads;

/// What a row leaves.
#[derive(Drop)]
struct Ran {
    status: Status,
    store: MemStore,
    sink: MemSink,
}

/// Runs a row.
fn run(threads: &(impl Threads + Sync), alloc: Global, row: &Row) -> Result<Ran> {
    let words = vec![in alloc; String::from_str(alloc, row.command)?]?;
    let mut source = MemSource::make(alloc, row.scenario.as_bytes(), &[])
        .ok()
        .context("no memory")?;
    let mut store = MemStore::make(alloc, &[row.fails])
        .ok()
        .context("no memory")?;
    let mut sink = MemSink::make(alloc, &[]).ok().context("no memory")?;
    let status = run_program::<PlainPkt, _, MemSource, MemStore, MemSink, OpenGate>(
        threads,
        alloc,
        &words,
        &mut source,
        &mut store,
        &mut sink,
        &OpenGate,
    );
    Ok(Ran {
        status,
        store,
        sink,
    })
}

/// What a file holds: the packets of a capture, or the lines of the text trace.
fn content(alloc: Global, name: &str, bytes: &[u8], shown: usize) -> Result<String> {
    if name.ends_with(".pcap") {
        return capture::text(alloc, bytes, shown);
    }
    let lines = String::from_utf8(Vec::from_slice(alloc, bytes)?)
        .ok()
        .context("a text trace is UTF-8")?;
    Ok(lines)
}

/// A file's name and length, and what it holds.
fn file_text(alloc: Global, file: &File, shown: usize) -> Result<String> {
    let name = String::from_utf8(Vec::from_slice(alloc, file.name.as_slice())?)
        .ok()
        .context("a name is UTF-8")?;
    let length = file.bytes.as_slice().len();
    let content = content(alloc, name.as_str(), file.bytes.as_slice(), shown)?;
    Ok(format!(in alloc; "{name} {length} bytes\n{content}")?)
}

fn main(rt: HostRuntime) -> Result<()> {
    let alloc = rt.alloc();
    let rows = io::read_to_string(alloc, rt.stdin())?;
    for text in rows.as_str().split("=== ").skip(1) {
        let row = row::read(text).context("a row begins with COMMAND SHOWN FAILS: TITLE")?;
        let title = row.title;
        let Ran {
            status,
            store,
            sink,
        } = run(&rt, alloc, &row)?;
        println!(rt; "{title}: {status:?}")?;
        for file in store.files() {
            let said = file_text(alloc, file, row.shown)?;
            print!(rt; "{said}")?;
        }
        let said = String::from_utf8(Vec::from_slice(alloc, sink.bytes())?)
            .ok()
            .context("a text is UTF-8")?;
        println!(rt; "{said}")?;
    }
    Ok(())
}
