//! What the capture reader answers to files and to changes of them, read from standard input. A line
//! `file HEX` gives a file, and the lines behind it speak of that: `whole` reads it, `put PLACE HEX`
//! with other bytes at a place, `first COUNT` its first bytes alone, and `cuts` each of its beginnings,
//! of which those are told that aren't refused at their end. Any other line is written as it stands.
#![tactic(auto)]

use anyhow::Result;
use capture_text::listing;
use pcap_form::{CaptureStop, read_capture};
use std::alloc::{AllocError, Global};

/// The listing with ` | ` between its lines, or where the bytes leave the format.
fn answer(alloc: Global, bytes: &[u8]) -> Result<String, AllocError> {
    match read_capture(alloc, bytes) {
        Ok(capture) => {
            let Ok(text) = listing(alloc, &capture) else {
                return Err(AllocError);
            };
            let mut lines = String::new(alloc);
            for line in String::from_utf8_lossy(alloc, &text)?.as_str().lines() {
                if !lines.is_empty() {
                    lines.push_str(" | ")?;
                }
                lines.push_str(line)?;
            }
            Ok(lines)
        }
        Err(CaptureStop::Bad { offset }) => format!(in alloc; "capture {offset}"),
        Err(CaptureStop::NoMemory) => Err(AllocError),
    }
}

/// A file with other bytes at a place, as far as it goes.
fn changed(alloc: Global, file: &[u8], place: usize, bytes: &[u8]) -> Result<Vec<u8>, AllocError> {
    let mut changed = Vec::from_slice(alloc, file)?;
    for (byte, to) in bytes.iter().zip(changed.iter_mut().skip(place)) {
        *to = *byte;
    }
    Ok(changed)
}

/// The answer to a file's beginning.
fn answer_to_first(alloc: Global, file: &[u8], count: usize) -> Result<String, AllocError> {
    answer(alloc, &file[..count.min(file.len())])
}

fn write_cuts(rt: &HostRuntime, file: &[u8]) -> Result<()> {
    let alloc = rt.alloc();
    for count in 0..file.len() {
        let refused = format!(in alloc; "capture {count}")?;
        let answer = answer_to_first(alloc, file, count)?;
        if answer.as_str() != refused.as_str() {
            println!(rt; "first {count}: {answer}")?;
        }
    }
    let count = file.len();
    println!(rt; "cuts: {count} beginnings")?;
    Ok(())
}

/// Writes what a line asks for, and the answer.
fn write_answer(rt: &HostRuntime, file: &[u8], line: &str) -> Result<()> {
    let alloc = rt.alloc();
    if line == "whole" {
        let answer = answer(alloc, file)?;
        println!(rt; "whole: {answer}")?;
    } else if line == "cuts" {
        write_cuts(rt, file)?;
    } else if let Some(count) = line.strip_prefix("first ") {
        let count = count.parse::<usize>()?;
        let answer = answer_to_first(alloc, file, count)?;
        println!(rt; "{line}: {answer}")?;
    } else if let Some(change) = line.strip_prefix("put ") {
        if let Some((place, digits)) = change.split_once(" ") {
            let place = place.parse::<usize>()?;
            let bytes = hex::decode(alloc, digits)?;
            let changed = changed(alloc, file, place, &bytes)?;
            let answer = answer(alloc, &changed)?;
            println!(rt; "{line}: {answer}")?;
        }
    } else {
        println!(rt; "{line}")?;
    }
    Ok(())
}

fn main(rt: HostRuntime) -> Result<()> {
    let alloc = rt.alloc();
    let mut file = Vec::new(alloc);
    for line in rt.lines(alloc) {
        let line = line?;
        if let Some(digits) = line.as_str().strip_prefix("file ") {
            file = hex::decode(alloc, digits)?;
        } else {
            write_answer(&rt, &file, line.as_str())?;
        }
    }
    Ok(())
}
