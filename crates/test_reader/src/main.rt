//! What the scenario reader answers to changes of one document, read from standard input: the document
//! to a line `====`, and then a change a line. `OLD => NEW` puts NEW in the place of the first OLD, and
//! `COUNT times TEXT` puts so many copies of TEXT behind the document, each on a line of its own. In OLD
//! and NEW ` & ` begins a new line.
#![tactic(auto)]

use anyhow::Result;
use scenario_form::{ReadStop, Refusal, read_scenario};
use std::alloc::{AllocError, Global};

/// A text with a line feed for each ` & `.
fn lines_of(alloc: Global, text: &str) -> Result<String, AllocError> {
    let mut lines = String::new(alloc);
    for (number, line) in text.split(" & ").enumerate() {
        if number > 0 {
            lines.push_str("\n")?;
        }
        lines.push_str(line)?;
    }
    Ok(lines)
}

/// A text with `new` for the first `old`, or none where it has no `old`.
fn replaced(alloc: Global, text: &str, old: &str, new: &str) -> Result<Option<String>, AllocError> {
    match text.split_once(old) {
        Some((before, behind)) => Ok(Some(format!(in alloc; "{before}{new}{behind}")?)),
        None => Ok(None),
    }
}

/// A text with so many lines more.
fn extended(alloc: Global, text: &str, count: u32, line: &str) -> Result<String, AllocError> {
    let mut extended = String::new(alloc);
    extended.push_str(text)?;
    for _ in 0..count {
        extended.push_str(line)?;
        extended.push_str("\n")?;
    }
    Ok(extended)
}

/// The document with a change, or none where the change can't be made.
fn changed(alloc: Global, document: &str, change: &str) -> Result<Option<String>, AllocError> {
    if let Some((old, new)) = change.split_once(" => ") {
        let old = lines_of(alloc, old)?;
        let new = lines_of(alloc, new)?;
        return replaced(alloc, document, old.as_str(), new.as_str());
    }
    if let Some((count, line)) = change.split_once(" times ") {
        if let Ok(count) = count.parse::<u32>() {
            return Ok(Some(extended(alloc, document, count, line)?));
        }
    }
    Ok(None)
}

/// `accepted`, or the refusal as a fault line writes it.
fn answer(alloc: Global, document: &str) -> Result<String, AllocError> {
    match read_scenario(alloc, document.as_bytes()) {
        Ok(_) => format!(in alloc; "accepted"),
        Err(ReadStop::Refused(Refusal::Schema { place, code })) => {
            let (section, index, field) = (place.section, place.index, place.field);
            format!(in alloc; "{section} {index} {field} {code:?}")
        }
        Err(ReadStop::Refused(Refusal::TooLong { .. })) => format!(in alloc; "TooLong"),
        Err(ReadStop::Refused(Refusal::NotToml)) => format!(in alloc; "NotToml"),
        Err(ReadStop::NoMemory) => Err(AllocError),
    }
}

/// The answer to the document with a change.
fn answer_to(alloc: Global, document: &str, change: &str) -> Result<String, AllocError> {
    match changed(alloc, document, change)? {
        Some(text) => answer(alloc, text.as_str()),
        None => format!(in alloc; "no such text"),
    }
}

fn main(rt: HostRuntime) -> Result<()> {
    let alloc = rt.alloc();
    let mut document = String::new(alloc);
    let mut complete = false;
    for line in rt.lines(alloc) {
        let line = line?;
        if complete {
            let answer = answer_to(alloc, document.as_str(), line.as_str())?;
            println!(rt; "{line}: {answer}")?;
        } else if line.as_str() == "====" {
            complete = true;
        } else {
            document.push_str(line.as_str())?;
            document.push_str("\n")?;
        }
    }
    Ok(())
}
