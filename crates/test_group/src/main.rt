//! Runs scenarios window by window, as a group of nodes in rounds is run: each window begins at the least event and is
//! as long as the links' delay. Standard input gives the scenarios, with a line `====` behind each; the program writes
//! the frames that each window saves, and what is counted at the end.
#![tactic(auto)]

mod rounds;
mod run;
mod text;
mod windows;

use anyhow::{Context, Result};

fn main(rt: HostRuntime) -> Result<()> {
    let alloc = rt.alloc();
    let mut document = String::new(alloc);
    for line in rt.lines(alloc) {
        let line = line?;
        if line.as_str() == "====" {
            let told = run::run(&rt, alloc, document.as_str())
                .ok()
                .context("no memory")?;
            print!(rt; "{told}")?;
            document = String::new(alloc);
        } else {
            document.push_str(line.as_str())?;
            document.push_str("\n")?;
        }
    }
    Ok(())
}
