//! What windows on a block, the pool and buffers answer to worked calls, a line for each call.
#![tactic(auto)]

mod buffers;
mod windows;

use std::alloc::{AllocError, Global};

fn lines(alloc: Global) -> Result<Vec<String>, AllocError> {
    let mut lines = Vec::new(alloc);
    windows::room(alloc, &mut lines)?;
    windows::copies(alloc, &mut lines)?;
    windows::pool(alloc, &mut lines)?;
    buffers::zeros(alloc, &mut lines)?;
    buffers::copies(alloc, &mut lines)?;
    buffers::joined_zeros(alloc, &mut lines)?;
    Ok(lines)
}

fn main(rt: HostRuntime) -> anyhow::Result<()> {
    let lines = lines(rt.alloc())?;
    for line in &lines {
        println!(rt; "{line}")?;
    }
    Ok(())
}
