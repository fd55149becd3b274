//! Times the queue of pending events under load: `bench_queue queue HELD OPERATIONS` fills it with HELD
//! events and then OPERATIONS times takes the least event and schedules another, and writes a digest of
//! the keys and loads that it took. `bench_queue heap HELD OPERATIONS` does the same over a heap of whole events,
//! which moves the loads, and writes the same digest.
#![tactic(auto)]

mod event;
mod hold;

use anyhow::{Context, Result, bail};
use std::env;

fn main(rt: HostRuntime) -> Result<()> {
    let mut words = env::args(&rt)?;
    let _program = words.next();
    let what = words.next().context("queue or heap is missing")?;
    let held = words.next().context("HELD is missing")?;
    let held = held.as_str().parse::<u32>().context("HELD")?;
    let operations = words.next().context("OPERATIONS is missing")?;
    let operations = operations.as_str().parse::<u32>().context("OPERATIONS")?;
    let digest = match what.as_str() {
        "queue" => hold::in_queue(rt.alloc(), held, operations)
            .ok()
            .context("no memory")?,
        "heap" => hold::in_heap(rt.alloc(), held, operations)
            .ok()
            .context("no memory")?,
        _ => bail!("neither queue nor heap"),
    };
    println!(rt; "digest {digest:016x}")?;
    Ok(())
}
