//! Plays what happens to one end of a connection: each line of standard input is a call, and what the connection asks for
//! then is written behind it. The lines:
//!
//!     open NOW MSS                            an opener begins
//!     accept NOW                              a sink answers its first SYN
//!     hears NOW FLAGS SEQ ACK MSS BYTES       a segment comes, with the flags S, A, F and R or - for none; MSS 0 is none
//!     times_out NOW                           the timer fires
//!     write NOW BYTES
//!     close NOW
#![tactic(auto)]

mod command;
mod play;
mod text;

use anyhow::{Result, bail};

fn main(rt: HostRuntime) -> Result<()> {
    let alloc = rt.alloc();
    let mut connection = None;
    for line in rt.lines(alloc) {
        let line = line?;
        println!(rt; "{line}")?;
        let mut effects = Vec::new(alloc);
        if let Some(command) = command::read(line.as_str())? {
            let Ok(next) = play::play(alloc, connection, command, &mut effects) else {
                bail!("no memory");
            };
            connection = next;
        }
        let text = text::of_all(alloc, &effects)?;
        print!(rt; "{text}")?;
    }
    Ok(())
}
