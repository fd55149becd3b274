//! A command is a call of the connection.

ghost use Rattle.std.specs.Prelude.{◌≤◌, ◌^◌, IfOk, IfSome};
ghost use Rattle.tcp_conn.specs.Fits.{Fits};

use crate::command::Command;
use sim_base::{NoMemory, Time};
use std::alloc::Global;
use tcp_conn::{Connection, Effect};

/// Plays a command on a connection, if one was begun.
pub fn play(
    alloc: Global,
    connection: Option<Connection>,
    command: Command,
    out: &mut Vec<Effect>,
) -> Result<Option<Connection>, NoMemory>
    requires { IfSome connection (λ c. Fits c) }
    ensures { IfOk result (λ connection. IfSome connection (λ c. Fits c)) }
{
    match command {
        Command::Open { now, mss } => {
            let connection = Connection::open(alloc, at(now), mss.clamp(64, 9000), out)?;
            Ok(Some(connection))
        }
        Command::Accept { now } => {
            let connection = Connection::accept(alloc, at(now), out)?;
            Ok(Some(connection))
        }
        command => match connection {
            Some(connection) => {
                let connection = go_on(alloc, connection, command, out)?;
                Ok(Some(connection))
            }
            None => Ok(None),
        },
    }
}

fn go_on(
    alloc: Global,
    mut connection: Connection,
    command: Command,
    out: &mut Vec<Effect>,
) -> Result<Connection, NoMemory>
    requires { Fits connection }
    ensures { IfOk result (λ c. Fits c) }
{
    match command {
        Command::Hears { now, heard, bytes } => {
            let bytes = vec![in alloc; 0; usize::from(bytes)]?;
            connection.hears(alloc, at(now), &heard, &bytes, out)?;
        }
        Command::TimesOut { now } => connection.times_out(alloc, at(now), out)?,
        Command::Write { now, bytes } => {
            let bytes = vec![in alloc; 0; usize::from(bytes)]?;
            connection.write(at(now), &bytes, out)?;
        }
        Command::Close { now } => connection.close(at(now), out)?,
        _ => {}
    }
    Ok(connection)
}

/// A time in milliseconds.
fn at(now: u32) -> Time
    ensures { result.0 ≤ 2 ^ 60 }
{
    Time(u64::from(now) * 1_000_000)
}
