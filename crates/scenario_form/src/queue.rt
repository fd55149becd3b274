//! The queue disc of a link or a LAN.
ghost use Rattle.std.specs.Prelude.{◌≡◌};
ghost use Rattle.toml.specs.View.{table_view};
ghost use Rattle.scenario_form.specs.Tables.{queue_of, queue_at, tbf_check};

use crate::field::{Code, Fault};
use crate::scenario::Queue;
use crate::values::text_or;
use sim_base::Rate;
use toml::Table;

fn queue_of(text: &str) -> Queue
    ensures { result ≡ queue_of text.now }
{
    if text == "prio" {
        Queue::Prio
    } else if text == "tbf" {
        Queue::Tbf
    } else {
        Queue::Fifo
    }
}

/// The queue disc of a table.
pub fn queue_at(table: &Table) -> Queue
    ensures { result ≡ queue_at (table_view table.now) }
{
    queue_of(text_or(table, "queue", "fifo"))
}

/// The keys of the token bucket stand where it is the queue, and nowhere else; a burst holds a whole frame.
pub fn check_tbf(
    at_rate: u8,
    at_burst: u8,
    queue: Queue,
    rate: Option<Rate>,
    burst: Option<u64>,
    mtu: u64,
) -> Result<(), Fault>
    ensures { result ≡ tbf_check at_rate at_burst queue rate burst mtu }
{
    match queue {
        Queue::Tbf => check_bucket(at_rate, at_burst, rate, burst, mtu),
        Queue::Fifo | Queue::Prio => check_no_bucket(at_rate, at_burst, rate, burst),
    }
}

fn check_bucket(
    at_rate: u8,
    at_burst: u8,
    rate: Option<Rate>,
    burst: Option<u64>,
    mtu: u64,
) -> Result<(), Fault>
    ensures { result ≡ tbf_check at_rate at_burst Queue.Tbf rate burst mtu }
{
    if rate.is_none() {
        return Err(Fault {
            field: at_rate,
            code: Code::Missing,
        });
    }
    match burst {
        None => Err(Fault {
            field: at_burst,
            code: Code::Missing,
        }),
        Some(burst) if burst < 18 || burst - 18 < mtu => Err(Fault {
            field: at_burst,
            code: Code::Burst,
        }),
        Some(_) => Ok(()),
    }
}

fn check_no_bucket(
    at_rate: u8,
    at_burst: u8,
    rate: Option<Rate>,
    burst: Option<u64>,
) -> Result<(), Fault>
    ensures { result ≡ tbf_check at_rate at_burst Queue.Fifo rate burst 0 }
{
    if rate.is_some() {
        return Err(Fault {
            field: at_rate,
            code: Code::Conflict,
        });
    }
    if burst.is_some() {
        return Err(Fault {
            field: at_burst,
            code: Code::Conflict,
        });
    }
    Ok(())
}
