//! Losses: what a loss's table says, and its own check.
ghost use Rattle.std.specs.Prelude.{◌≡◌, IfOk, option_map};
ghost use Rattle.toml.specs.View.{table_view};
ghost use Rattle.scenario_form.specs.Values.{list_at, numbers_in};
ghost use Rattle.scenario_form.specs.Tables.{loss_of, loss_own_check, loss_reading};
ghost use Rattle.scenario_form.specs.Answers.{Answers};

use crate::field::{Code, Fault};
use crate::fields::loss_fields;
use crate::refusal::Stop;
use crate::scenario::Loss;
use crate::table::check_table;
use crate::values::{array_at, integer_or, node_at, number_at, numbers_in};
use sim_base::Sequence;
use std::alloc::{AllocError, Global};
use toml::Table;

fn frames_at(alloc: Global, table: &Table, key: &str) -> Result<Option<Sequence<u64>>, AllocError>
    ensures { IfOk result (λ f. f ≡ option_map numbers_in (list_at key.now (table_view table.now))) }
{
    match array_at(table, key) {
        Some(array) => {
            let numbers = numbers_in(alloc, array.as_slice())?;
            Ok(Some(Sequence::from_vec(numbers)))
        }
        None => Ok(None),
    }
}

/// What a loss's table says.
fn loss_of(alloc: Global, table: &Table) -> Result<Loss, AllocError>
    ensures { IfOk result (λ l. l ≡ loss_of (table_view table.now)) }
{
    let frames = frames_at(alloc, table, "frames")?;
    Ok(Loss {
        node: node_at(table, "node"),
        iface: integer_or(table, "iface", 0),
        frames,
        millionths: number_at(table, "millionths"),
    })
}

fn check_own(loss: &Loss) -> Result<(), Fault>
    ensures { result ≡ loss_own_check loss.now }
{
    if loss.frames.is_some() == loss.millionths.is_some() {
        Err(Fault {
            field: 4,
            code: Code::Conflict,
        })
    } else {
        Ok(())
    }
}

/// Reads a loss's table: the loss, or the first refusal.
pub fn read_loss(alloc: Global, table: &Table, nodes: u32) -> Result<Loss, Stop<Fault>>
    ensures { Answers result (loss_reading nodes (table_view table.now)) }
{
    if let Err(fault) = check_table(table, loss_fields(), nodes) {
        return Err(Stop::Refused(fault));
    }
    let loss = match loss_of(alloc, table) {
        Ok(loss) => loss,
        Err(_) => return Err(Stop::NoMemory),
    };
    match check_own(&loss) {
        Ok(()) => Ok(loss),
        Err(fault) => Err(Stop::Refused(fault)),
    }
}
