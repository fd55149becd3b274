//! From the bytes of a document to its scenario.
ghost use Rattle.std.specs.Prelude.{◌≡◌, ◌≤◌, length, option_map, Ok, IfOk, OnOk, IfErr};
ghost use Rattle.toml.specs.View.{table_view};
ghost use Rattle.scenario_form.specs.Reading.{document_of, scenario_limit, scenario_of};
ghost use Rattle.scenario_form.specs.Groups.{groups_check};
ghost use Rattle.scenario_form.specs.Limits.{IsWithinLimits};
ghost use Rattle.scenario_form.specs.Answers.{Answers, IsRefusalOf};

use crate::document::read_document;
use crate::refusal::{ReadStop, Refusal, Stop};
use crate::scenario::Scenario;
use sim_base::NoMemory;
use std::alloc::Global;
use toml::Table;

/// No scenario has more bytes.
pub const SCENARIO_LIMIT: usize = 16_777_216;

/// Reads a scenario: what the bytes of a TOML document say, with defaults filled in, or the first
/// refusal.
///
/// `TooLong` comes where there are more than 16,777,216 bytes, `NotToml` where the bytes are no TOML
/// document, and `Schema` where the document isn't a scenario. Every scenario is within the limits, and
/// its groups, if it has any, are an allowed cut of its network.
pub fn read_scenario(alloc: Global, bytes: &[u8]) -> Result<Scenario, ReadStop>
    ensures ok { IfOk result (λ s. scenario_of bytes.now ≡ Ok s) }
    ensures short { OnOk result (length bytes.now ≤ scenario_limit) }
    ensures accepted { IfOk result IsWithinLimits }
    ensures cut { IfOk result (λ s. groups_check s ≡ Ok tt) }
    ensures refused { IfErr result (IsRefusalOf (scenario_of bytes.now)) }
{
    match read_bytes(alloc, bytes) {
        Ok(scenario) => Ok(scenario),
        Err(Stop::Refused(refusal)) => Err(ReadStop::Refused(refusal)),
        Err(Stop::NoMemory) => Err(ReadStop::NoMemory),
    }
}

/// The document of bytes that are text, or none.
#[tactic(auto, unfolding(crate::specs::Reading::document_of))]
pub fn document_of(alloc: Global, bytes: &[u8]) -> Result<Option<Table>, NoMemory>
    ensures { IfOk result (λ table. option_map table_view table ≡ document_of bytes.now) }
{
    let Ok(text) = str::from_utf8(bytes) else {
        return Ok(None);
    };
    match toml::table_from_str(alloc, text) {
        Ok(table) => Ok(Some(table)),
        Err(error) => {
            if error.is_memory() {
                Err(NoMemory)
            } else {
                Ok(None)
            }
        }
    }
}

/// The scenario of bytes, or why a part of the reader stopped.
#[tactic(auto, unfolding(crate::specs::Reading::scenario_of))]
fn read_bytes(alloc: Global, bytes: &[u8]) -> Result<Scenario, Stop<Refusal>>
    ensures value { Answers result (scenario_of bytes.now) }
    ensures short { OnOk result (length bytes.now ≤ scenario_limit) }
{
    if bytes.len() > SCENARIO_LIMIT {
        return Err(Stop::Refused(Refusal::TooLong {
            taken: SCENARIO_LIMIT as u64 + 1,
        }));
    }
    match document_of(alloc, bytes) {
        Err(NoMemory) => Err(Stop::NoMemory),
        Ok(None) => Err(Stop::Refused(Refusal::NotToml)),
        Ok(Some(document)) => read_document(alloc, &document),
    }
}
