//! LANs: what a LAN's table says, and its own checks.
ghost use Rattle.std.specs.Prelude.{◌≡◌, IfOk, not, ◌==◌};
ghost use Rattle.std.specs.List.{list_any};
ghost use Rattle.toml.specs.View.{table_view};
ghost use Rattle.scenario_form.specs.Tables.{are_distinct, lan_of, lan_own_check, lan_reading};
ghost use Rattle.scenario_form.specs.Answers.{Answers};

use crate::field::{Code, Fault};
use crate::fields::lan_fields;
use crate::network::all_share_network;
use crate::queue::{check_tbf, queue_at};
use crate::refusal::Stop;
use crate::scenario::Lan;
use crate::table::check_table;
use crate::values::{
    addresses_in, flag_or_false, nodes_in, number_at, number_or, rate_at, values_at,
};
use sim_base::{NodeId, Rate, Sequence, Time};
use std::alloc::{AllocError, Global};
use toml::Table;

/// What a LAN's table says, with defaults filled in.
fn lan_of(alloc: Global, table: &Table) -> Result<Lan, AllocError>
    ensures { IfOk result (λ l. l ≡ lan_of (table_view table.now)) }
{
    let members = nodes_in(alloc, values_at(table, "members"))?;
    let addrs = addresses_in(alloc, values_at(table, "addrs"))?;
    Ok(Lan {
        members: Sequence::from_vec(members),
        addrs: Sequence::from_vec(addrs),
        prefix: number_or(table, "prefix", 24),
        rate_bps: Rate(number_or(table, "rate_bps", 0)),
        delay_ns: Time(number_or(table, "delay_ns", 0)),
        mtu: number_or(table, "mtu", 1500),
        cost: number_or(table, "cost", 1),
        queue: queue_at(table),
        limit: number_or(table, "limit", 100),
        tbf_bps: rate_at(table, "tbf_bps"),
        tbf_burst: number_at(table, "tbf_burst"),
        pcap: flag_or_false(table, "pcap"),
    })
}

fn has(numbers: &[NodeId], number: NodeId) -> bool
    ensures { result ≡ list_any (λ m. m.0 == number.0) numbers.now }
{
    numbers.iter().any(|m| m.0 == number.0)
}

/// Whether no number stands twice.
fn are_distinct(numbers: &[NodeId]) -> bool
    ensures { result ≡ are_distinct numbers.now }
{
    for (i, number) in numbers.iter().enumerate() {
        if has(&numbers[i + 1..], *number) {
            return false;
        }
    }
    true
}

fn check_own(lan: &Lan) -> Result<(), Fault>
    ensures { result ≡ lan_own_check lan.now }
{
    if !are_distinct(lan.members.as_slice()) {
        return Err(Fault {
            field: 1,
            code: Code::Same,
        });
    }
    if lan.addrs.len() != lan.members.len() {
        return Err(Fault {
            field: 2,
            code: Code::Length,
        });
    }
    if !all_share_network(lan.prefix, lan.addrs.as_slice()) {
        return Err(Fault {
            field: 2,
            code: Code::Subnet,
        });
    }
    check_tbf(10, 11, lan.queue, lan.tbf_bps, lan.tbf_burst, lan.mtu)
}

/// Reads a LAN's table: the LAN, or the first refusal.
pub fn read_lan(alloc: Global, table: &Table, nodes: u32) -> Result<Lan, Stop<Fault>>
    ensures { Answers result (lan_reading nodes (table_view table.now)) }
{
    if let Err(fault) = check_table(table, lan_fields(), nodes) {
        return Err(Stop::Refused(fault));
    }
    let lan = match lan_of(alloc, table) {
        Ok(lan) => lan,
        Err(_) => return Err(Stop::NoMemory),
    };
    match check_own(&lan) {
        Ok(()) => Ok(lan),
        Err(fault) => Err(Stop::Refused(fault)),
    }
}
