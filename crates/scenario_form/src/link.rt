//! Links: what a link's table says, and its own checks.
ghost use Rattle.std.specs.Prelude.{◌≡◌};
ghost use Rattle.toml.specs.View.{table_view};
ghost use Rattle.scenario_form.specs.Tables.{link_of, link_own_check, link_reading};

use crate::field::{Code, Fault};
use crate::fields::link_fields;
use crate::network::share_network;
use crate::queue::{check_tbf, queue_at};
use crate::scenario::Link;
use crate::table::check_table;
use crate::values::{address_or_zero, flag_or_false, node_at, number_at, number_or, rate_at};
use sim_base::{Rate, Time};
use toml::Table;

/// What a link's table says, with defaults filled in.
fn link_of(table: &Table) -> Link
    ensures { result ≡ link_of (table_view table.now) }
{
    Link {
        a: node_at(table, "a"),
        b: node_at(table, "b"),
        a_addr: address_or_zero(table, "a_addr"),
        b_addr: address_or_zero(table, "b_addr"),
        prefix: number_or(table, "prefix", 24),
        rate_bps: Rate(number_or(table, "rate_bps", 0)),
        delay_ns: Time(number_or(table, "delay_ns", 0)),
        mtu: number_or(table, "mtu", 1500),
        cost: number_or(table, "cost", 1),
        queue: queue_at(table),
        limit: number_or(table, "limit", 100),
        tbf_bps: rate_at(table, "tbf_bps"),
        tbf_burst: number_at(table, "tbf_burst"),
        pcap: flag_or_false(table, "pcap"),
    }
}

fn check_own(link: &Link) -> Result<(), Fault>
    ensures { result ≡ link_own_check link.now }
{
    if link.a.0 == link.b.0 {
        return Err(Fault {
            field: 2,
            code: Code::Same,
        });
    }
    if !share_network(link.prefix, link.a_addr, link.b_addr) {
        return Err(Fault {
            field: 3,
            code: Code::Subnet,
        });
    }
    check_tbf(12, 13, link.queue, link.tbf_bps, link.tbf_burst, link.mtu)
}

/// Reads a link's table: the link, or the first refusal.
pub fn read_link(table: &Table, nodes: u32) -> Result<Link, Fault>
    ensures { result ≡ link_reading nodes (table_view table.now) }
{
    check_table(table, link_fields(), nodes)?;
    let link = link_of(table);
    check_own(&link)?;
    Ok(link)
}
