//! Applications: what an application's table says.
ghost use Rattle.std.specs.Prelude.{◌≡◌, unwrap_or};
ghost use Rattle.toml.specs.View.{table_view};
ghost use Rattle.scenario_form.specs.Tables.{kind_of, other_kind_of, kind_at, app_of, app_reading};

use crate::field::Fault;
use crate::fields::app_fields;
use crate::scenario::{App, Kind};
use crate::table::check_table;
use crate::values::{address_at, node_at, number_at, number_or, rate_at, text_or, time_at};
use sim_base::Time;
use toml::Table;

fn kind_of(text: &str) -> Option<Kind>
    ensures { result ≡ kind_of text.now }
{
    if text == "udp-send" {
        Some(Kind::UdpSend)
    } else if text == "udp-echo-client" {
        Some(Kind::UdpEchoClient)
    } else if text == "udp-sink" {
        Some(Kind::UdpSink)
    } else if text == "udp-echo-server" {
        Some(Kind::UdpEchoServer)
    } else {
        other_kind_of(text)
    }
}

fn other_kind_of(text: &str) -> Option<Kind>
    ensures { result ≡ other_kind_of text.now }
{
    if text == "tcp-sink" {
        Some(Kind::TcpSink)
    } else if text == "on-off" {
        Some(Kind::OnOff)
    } else if text == "ping" {
        Some(Kind::Ping)
    } else if text == "tcp-bulk" {
        Some(Kind::TcpBulk)
    } else {
        None
    }
}

fn kind_at(table: &Table) -> Option<Kind>
    ensures { result ≡ kind_at (table_view table.now) }
{
    kind_of(text_or(table, "kind", ""))
}

fn kind_or_sink(kind: Option<Kind>) -> Kind
    ensures { result ≡ unwrap_or kind Kind.UdpSink }
{
    match kind {
        Some(kind) => kind,
        None => Kind::UdpSink,
    }
}

/// What an application's table says, with defaults filled in.
fn app_of(table: &Table) -> App
    ensures { result ≡ app_of (table_view table.now) }
{
    App {
        kind: kind_or_sink(kind_at(table)),
        node: node_at(table, "node"),
        port: number_at(table, "port"),
        dst: address_at(table, "dst"),
        start_ns: Time(number_or(table, "start_ns", 0)),
        count: number_or(table, "count", 1),
        interval_ns: Time(number_or(table, "interval_ns", 1_000_000_000)),
        size: number_or(table, "size", 512),
        priority: number_or(table, "priority", 0),
        rate_bps: rate_at(table, "rate_bps"),
        on_ns: time_at(table, "on_ns"),
        off_ns: time_at(table, "off_ns"),
        bytes: number_at(table, "bytes"),
        mss: number_or(table, "mss", 536),
    }
}

/// Reads an application's table: the application, or the first refusal.
pub fn read_app(table: &Table, nodes: u32) -> Result<App, Fault>
    ensures { result ≡ app_reading nodes (table_view table.now) }
{
    check_table(table, app_fields(kind_at(table)), nodes)?;
    Ok(app_of(table))
}
