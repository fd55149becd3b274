//! Routes: what a route's table says, and its own checks.
ghost use Rattle.std.specs.Prelude.{◌≡◌};
ghost use Rattle.toml.specs.View.{table_view};
ghost use Rattle.scenario_form.specs.Tables.{route_of, route_own_check, route_reading};

use crate::field::{Code, Fault};
use crate::fields::route_fields;
use crate::network::host_part;
use crate::scenario::{Route, Routing};
use crate::table::check_table;
use crate::values::{address_or_zero, node_at, number_or};
use toml::Table;

fn route_of(table: &Table) -> Route
    ensures { result ≡ route_of (table_view table.now) }
{
    Route {
        node: node_at(table, "node"),
        dest: address_or_zero(table, "dest"),
        prefix: number_or(table, "prefix", 0),
        via: address_or_zero(table, "via"),
    }
}

fn check_own(routing: Routing, route: &Route) -> Result<(), Fault>
    ensures { result ≡ route_own_check routing route.now }
{
    match routing {
        Routing::Auto => Err(Fault {
            field: 0,
            code: Code::Conflict,
        }),
        Routing::Static if host_part(route.prefix, route.dest) == 0 => Ok(()),
        Routing::Static => Err(Fault {
            field: 2,
            code: Code::Subnet,
        }),
    }
}

/// Reads a route's table: the route, or the first refusal.
pub fn read_route(table: &Table, nodes: u32, routing: Routing) -> Result<Route, Fault>
    ensures { result ≡ route_reading nodes routing (table_view table.now) }
{
    check_table(table, route_fields(), nodes)?;
    let route = route_of(table);
    check_own(routing, &route)?;
    Ok(route)
}
