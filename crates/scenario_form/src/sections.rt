//! The walk over the tables of each section.
ghost use Rattle.std.specs.Prelude.{◌≡◌, [], ◌∷◌, ◌++◌, map, length, vec_len, ◌+◌, ◌<◌, codes, IfOk, OnOk};
ghost use Rattle.toml.specs.View.{view, table_view};
ghost use Rattle.scenario_form.specs.Values.{tables_in, tables_at};
ghost use Rattle.scenario_form.specs.Tables.{link_of, link_check, lan_of, lan_check, route_of, route_check, app_of, app_check, loss_of, loss_check};
ghost use Rattle.scenario_form.specs.Walk.{refusal, section_check};
ghost use Rattle.scenario_form.specs.Answers.{Passes, stop_at};

use crate::app::read_app;
use crate::field::Fault;
use crate::lan::read_lan;
use crate::link::read_link;
use crate::loss::read_loss;
use crate::refusal::{Place, Refusal, Stop};
use crate::route::read_route;
use crate::scenario::{App, Lan, Link, Loss, Route, Routing};
use crate::values::values_at;
use std::alloc::{AllocError, Global};
use toml::{Table, Value};

/// The refusal of a fault in a table.
pub fn refusal(section: u8, index: usize, fault: Fault) -> Refusal
    requires { index < 4294967296 }
    ensures { result ≡ refusal section index fault }
{
    let place = Place {
        section,
        index: index as u32,
        field: fault.field,
    };
    Refusal::Schema {
        place,
        code: fault.code,
    }
}

/// The same for a reader's stop.
fn stop_at(section: u8, index: usize, stop: Stop<Fault>) -> Stop<Refusal>
    requires { index < 4294967296 }
    ensures { result ≡ stop_at section index stop }
{
    match stop {
        Stop::Refused(fault) => Stop::Refused(refusal(section, index, fault)),
        Stop::NoMemory => Stop::NoMemory,
    }
}

fn push_row<T: Drop>(rows: &mut Vec<T>, row: T) -> Result<(), AllocError>
    ensures items { OnOk result (rows.new.items ≡ rows.old.items ++ row ∷ []) }
    ensures count { OnOk result (vec_len rows.new ≡ vec_len rows.old + 1) }
{
    rows.push(row)?;
    Ok(())
}

fn read_next_link(links: &mut Vec<Link>, value: &Value, nodes: u32) -> Result<(), Stop<Refusal>>
    requires { vec_len links.old < 4294967296 }
    ensures checks { Passes result (section_check 1 (vec_len links.old) (link_check nodes) (tables_in (view value.now ∷ []))) }
    ensures count { OnOk result (vec_len links.new ≡ vec_len links.old + length (tables_in (view value.now ∷ []))) }
    ensures rows { OnOk result (links.new.items ≡ links.old.items ++ map link_of (tables_in (view value.now ∷ []))) }
{
    let table = match value.as_table() {
        Some(table) => table,
        None => return Ok(()),
    };
    match read_link(table, nodes) {
        Err(fault) => Err(Stop::Refused(refusal(1, links.len(), fault))),
        Ok(link) => match links.push(link) {
            Ok(()) => Ok(()),
            Err(_) => Err(Stop::NoMemory),
        },
    }
}

/// The link tables of a document, or the first refusal in them.
pub fn read_links(alloc: Global, document: &Table, nodes: u32) -> Result<Vec<Link>, Stop<Refusal>>
    requires { length (tables_at (codes "link") (table_view document.now)) < 4294967296 }
    ensures checks { Passes result (section_check 1 0 (link_check nodes) (tables_at (codes "link") (table_view document.now))) }
    ensures rows { IfOk result (λ v. v.items ≡ map link_of (tables_at (codes "link") (table_view document.now))) }
{
    let mut links = Vec::new(alloc);
    for value in values_at(document, "link") {
        match read_next_link(&mut links, value, nodes) {
            Ok(()) => {}
            Err(stop) => return Err(stop),
        }
    }
    Ok(links)
}

fn read_next_lan(
    alloc: Global,
    lans: &mut Vec<Lan>,
    value: &Value,
    nodes: u32,
) -> Result<(), Stop<Refusal>>
    requires { vec_len lans.old < 4294967296 }
    ensures checks { Passes result (section_check 2 (vec_len lans.old) (lan_check nodes) (tables_in (view value.now ∷ []))) }
    ensures count { OnOk result (vec_len lans.new ≡ vec_len lans.old + length (tables_in (view value.now ∷ []))) }
    ensures rows { OnOk result (lans.new.items ≡ lans.old.items ++ map lan_of (tables_in (view value.now ∷ []))) }
{
    let table = match value.as_table() {
        Some(table) => table,
        None => return Ok(()),
    };
    let lan = match read_lan(alloc, table, nodes) {
        Ok(lan) => lan,
        Err(stop) => return Err(stop_at(2, lans.len(), stop)),
    };
    match push_row(lans, lan) {
        Ok(()) => Ok(()),
        Err(_) => Err(Stop::NoMemory),
    }
}

/// The LAN tables of a document, or the first refusal in them.
pub fn read_lans(alloc: Global, document: &Table, nodes: u32) -> Result<Vec<Lan>, Stop<Refusal>>
    requires { length (tables_at (codes "lan") (table_view document.now)) < 4294967296 }
    ensures checks { Passes result (section_check 2 0 (lan_check nodes) (tables_at (codes "lan") (table_view document.now))) }
    ensures rows { IfOk result (λ v. v.items ≡ map lan_of (tables_at (codes "lan") (table_view document.now))) }
{
    let mut lans = Vec::new(alloc);
    for value in values_at(document, "lan") {
        match read_next_lan(alloc, &mut lans, value, nodes) {
            Ok(()) => {}
            Err(stop) => return Err(stop),
        }
    }
    Ok(lans)
}

fn read_next_route(
    routes: &mut Vec<Route>,
    value: &Value,
    nodes: u32,
    routing: Routing,
) -> Result<(), Stop<Refusal>>
    requires { vec_len routes.old < 4294967296 }
    ensures checks { Passes result (section_check 3 (vec_len routes.old) (route_check nodes routing) (tables_in (view value.now ∷ []))) }
    ensures count { OnOk result (vec_len routes.new ≡ vec_len routes.old + length (tables_in (view value.now ∷ []))) }
    ensures rows { OnOk result (routes.new.items ≡ routes.old.items ++ map route_of (tables_in (view value.now ∷ []))) }
{
    let table = match value.as_table() {
        Some(table) => table,
        None => return Ok(()),
    };
    match read_route(table, nodes, routing) {
        Err(fault) => Err(Stop::Refused(refusal(3, routes.len(), fault))),
        Ok(route) => match routes.push(route) {
            Ok(()) => Ok(()),
            Err(_) => Err(Stop::NoMemory),
        },
    }
}

/// The route tables of a document, or the first refusal in them.
pub fn read_routes(
    alloc: Global,
    document: &Table,
    nodes: u32,
    routing: Routing,
) -> Result<Vec<Route>, Stop<Refusal>>
    requires { length (tables_at (codes "route") (table_view document.now)) < 4294967296 }
    ensures checks { Passes result (section_check 3 0 (route_check nodes routing) (tables_at (codes "route") (table_view document.now))) }
    ensures rows { IfOk result (λ v. v.items ≡ map route_of (tables_at (codes "route") (table_view document.now))) }
{
    let mut routes = Vec::new(alloc);
    for value in values_at(document, "route") {
        match read_next_route(&mut routes, value, nodes, routing) {
            Ok(()) => {}
            Err(stop) => return Err(stop),
        }
    }
    Ok(routes)
}

fn read_next_app(apps: &mut Vec<App>, value: &Value, nodes: u32) -> Result<(), Stop<Refusal>>
    requires { vec_len apps.old < 4294967296 }
    ensures checks { Passes result (section_check 4 (vec_len apps.old) (app_check nodes) (tables_in (view value.now ∷ []))) }
    ensures count { OnOk result (vec_len apps.new ≡ vec_len apps.old + length (tables_in (view value.now ∷ []))) }
    ensures rows { OnOk result (apps.new.items ≡ apps.old.items ++ map app_of (tables_in (view value.now ∷ []))) }
{
    let table = match value.as_table() {
        Some(table) => table,
        None => return Ok(()),
    };
    match read_app(table, nodes) {
        Err(fault) => Err(Stop::Refused(refusal(4, apps.len(), fault))),
        Ok(app) => match apps.push(app) {
            Ok(()) => Ok(()),
            Err(_) => Err(Stop::NoMemory),
        },
    }
}

/// The app tables of a document, or the first refusal in them.
pub fn read_apps(alloc: Global, document: &Table, nodes: u32) -> Result<Vec<App>, Stop<Refusal>>
    requires { length (tables_at (codes "app") (table_view document.now)) < 4294967296 }
    ensures checks { Passes result (section_check 4 0 (app_check nodes) (tables_at (codes "app") (table_view document.now))) }
    ensures rows { IfOk result (λ v. v.items ≡ map app_of (tables_at (codes "app") (table_view document.now))) }
{
    let mut apps = Vec::new(alloc);
    for value in values_at(document, "app") {
        match read_next_app(&mut apps, value, nodes) {
            Ok(()) => {}
            Err(stop) => return Err(stop),
        }
    }
    Ok(apps)
}

fn read_next_loss(
    alloc: Global,
    losses: &mut Vec<Loss>,
    value: &Value,
    nodes: u32,
) -> Result<(), Stop<Refusal>>
    requires { vec_len losses.old < 4294967296 }
    ensures checks { Passes result (section_check 5 (vec_len losses.old) (loss_check nodes) (tables_in (view value.now ∷ []))) }
    ensures count { OnOk result (vec_len losses.new ≡ vec_len losses.old + length (tables_in (view value.now ∷ []))) }
    ensures rows { OnOk result (losses.new.items ≡ losses.old.items ++ map loss_of (tables_in (view value.now ∷ []))) }
{
    let table = match value.as_table() {
        Some(table) => table,
        None => return Ok(()),
    };
    let loss = match read_loss(alloc, table, nodes) {
        Ok(loss) => loss,
        Err(stop) => return Err(stop_at(5, losses.len(), stop)),
    };
    match push_row(losses, loss) {
        Ok(()) => Ok(()),
        Err(_) => Err(Stop::NoMemory),
    }
}

/// The loss tables of a document, or the first refusal in them.
pub fn read_losses(alloc: Global, document: &Table, nodes: u32) -> Result<Vec<Loss>, Stop<Refusal>>
    requires { length (tables_at (codes "loss") (table_view document.now)) < 4294967296 }
    ensures checks { Passes result (section_check 5 0 (loss_check nodes) (tables_at (codes "loss") (table_view document.now))) }
    ensures rows { IfOk result (λ v. v.items ≡ map loss_of (tables_at (codes "loss") (table_view document.now))) }
{
    let mut losses = Vec::new(alloc);
    for value in values_at(document, "loss") {
        match read_next_loss(alloc, &mut losses, value, nodes) {
            Ok(()) => {}
            Err(stop) => return Err(stop),
        }
    }
    Ok(losses)
}
