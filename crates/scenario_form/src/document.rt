//! The walk over a document's tables.
ghost use Rattle.std.specs.Prelude.{◌≡◌, IfOk};
ghost use Rattle.toml.specs.View.{table_view};
ghost use Rattle.scenario_form.specs.Tables.{routing_of};
ghost use Rattle.scenario_form.specs.Walk.{nodes_of, routing_at, refusal, top_check, walk_reading};
ghost use Rattle.scenario_form.specs.Checks.{refuse_as};
ghost use Rattle.scenario_form.specs.Limits.{IsCounted};
ghost use Rattle.scenario_form.specs.Reading.{reading};
ghost use Rattle.scenario_form.specs.Answers.{Answers};

use crate::across::check_across;
use crate::cut::check_groups;
use crate::fields::top_fields;
use crate::groups::groups_at;
use crate::refusal::{Refusal, Stop};
use crate::scenario::{Routing, Scenario};
use crate::sections::{read_apps, read_lans, read_links, read_losses, read_routes, refusal};
use crate::table::check_table;
use crate::values::{flag_or_false, number_or, text_or};
use sim_base::{Sequence, Time};
use std::alloc::Global;
use toml::Table;

fn nodes_of(document: &Table) -> u32
    ensures { result ≡ nodes_of (table_view document.now) }
{
    number_or(document, "nodes", 0).min(4_294_967_295) as u32
}

fn routing_of(text: &str) -> Routing
    ensures { result ≡ routing_of text.now }
{
    if text == "auto" {
        Routing::Auto
    } else {
        Routing::Static
    }
}

fn routing_at(document: &Table) -> Routing
    ensures { result ≡ routing_at (table_view document.now) }
{
    routing_of(text_or(document, "routing", "static"))
}

/// Checks the top table, which counts the others.
fn check_top(document: &Table) -> Result<(), Refusal>
    ensures value { result ≡ refuse_as (refusal 0 0) (top_check (table_view document.now)) }
    ensures counted { IfOk result (λ _. IsCounted (table_view document.now)) }
{
    match check_table(document, top_fields(), nodes_of(document)) {
        Ok(()) => Ok(()),
        Err(fault) => Err(refusal(0, 0, fault)),
    }
}

/// The scenario of a document before the checks over all tables, or the first refusal in its tables.
fn read_tables(alloc: Global, document: &Table) -> Result<Scenario, Stop<Refusal>>
    ensures { Answers result (walk_reading (table_view document.now)) }
{
    let nodes = nodes_of(document);
    match check_top(document) {
        Ok(()) => {}
        Err(refusal) => return Err(Stop::Refused(refusal)),
    }
    let routing = routing_at(document);
    let links = match read_links(alloc, document, nodes) {
        Ok(links) => links,
        Err(stop) => return Err(stop),
    };
    let lans = match read_lans(alloc, document, nodes) {
        Ok(lans) => lans,
        Err(stop) => return Err(stop),
    };
    let routes = match read_routes(alloc, document, nodes, routing) {
        Ok(routes) => routes,
        Err(stop) => return Err(stop),
    };
    let apps = match read_apps(alloc, document, nodes) {
        Ok(apps) => apps,
        Err(stop) => return Err(stop),
    };
    let losses = match read_losses(alloc, document, nodes) {
        Ok(losses) => losses,
        Err(stop) => return Err(stop),
    };
    let groups = match groups_at(alloc, document) {
        Ok(groups) => groups,
        Err(_) => return Err(Stop::NoMemory),
    };
    Ok(Scenario {
        format: number_or(document, "format", 0),
        nodes,
        stop_ns: Time(number_or(document, "stop_ns", 0)),
        seed: number_or(document, "seed", 1),
        events_per_node: number_or(document, "events_per_node", 1_000_000),
        routing,
        ascii: flag_or_false(document, "ascii"),
        groups,
        links: Sequence::from_vec(links),
        lans: Sequence::from_vec(lans),
        routes: Sequence::from_vec(routes),
        apps: Sequence::from_vec(apps),
        losses: Sequence::from_vec(losses),
    })
}

/// The scenario of a document, or its first refusal.
pub fn read_document(alloc: Global, document: &Table) -> Result<Scenario, Stop<Refusal>>
    ensures { Answers result (reading (table_view document.now)) }
{
    let scenario = match read_tables(alloc, document) {
        Ok(scenario) => scenario,
        Err(stop) => return Err(stop),
    };
    match check_across(alloc, &scenario) {
        Ok(()) => {}
        Err(stop) => return Err(stop),
    }
    match check_groups(alloc, &scenario) {
        Ok(()) => Ok(scenario),
        Err(stop) => Err(stop),
    }
}
