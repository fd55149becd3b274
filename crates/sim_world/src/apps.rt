//! The applications of a node, and their ports.

ghost use Rattle.std.specs.Prelude.{◌≡◌, ◌+◌, ◌<◌, ◌≤◌, [], ◌++◌, length, map, All, IfOk, IfSome, OnOk};
ghost use Rattle.traffic_apps.specs.App.{IsKind};
ghost use Rattle.scenario_form.specs.Limits.{IsApp};
ghost use Rattle.sim_world.specs.Grouping.{grouped};
ghost use Rattle.sim_world.specs.Apps.{IsWithin, IsListed, listed_from, node_of, kind_of, on_off_of, schedule_of, port_of, ports_taken, own_port, installed_as, installed_from, local_app, is_ping, is_udp, is_listener, udp_from, pings_from, ports_of, conns_from, conns_of};
ghost use Rattle.tcp_flow.specs.Conns.{no_conns};

use crate::grouping::{no_items, put};
use node_step::LocalApp;
use scenario_form::{App, Kind};
use sim_base::{NoMemory, Rate, Sequence, Time};
use std::alloc::Global;
use std::collections::BTreeMap;
use tcp_flow::Conns;
use traffic_apps::{AppKind, Schedule};
use udp_icmp::Ports;

/// An application with its number in the scenario.
#[derive(Clone, Copy, Debug, PartialEq, Eq)]
pub struct Listed {
    pub number: u32,
    pub app: App,
}

/// An application of a node: its number in the scenario, what it does, the port that it listens on or sends from, and
/// when it begins.
#[derive(Clone, Copy, Debug, PartialEq, Eq)]
pub struct Installed {
    pub number: u32,
    pub kind: AppKind,
    pub port: u16,
    pub start: Time,
}

/// The first of the ports from which active applications send, each from its own.
const FIRST_PORT: u32 = 49153;

/// The applications of each node, in the scenario's order.
pub fn apps_by_node(
    alloc: Global,
    nodes: u32,
    apps: &[App],
) -> Result<Vec<Sequence<Listed>>, NoMemory>
    requires apps { All (IsApp nodes) apps.now }
    requires few { length apps.now ≤ 4000 }
    ensures { IfOk result (λ listed. listed.items ≡ grouped node_of nodes (listed_from 0 apps.now)) }
{
    let mut listed = no_items(alloc, nodes)?;
    for (number, app) in apps.iter().enumerate() {
        let item = Listed {
            number: number as u32,
            app: *app,
        };
        put(&mut listed, app.node.0, item)?;
    }
    Ok(listed)
}

/// What the applications of a node do, and at which ports.
pub fn install(alloc: Global, listed: &[Listed]) -> Result<Vec<Installed>, NoMemory>
    requires listed { All IsListed listed.now }
    requires few { length listed.now ≤ 4000 }
    ensures apps { IfOk result (λ apps. apps.items ≡ installed_from 0 listed.now) }
    ensures kinds { IfOk result (λ apps. All (λ i. IsKind i.kind) apps.items) }
    ensures few { IfOk result (λ apps. length apps.items ≤ 4000) }
{
    let mut apps = Vec::with_capacity(alloc, listed.len())?;
    let mut taken = 0;
    for it in listed {
        install_one(&mut apps, taken, it)?;
        taken += ports_taken(it.app.kind);
    }
    Ok(apps)
}

/// Puts an application behind the others, if its kind is built. Those before it took so many ports.
fn install_one(apps: &mut Vec<Installed>, taken: u32, it: &Listed) -> Result<(), NoMemory>
    requires it { IsListed it.now }
    requires taken { taken < 4000 }
    requires kinds { All (λ i. IsKind i.kind) apps.old.items }
    ensures apps { OnOk result (apps.new.items ≡ apps.old.items ++ installed_as taken it.now (kind_of it.now.app.kind it.now.app) []) }
    ensures kinds { OnOk result (All (λ i. IsKind i.kind) apps.new.items) }
    ensures few { OnOk result (length apps.new.items ≤ length apps.old.items + 1) }
{
    match kind_of(&it.app) {
        None => Ok(()),
        Some(kind) => {
            apps.push(Installed {
                number: it.number,
                kind,
                port: own_port(taken, &it.app),
                start: it.app.start_ns,
            })?;
            Ok(())
        }
    }
}

/// What an application does, if that is built.
fn kind_of(app: &App) -> Option<AppKind>
    requires { IsWithin app.now }
    ensures value { result ≡ kind_of app.now.kind app.now }
    ensures within { IfSome result IsKind }
{
    let dst = app.dst.unwrap_or(0);
    let port = port_of(app);
    match app.kind {
        Kind::UdpSend => Some(AppKind::UdpSend {
            dst,
            port,
            schedule: schedule_of(app),
        }),
        Kind::UdpSink => Some(AppKind::UdpSink),
        Kind::UdpEchoClient => Some(AppKind::UdpEchoClient {
            dst,
            port,
            schedule: schedule_of(app),
        }),
        Kind::UdpEchoServer => Some(AppKind::UdpEchoServer),
        Kind::Ping => Some(AppKind::Ping {
            dst,
            schedule: schedule_of(app),
        }),
        Kind::OnOff => Some(on_off_of(app)),
        Kind::TcpSink => Some(AppKind::TcpSink),
        Kind::TcpBulk => Some(AppKind::TcpBulk {
            dst,
            port,
            bytes: app.bytes.unwrap_or(0),
            mss: app.mss as u32,
        }),
    }
}

/// One that is on and off in turn, with the rate and the times that it names.
fn on_off_of(app: &App) -> AppKind
    requires app { IsWithin app.now }
    requires bytes { 1 ≤ app.now.size }
    ensures value { result ≡ on_off_of app.now }
    ensures within { IsKind result }
{
    AppKind::on_off(
        app.dst.unwrap_or(0),
        port_of(app),
        app.size as u32,
        app.count,
        app.priority,
        app.rate_bps.unwrap_or(Rate(1)),
        app.on_ns.unwrap_or(Time(0)),
        app.off_ns.unwrap_or(Time(0)),
    )
}

fn schedule_of(app: &App) -> Schedule
    requires { app.now.size ≤ 65507 }
    ensures { result ≡ schedule_of app.now }
{
    Schedule {
        size: app.size as u32,
        count: app.count,
        interval: app.interval_ns,
        priority: app.priority,
    }
}

/// The port that an application names.
fn port_of(app: &App) -> u16
    requires { IfSome app.now.port (λ port. port ≤ 49152) }
    ensures { result ≡ port_of app.now }
{
    match app.port {
        Some(port) => port as u16,
        None => 0,
    }
}

/// How many ports of its own an application sends from.
fn ports_taken(kind: Kind) -> u32
    ensures value { result ≡ ports_taken kind }
    ensures few { result ≤ 1 }
{
    match kind {
        Kind::UdpSend | Kind::UdpEchoClient | Kind::OnOff | Kind::TcpBulk => 1,
        Kind::UdpSink | Kind::UdpEchoServer | Kind::TcpSink | Kind::Ping => 0,
    }
}

/// The port that an application listens on or sends from, where those before it at its node took so many.
fn own_port(taken: u32, app: &App) -> u16
    requires few { taken < 4000 }
    requires port { IfSome app.now.port (λ port. port ≤ 49152) }
    ensures { result ≡ own_port taken app.now.kind app.now }
{
    match app.kind {
        Kind::UdpSink | Kind::UdpEchoServer | Kind::TcpSink => port_of(app),
        Kind::UdpSend | Kind::UdpEchoClient | Kind::OnOff | Kind::TcpBulk => {
            (FIRST_PORT + taken) as u16
        }
        Kind::Ping => 0,
    }
}

/// The applications before they have sent or got anything.
pub fn local_apps(alloc: Global, apps: &[Installed]) -> Result<Vec<LocalApp>, NoMemory>
    requires { All (λ i. IsKind i.kind) apps.now }
    ensures { IfOk result (λ local. local.items ≡ map local_app apps.now) }
{
    let mut local = Vec::with_capacity(alloc, apps.len())?;
    for app in apps {
        let idle = traffic_apps::App::make(app.number, app.kind);
        local.push(LocalApp::make(idle, app.port))?;
    }
    Ok(local)
}

/// Which application gets what comes: by its port, and a `ping` by its number.
pub fn ports(alloc: Global, apps: &[Installed]) -> Result<Ports, NoMemory>
    requires { length apps.now ≤ 4000 }
    ensures { IfOk result (λ ports. ports ≡ ports_of apps.now) }
{
    let udp = udp_ports(alloc, apps)?;
    let pings = pings(alloc, apps)?;
    Ok(Ports::make(udp, pings))
}

/// The place of the application at each port of UDP.
fn udp_ports(alloc: Global, apps: &[Installed]) -> Result<BTreeMap<u16, u32>, NoMemory>
    requires { length apps.now ≤ 4000 }
    ensures { IfOk result (λ udp. udp.entries ≡ udp_from 0 [] apps.now) }
{
    let mut udp = BTreeMap::new(alloc);
    for (place, app) in apps.iter().enumerate() {
        if is_udp(app.kind) {
            udp.insert(app.port, place as u32)?;
        }
    }
    Ok(udp)
}

/// The place of each `ping`, by its number modulo 2^16.
fn pings(alloc: Global, apps: &[Installed]) -> Result<BTreeMap<u16, u32>, NoMemory>
    requires { length apps.now ≤ 4000 }
    ensures { IfOk result (λ pings. pings.entries ≡ pings_from 0 [] apps.now) }
{
    let mut pings = BTreeMap::new(alloc);
    for (place, app) in apps.iter().enumerate() {
        if is_ping(app.kind) {
            pings.insert((app.number % 65536) as u16, place as u32)?;
        }
    }
    Ok(pings)
}

fn is_ping(kind: AppKind) -> bool
    ensures { result ≡ is_ping kind }
{
    match kind {
        AppKind::Ping { .. } => true,
        _ => false,
    }
}

fn is_udp(kind: AppKind) -> bool
    ensures { result ≡ is_udp kind }
{
    match kind {
        AppKind::TcpBulk { .. } | AppKind::TcpSink | AppKind::Ping { .. } => false,
        _ => true,
    }
}

/// The connections before there is any: the place of the application that takes connections at each port.
pub fn conns(alloc: Global, apps: &[Installed]) -> Result<Conns, NoMemory>
    requires { length apps.now ≤ 4000 }
    ensures { IfOk result (λ conns. conns ≡ conns_of apps.now) }
{
    let mut conns = Conns::make(alloc);
    for (place, app) in apps.iter().enumerate() {
        if is_listener(app.kind) {
            conns.listen(place as u32, app.port)?;
        }
    }
    Ok(conns)
}

/// Whether an application takes connections.
fn is_listener(kind: AppKind) -> bool
    ensures { result ≡ is_listener kind }
{
    match kind {
        AppKind::TcpSink => true,
        _ => false,
    }
}
