//! The summary of a run: what happened in all, and what each application has sent and received.

ghost use Rattle.std.specs.Prelude.{◌≡◌, ◌<◌, ◌≤◌, ◌^◌, ◌++◌, ℕ, IfOk, OnOk, length, slice_index_or, string_bytes};
ghost use Rattle.node_step.specs.declared.local_app.AppCount.{AppCount as PlainCount};
ghost use Rattle.sim_run.specs.Summary.{app_line, app_lines, count_of, kind_name, no_count, of_app, summary, totals};

use node_step::AppCount;
use plain_kernel::Report;
use scenario_form::{App, Kind};
use sim_base::NoMemory;
use std::alloc::Global;

/// The summary of a run of these applications.
pub fn summary(alloc: Global, apps: &[App], report: &Report) -> Result<String, NoMemory>
    ensures { IfOk result (λ text. string_bytes text ≡ summary report.now.events report.now.drops apps.now report.now.apps.items) }
{
    let table = by_number(alloc, apps.len(), &report.apps)?;
    let mut text = totals(alloc, report.events, report.drops)?;
    push_app_lines(alloc, apps, &table, &mut text)?;
    Ok(text)
}

/// How many events fired and packets were dropped.
#[tactic(auto, unfolding(crate::specs::Summary::totals))]
fn totals(alloc: Global, events: u64, drops: u64) -> Result<String, NoMemory>
    ensures { IfOk result (λ text. string_bytes text ≡ totals events drops) }
{
    Ok(format!(in alloc; "events {events}\ndrops {drops}\n")?)
}

/// The counts of so many applications by their numbers. One that isn't counted has zeros.
fn by_number(alloc: Global, apps: usize, counts: &[AppCount]) -> Result<Vec<AppCount>, NoMemory>
    ensures size { IfOk result (λ table. length table.items ≡ apps) }
    ensures counts { IfOk result (λ table. (app : ℕ) → app < apps → slice_index_or table.items app (no_count app) ≡ count_of app counts.now) }
{
    let mut table = no_counts(alloc, apps)?;
    for count in counts {
        note_count(&mut table, *count);
    }
    Ok(table)
}

/// Puts the count of an application in its place, where there is one.
fn note_count(table: &mut [AppCount], count: AppCount)
    ensures { (app : ℕ) (d : PlainCount) → app < length table.old → slice_index_or table.new app d ≡ of_app app (slice_index_or table.old app d) count }
{
    let app = count.app as usize;
    if app < table.len() {
        table[app] = count;
    }
}

/// Zeros for so many applications.
fn no_counts(alloc: Global, apps: usize) -> Result<Vec<AppCount>, NoMemory>
    ensures size { IfOk result (λ table. length table.items ≡ apps) }
    ensures counts { IfOk result (λ table. (app : ℕ) → app < apps → slice_index_or table.items app (no_count app) ≡ no_count app) }
{
    let mut table = Vec::new(alloc);
    for number in 0..apps {
        let Ok(app) = u32::try_from(number) else {
            return Err(NoMemory);
        };
        table.push(AppCount {
            app,
            sent: 0,
            sent_bytes: 0,
            got: 0,
            got_bytes: 0,
        })?;
    }
    Ok(table)
}

/// Puts the line of each application behind a text.
fn push_app_lines(
    alloc: Global,
    apps: &[App],
    table: &[AppCount],
    text: &mut String,
) -> Result<(), NoMemory>
    requires { length table.now ≡ length apps.now }
    ensures { OnOk result (string_bytes text.new ≡ string_bytes text.old ++ app_lines 0 apps.now (λ app. slice_index_or table.now app (no_count app))) }
{
    for (number, app) in apps.iter().enumerate() {
        let line = app_line(alloc, number, app.kind, &table[number])?;
        text.push_str(line.as_str())?;
    }
    Ok(())
}

/// The line of an application.
#[tactic(auto, unfolding(crate::specs::Summary::app_line))]
fn app_line(alloc: Global, number: usize, kind: Kind, count: &AppCount) -> Result<String, NoMemory>
    ensures { IfOk result (λ line. string_bytes line ≡ app_line number kind count.now) }
{
    let name = kind_name(kind);
    let (sent, sent_bytes) = (count.sent, count.sent_bytes);
    let (got, got_bytes) = (count.got, count.got_bytes);
    Ok(format!(in alloc;
        "app {number} {name} sent {sent} {sent_bytes} received {got} {got_bytes}\n"
    )?)
}

/// The name of a kind of application, as scenarios write it.
fn kind_name(kind: Kind) -> &'static str
    ensures { result.now ≡ kind_name kind }
{
    match kind {
        Kind::UdpSend => "udp-send",
        Kind::UdpEchoClient => "udp-echo-client",
        Kind::UdpSink => "udp-sink",
        Kind::UdpEchoServer => "udp-echo-server",
        Kind::TcpSink => "tcp-sink",
        Kind::OnOff => "on-off",
        Kind::Ping => "ping",
        Kind::TcpBulk => "tcp-bulk",
    }
}
