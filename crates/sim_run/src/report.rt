//! The report of a run: the windows of its cut, and how many events each group has fired.

ghost use Rattle.std.specs.Prelude.{◌≡◌, ◌++◌, IfOk, OnOk, string_bytes};
ghost use Rattle.sim_run.specs.Report.{group_line, group_lines, report_text, windows_line};

use plain_kernel::Report;
use sim_base::NoMemory;
use std::alloc::Global;

/// The windows of a run, and the events of each group.
pub fn report_text(alloc: Global, report: &Report) -> Result<String, NoMemory>
    ensures { IfOk result (λ text. string_bytes text ≡ report_text report.now.windows report.now.group_events.items) }
{
    let mut text = windows_line(alloc, report.windows)?;
    push_group_lines(alloc, &report.group_events, &mut text)?;
    Ok(text)
}

#[tactic(auto, unfolding(crate::specs::Report::windows_line))]
fn windows_line(alloc: Global, windows: u64) -> Result<String, NoMemory>
    ensures { IfOk result (λ line. string_bytes line ≡ windows_line windows) }
{
    Ok(format!(in alloc; "windows {windows}\n")?)
}

#[tactic(auto, unfolding(crate::specs::Report::group_line))]
fn group_line(alloc: Global, number: usize, events: u64) -> Result<String, NoMemory>
    ensures { IfOk result (λ line. string_bytes line ≡ group_line number events) }
{
    Ok(format!(in alloc; "group {number} events {events}\n")?)
}

/// Puts the line of each group behind a text.
fn push_group_lines(alloc: Global, groups: &[u64], text: &mut String) -> Result<(), NoMemory>
    ensures { OnOk result (string_bytes text.new ≡ string_bytes text.old ++ group_lines 0 groups.now) }
{
    for (number, events) in groups.iter().enumerate() {
        let line = group_line(alloc, number, *events)?;
        text.push_str(line.as_str())?;
    }
    Ok(())
}
