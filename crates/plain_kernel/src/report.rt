//! What a run reports.

ghost use Rattle.std.specs.Prelude.{◌≡◌, [], IfOk};
ghost use Rattle.node_step.specs.Part.{counts, drops};

use lp_run::Lp;
use node_step::AppCount;
use pkt_face::Pkt;
use sim_base::NoMemory;

/// What a run reports. Counts stay at 2^64 - 1 once they are there.
#[derive(Debug, Drop)]
pub struct Report {
    /// How many events have fired.
    pub events: u64,
    /// How many packets the nodes have dropped.
    pub drops: u64,
    /// What each application has sent and got, node by node.
    pub apps: Vec<AppCount>,
    /// How many windows a run in rounds had; 0 for a plain run.
    pub windows: u64,
    /// How many events each group has fired; none for a plain run.
    pub group_events: Vec<u64>,
}

impl Report {
    /// What a group of all nodes reports.
    pub fn of<P: Pkt>(group: &Lp<P>) -> Result<Report, NoMemory>
        ensures events { IfOk result (λ report. report.events ≡ group.now.fired) }
        ensures drops { IfOk result (λ report. report.drops ≡ drops group.now.part.nodes) }
        ensures apps { IfOk result (λ report. report.apps.items ≡ counts group.now.part.nodes) }
        ensures none { IfOk result (λ report. (report.windows ≡ 0) × (report.group_events.items ≡ [])) }
    {
        let apps = group.part().counts()?;
        let alloc = *apps.allocator();
        Ok(Report {
            events: group.fired(),
            drops: group.part().drops(),
            apps,
            windows: 0,
            group_events: Vec::new(alloc),
        })
    }
}
