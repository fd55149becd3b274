//! When windows begin and end.

ghost use Rattle.std.specs.Prelude.{◌≡◌, ◌≤◌, ◌^◌};
ghost use Rattle.lp_run.specs.Pending.{first_key};
ghost use Rattle.round_core.specs.Lookahead.{window_end as end_of_window};
ghost use Rattle.round_kernel.specs.Cut.{nanoseconds};
ghost use Rattle.round_kernel.specs.Window.{before_stop, least_time as least_of, sooner_of, sooner_time};

use crate::groups::Group;
use pkt_face::Pkt;
use sim_base::{Key, Time};

/// The sooner of a time and the least so far.
fn sooner(time: Time, least: Option<Time>) -> Option<Time>
    ensures { result ≡ sooner_time time least }
{
    match least {
        None => Some(time),
        Some(least) => Some(Time(least.0.min(time.0))),
    }
}

/// The least time so far, with that of one more first event.
fn with_first(least: Option<Time>, first: Option<Key>) -> Option<Time>
    ensures { result ≡ sooner_of least first }
{
    match first {
        None => least,
        Some(key) => sooner(key.time, least),
    }
}

/// When the first event of all groups comes.
fn first_time<P: Pkt>(groups: &Vec<Group<P>>) -> Option<Time>
    ensures { result ≡ least_of groups.now.items }
{
    let mut least = None;
    for group in groups {
        least = with_first(least, group.lp().least());
    }
    least
}

/// When the next window begins: at the least time of an event, if that comes before the stop.
pub fn least_time<P: Pkt>(groups: &Vec<Group<P>>, stop: Time) -> Option<Time>
    ensures { result ≡ before_stop stop (least_of groups.now.items) }
{
    match first_time(groups) {
        None => None,
        Some(time) => { if time.0 < stop.0 { Some(time) } else { None } }
    }
}

/// When a window ends that begins at a time.
pub fn window_end(lookahead: Option<Time>, stop: Time, from: Time) -> Time
    requires { stop.0 ≤ 10 ^ 12 }
    ensures { result.0 ≡ end_of_window (nanoseconds lookahead) stop.0 from.0 }
{
    match lookahead {
        None => stop,
        Some(lookahead) => Time(from.0.saturating_add(lookahead.0).min(stop.0)),
    }
}
