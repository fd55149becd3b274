//! How far ahead a group may run before another can reach it.

ghost use Rattle.std.specs.Prelude.{◌≡◌, ◌<◌, All, length};
ghost use Rattle.partition_cut.specs.AllowedCut.{IsLookahead, least_with_link, lookahead_of, sooner_of};
ghost use Rattle.partition_cut.specs.Network.{group_at};

use sim_base::Time;

/// The sooner of a delay and the least so far.
fn sooner(least: Option<Time>, delay: Time) -> Time
    ensures { result ≡ sooner_of least delay }
{
    match least {
        None => delay,
        Some(least) => Time(least.0.min(delay.0)),
    }
}

/// The least delay so far, with one more link.
fn least_with(least: Option<Time>, link: &(u32, u32, Time), group_of: &[u32]) -> Option<Time>
    requires { (link.now.0 < length group_of.now) × (link.now.1 < length group_of.now) }
    ensures { result ≡ least_with_link (group_at group_of.now) least link.now }
{
    if group_of[link.0 as usize] == group_of[link.1 as usize] {
        least
    } else {
        Some(sooner(least, link.2))
    }
}

/// The least delay of a link whose ends are in two groups.
pub fn least_cut_delay(links: &[(u32, u32, Time)], group_of: &[u32]) -> Option<Time>
    requires { All (λ link. (link.0 < length group_of.now) × (link.1 < length group_of.now)) links.now }
    ensures least { IsLookahead (group_at group_of.now) links.now result }
    ensures value { result ≡ lookahead_of (group_at group_of.now) links.now }
{
    let mut least = None;
    for link in links {
        least = least_with(least, link, group_of);
    }
    least
}
