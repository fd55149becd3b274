//! Links and LANs, as the interfaces on them see them.

ghost use Rattle.std.specs.Prelude.{◌≡◌, ◌≤◌, IfSome};
ghost use Rattle.queue_discs.specs.Disc.{IsKind};
ghost use Rattle.sim_world.specs.Networks.{HasLanNumbers, HasLinkNumbers, IsNetwork, disc_of, lan_network, link_network, token_bucket};

use queue_discs::DiscKind;
use scenario_form::{Lan, Link, Queue};
use sim_base::{Rate, Time};

/// A link or a LAN: its number, where links come first, how packets go over it, and the queue disc before each of its
/// interfaces.
#[derive(Clone, Copy, Debug, PartialEq, Eq)]
pub struct Network {
    pub number: u32,
    pub prefix: u32,
    pub mtu: u32,
    pub rate: Rate,
    pub delay: Time,
    pub disc: DiscKind,
    pub captured: bool,
}

pub fn link_network(number: u32, link: &Link) -> Network
    requires { HasLinkNumbers link.now }
    ensures value { result ≡ link_network number link.now }
    ensures within { IsNetwork result }
{
    Network {
        number,
        prefix: link.prefix as u32,
        mtu: link.mtu as u32,
        rate: link.rate_bps,
        delay: link.delay_ns,
        disc: disc_of(link.queue, link.limit as u32, link.tbf_bps, link.tbf_burst),
        captured: link.pcap,
    }
}

pub fn lan_network(number: u32, lan: &Lan) -> Network
    requires { HasLanNumbers lan.now }
    ensures value { result ≡ lan_network number lan.now }
    ensures within { IsNetwork result }
{
    Network {
        number,
        prefix: lan.prefix as u32,
        mtu: lan.mtu as u32,
        rate: lan.rate_bps,
        delay: lan.delay_ns,
        disc: disc_of(lan.queue, lan.limit as u32, lan.tbf_bps, lan.tbf_burst),
        captured: lan.pcap,
    }
}

/// The queue disc before each interface of a network.
fn disc_of(queue: Queue, limit: u32, rate: Option<Rate>, burst: Option<u64>) -> DiscKind
    requires rate { IfSome rate (λ r. (1 ≤ r.0) × (r.0 ≤ 1000000000000)) }
    requires burst { IfSome burst (λ b. (1 ≤ b) × (b ≤ 1000000000)) }
    ensures value { result ≡ disc_of queue limit rate burst }
    ensures within { IsKind result }
{
    match queue {
        Queue::Fifo => DiscKind::Fifo { limit },
        Queue::Prio => DiscKind::Prio { limit },
        Queue::Tbf => token_bucket(limit, rate, burst),
    }
}

/// A token bucket has the rate and the burst that a scenario with one names.
fn token_bucket(limit: u32, rate: Option<Rate>, burst: Option<u64>) -> DiscKind
    requires rate { IfSome rate (λ r. (1 ≤ r.0) × (r.0 ≤ 1000000000000)) }
    requires burst { IfSome burst (λ b. (1 ≤ b) × (b ≤ 1000000000)) }
    ensures value { result ≡ token_bucket limit rate burst }
    ensures within { IsKind result }
{
    match (rate, burst) {
        (Some(rate), Some(burst)) => DiscKind::Tbf {
            limit,
            rate,
            burst: burst as u32,
        },
        _ => DiscKind::Fifo { limit },
    }
}
