//! The kinds of applications.

ghost use Rattle.std.specs.Prelude.{◌≡◌, ◌≤◌, ◌^◌};
ghost use Rattle.traffic_apps.specs.App.{on_off};

use sim_base::{Rate, Time};

/// What an application sends: `count` payloads of `size` bytes, `interval` apart, with a priority.
#[derive(Clone, Copy, Debug, PartialEq, Eq)]
pub struct Schedule {
    pub size: u32,
    pub count: u64,
    pub interval: Time,
    pub priority: u64,
}

/// What an application does.
#[derive(Clone, Copy, Debug, PartialEq, Eq)]
pub enum AppKind {
    /// Sends datagrams, and ignores what comes.
    UdpSend {
        dst: u32,
        port: u16,
        schedule: Schedule,
    },
    /// Counts datagrams.
    UdpSink,
    /// Sends datagrams, and counts what comes.
    UdpEchoClient {
        dst: u32,
        port: u16,
        schedule: Schedule,
    },
    /// Sends each datagram back.
    UdpEchoServer,
    /// Sends datagrams while it is on, in periods that each begin with a tick, and ignores what comes. The interval is
    /// the time that a line of some rate takes for a payload: see `AppKind::on_off`.
    OnOff {
        dst: u32,
        port: u16,
        schedule: Schedule,
        on: Time,
        off: Time,
    },
    /// Opens a connection at its tick, writes so many bytes as there is room for them, and closes it.
    TcpBulk {
        dst: u32,
        port: u16,
        bytes: u64,
        mss: u32,
    },
    /// Counts what comes over connections.
    TcpSink,
    /// Sends echo requests, and counts the replies.
    Ping {
        dst: u32,
        schedule: Schedule,
    },
}

impl AppKind {
    /// An application that is on and off in turn. While it is on its payloads follow each other as a line of this rate
    /// would carry them.
    pub fn on_off(
        dst: u32,
        port: u16,
        size: u32,
        count: u64,
        priority: u64,
        rate: Rate,
        on: Time,
        off: Time,
    ) -> AppKind
        requires some_rate { 1 ≤ rate.0 }
        requires rate_in_range { rate.0 ≤ 10 ^ 12 }
        requires some_bytes { 1 ≤ size }
        requires size { size ≤ 65507 }
        ensures { result ≡ on_off dst port size count priority rate on off }
    {
        AppKind::OnOff {
            dst,
            port,
            schedule: Schedule {
                size,
                count,
                interval: rate.frame_time(size),
                priority,
            },
            on,
            off,
        }
    }
}
