//! An application at work.

ghost use Rattle.std.specs.Prelude.{◌≡◌, ◌≤◌, ◌^◌, OnOk, IfOk, All, List, ℕ, unwrap_or};
ghost use Rattle.sim_base.specs.declared.numbers.Numbers.{Numbers as PlainNumbers};
ghost use Rattle.sim_base.specs.declared.time.Time.{Time as PlainTime};
ghost use Rattle.sim_base.specs.Packet.{Packet};
ghost use Rattle.layer_words.specs.Acts.{Appends};
ghost use Rattle.layer_words.specs.Counting.{with_packet};
ghost use Rattle.traffic_apps.specs.Seen.{plain_in, plain_act};

use crate::counts::Counts;
use crate::kind::{AppKind, Schedule};
use layer_words::next_uid;
use pkt_face::Pkt;
use sim_base::{NoMemory, Numbers, Sequence, Time};
use std::alloc::Global;
use std::marker::Model;

/// What happens to an application.
#[derive(Debug, Drop)]
pub enum In<P> {
    /// The time has come that it asked for.
    Tick { now: Time },
    /// A payload has come, from an address and a port.
    Got { src: u32, sport: u16, packet: P },
    /// The connection that it asked for is there.
    Connected,
    /// So many bytes can be written to it.
    Room { free: u32 },
    /// The other side has written all.
    End,
    /// The connection is broken.
    Reset,
}

/// What an application asks for.
#[derive(Drop)]
pub enum Act<P> {
    /// Send a payload as a datagram.
    UdpSend { dst: u32, port: u16, packet: P },
    /// Send a payload as an echo request, with these four bytes in its header.
    PingSend { dst: u32, rest: u32, packet: P },
    /// Let it tick, then.
    TickAt { at: Time },
    /// Open a connection, with this greatest segment size.
    Connect { dst: u32, port: u16, mss: u32 },
    /// Write bytes to the connection.
    Write { bytes: Sequence<u8> },
    /// Close it: nothing more is written.
    Close,
}

/// An application of a node.
#[derive(Debug, Drop)]
pub struct App {
    number: u32,
    pub(crate) kind: AppKind,
    pub(crate) counts: Counts,
    /// When the period began that the next tick belongs to. Where there is none, the tick begins one.
    period: Option<Time>,
}

impl Model for App {
    ghost use Rattle.traffic_apps.specs.App.{PlainApp, IsKind, IsPeriod};

    ghost Value = { PlainApp };

    ghost view = { λ a. record { number = a.number; kind = a.kind; counts = a.counts; period = a.period } };

    ghost invariant = { λ a. IsKind a.kind × IsPeriod a.period };
}

/// The tag, on bytes and on packets, that applications use: on bytes their number, on packets the priority.
const TAG: u32 = 1;

impl App {
    ghost use Rattle.traffic_apps.specs.App.{IsKind, IsPeriod, idle, longest_payload};
    ghost use Rattle.traffic_apps.specs.Step.{CanTake, step, ticks, gets, sends, sends_back, payload, echo_rest, next_on_off, next_period};

    /// The application with this number in the scenario.
    pub fn make(number: u32, kind: AppKind) -> App
        requires { IsKind kind }
        ensures { result ≡ idle number kind }
    {
        App {
            number,
            kind,
            counts: Counts {
                sent: 0,
                sent_bytes: 0,
                got: 0,
                got_bytes: 0,
            },
            period: None,
        }
    }

    /// Its number in the scenario.
    pub fn number(&self) -> u32
        ensures { result ≡ self.now.number }
    {
        self.number
    }

    /// What it has sent and got.
    pub fn counts(&self) -> Counts
        ensures { result ≡ self.now.counts }
    {
        self.counts
    }

    /// What an application sends is within the limits.
    pub fn is_within_limits(&self)
        ensures { IsKind self.now.kind }
    {
        let _number = self.number;
    }

    /// Takes an input, with the node's numbers, and puts the acts that follow behind `out`. After
    /// `NoMemory` all are given up.
    pub fn step<P: Pkt>(
        &mut self,
        input: In<P>,
        maker: &mut P::Maker,
        numbers: &mut Numbers,
        out: &mut Vec<Act<P>>,
    ) -> Result<(), NoMemory>
        requires { CanTake (plain_in P.plain input) }
        ensures state { OnOk result (self.new ≡ (step self.old numbers.old (plain_in P.plain input)).state) }
        ensures numbers { OnOk result (numbers.new ≡ (step self.old numbers.old (plain_in P.plain input)).numbers) }
        ensures acts { OnOk result (Appends (plain_act P.plain) out.old.items out.new.items (step self.old numbers.old (plain_in P.plain input)).acts) }
    {
        match input {
            In::Tick { now } => self.tick(now, maker, numbers, out),
            In::Got { src, sport, packet } => self.receive(src, sport, packet, out),
            In::Connected => self.begin_writing(out),
            In::Room { free } => self.go_on_writing(free, out),
            In::End | In::Reset => Ok(()),
        }
    }

    fn tick<P: Pkt>(
        &mut self,
        now: Time,
        maker: &mut P::Maker,
        numbers: &mut Numbers,
        out: &mut Vec<Act<P>>,
    ) -> Result<(), NoMemory>
        requires { now.0 ≤ 10 ^ 12 }
        ensures state { OnOk result (self.new ≡ (ticks now self.old.kind self.old numbers.old).state) }
        ensures numbers { OnOk result (numbers.new ≡ (ticks now self.old.kind self.old numbers.old).numbers) }
        ensures acts { OnOk result (Appends (plain_act P.plain) out.old.items out.new.items (ticks now self.old.kind self.old numbers.old).acts) }
    {
        match self.kind {
            AppKind::UdpSend {
                dst,
                port,
                schedule,
            }
            | AppKind::UdpEchoClient {
                dst,
                port,
                schedule,
            } => {
                let next = after(now, schedule.interval);
                self.send_datagram(next, schedule, dst, port, maker, numbers, out)
            }
            AppKind::OnOff {
                dst,
                port,
                schedule,
                on,
                off,
            } => {
                let next = self.go_on_or_off(now, schedule.interval, on, off);
                self.send_datagram(next, schedule, dst, port, maker, numbers, out)
            }
            AppKind::Ping { dst, schedule } => {
                let next = after(now, schedule.interval);
                self.send_request(next, schedule, dst, maker, numbers, out)
            }
            AppKind::TcpBulk { dst, port, mss, .. } => {
                out.push(Act::Connect { dst, port, mss })?;
                Ok(())
            }
            AppKind::UdpSink | AppKind::UdpEchoServer | AppKind::TcpSink => Ok(()),
        }
    }

    /// Whether the next tick comes in this period of an application that is on and off, or begins one; and when it comes.
    fn go_on_or_off(&mut self, now: Time, gap: Time, on: Time, off: Time) -> Time
        requires now { now.0 ≤ 10 ^ 12 }
        requires gap { gap.0 ≤ 10 ^ 15 }
        requires on { on.0 ≤ 10 ^ 12 }
        requires off { off.0 ≤ 10 ^ 12 }
        ensures next { result ≡ next_on_off now gap on off (unwrap_or self.old.period now) }
        ensures period { self.new ≡ record self.old { period = next_period now gap on (unwrap_or self.old.period now) } }
    {
        let began = self.period.unwrap_or(now);
        let next = after(now, gap);
        if next.0 < began.0 + on.0 {
            self.period = Some(began);
            return next;
        }
        self.period = None;
        Time((began.0 + on.0 + off.0).max(now.0 + 1))
    }

    fn send_datagram<P: Pkt>(
        &mut self,
        next: Time,
        schedule: Schedule,
        dst: u32,
        port: u16,
        maker: &mut P::Maker,
        numbers: &mut Numbers,
        out: &mut Vec<Act<P>>,
    ) -> Result<(), NoMemory>
        requires { schedule.size ≤ longest_payload }
        ensures state { OnOk result (self.new ≡ (sends next schedule (λ packet. Act.UdpSend dst port packet) self.old numbers.old).state) }
        ensures numbers { OnOk result (numbers.new ≡ (sends next schedule (λ packet. Act.UdpSend dst port packet) self.old numbers.old).numbers) }
        ensures acts { OnOk result (Appends (plain_act P.plain) out.old.items out.new.items (sends next schedule (λ packet. Act.UdpSend dst port packet) self.old numbers.old).acts) }
    {
        if self.counts.sent >= schedule.count {
            return Ok(());
        }
        let packet = self.payload::<P>(schedule, maker, numbers, *out.allocator())?;
        out.push(Act::UdpSend { dst, port, packet })?;
        self.counts.count_sent(schedule.size);
        ask_again(next, schedule, self.counts.sent, out)
    }

    fn send_request<P: Pkt>(
        &mut self,
        next: Time,
        schedule: Schedule,
        dst: u32,
        maker: &mut P::Maker,
        numbers: &mut Numbers,
        out: &mut Vec<Act<P>>,
    ) -> Result<(), NoMemory>
        requires { schedule.size ≤ longest_payload }
        ensures state { OnOk result (self.new ≡ (sends next schedule (λ packet. Act.PingSend dst (echo_rest self.old.number self.old.counts.sent) packet) self.old numbers.old).state) }
        ensures numbers { OnOk result (numbers.new ≡ (sends next schedule (λ packet. Act.PingSend dst (echo_rest self.old.number self.old.counts.sent) packet) self.old numbers.old).numbers) }
        ensures acts { OnOk result (Appends (plain_act P.plain) out.old.items out.new.items (sends next schedule (λ packet. Act.PingSend dst (echo_rest self.old.number self.old.counts.sent) packet) self.old numbers.old).acts) }
    {
        if self.counts.sent >= schedule.count {
            return Ok(());
        }
        let rest = echo_rest(self.number, self.counts.sent);
        let packet = self.payload::<P>(schedule, maker, numbers, *out.allocator())?;
        out.push(Act::PingSend { dst, rest, packet })?;
        self.counts.count_sent(schedule.size);
        ask_again(next, schedule, self.counts.sent, out)
    }

    /// A payload: zeros, with the application's number on its bytes, and the priority on the packet.
    fn payload<P: Pkt>(
        &self,
        schedule: Schedule,
        maker: &mut P::Maker,
        numbers: &mut Numbers,
        alloc: Global,
    ) -> Result<P, NoMemory>
        requires { schedule.size ≤ longest_payload }
        ensures packet { IfOk result (λ packet. P.plain packet ≡ payload self.now schedule numbers.old) }
        ensures numbers { OnOk result (numbers.new ≡ with_packet numbers.old) }
    {
        let uid = next_uid(numbers);
        let mut packet = P::zeros(alloc, maker, uid, schedule.size)?;
        packet.add_byte_tag(TAG, u64::from(self.number))?;
        packet.replace_tag(TAG, schedule.priority)?;
        Ok(packet)
    }

    fn receive<P: Pkt>(
        &mut self,
        src: u32,
        sport: u16,
        packet: P,
        out: &mut Vec<Act<P>>,
    ) -> Result<(), NoMemory>
        ensures state { OnOk result (self.new ≡ (gets src sport (P.plain packet) self.old.kind self.old).state) }
        ensures acts { OnOk result (Appends (plain_act P.plain) out.old.items out.new.items (gets src sport (P.plain packet) self.old.kind self.old).acts) }
    {
        match self.kind {
            AppKind::UdpSend { .. } | AppKind::OnOff { .. } | AppKind::TcpBulk { .. } => Ok(()),
            AppKind::UdpSink
            | AppKind::UdpEchoClient { .. }
            | AppKind::TcpSink
            | AppKind::Ping { .. } => {
                self.counts.count_got(packet.len());
                Ok(())
            }
            AppKind::UdpEchoServer => self.send_back(src, sport, packet, out),
        }
    }

    /// Sends the packet back to its sender, without its priority.
    fn send_back<P: Pkt>(
        &mut self,
        src: u32,
        sport: u16,
        mut packet: P,
        out: &mut Vec<Act<P>>,
    ) -> Result<(), NoMemory>
        ensures state { OnOk result (self.new ≡ (sends_back src sport (P.plain packet) self.old).state) }
        ensures acts { OnOk result (Appends (plain_act P.plain) out.old.items out.new.items (sends_back src sport (P.plain packet) self.old).acts) }
    {
        let bytes = packet.len();
        self.counts.count_got(bytes);
        self.counts.count_sent(bytes);
        let _priority = packet.remove_tag(TAG);
        out.push(Act::UdpSend {
            dst: src,
            port: sport,
            packet,
        })?;
        Ok(())
    }
}

ghost use Rattle.traffic_apps.specs.Step.{BringsDatagram, CanTake, FitsDatagram, IsLaterThan, after, echo_rest, next_tick, step};
ghost use Rattle.traffic_apps.specs.App.{PlainApp, IsKind, idle};
ghost use Rattle.traffic_apps.specs.Writing.{WritesStream, app_after, asked_over};
ghost use Rattle.traffic_apps.specs.Runs.{SendsAlone, SendsCountInAll};

/// What an application sends as a datagram fits one, also where it sends back what came; and the segments of a connection that
/// it opens are within their limits.
#[tactic(auto, using(crate::proofs::StepLaws::step_fits))]
pub fn payloads_fit()
    ensures { (a : PlainApp) (n : PlainNumbers) (input : In Packet) → IsKind a.kind → BringsDatagram input → All FitsDatagram (step a n input).acts }
{}

/// Every time that an application asks for is a later one.
#[tactic(auto, using(crate::proofs::StepLaws::step_is_later))]
pub fn ticks_come_later()
    ensures { (a : PlainApp) (n : PlainNumbers) (input : In Packet) → IsKind a.kind → All (IsLaterThan input) (step a n input).acts }
{}

/// Each tick sends one payload, until all are sent; and an application asks for as many ticks as it has payloads left.
#[tactic(auto, using(crate::proofs::RunLaws::sends_count_in_all, crate::proofs::RunLaws::sends_alone))]
pub fn count_is_sent_in_all()
    ensures sent { (times : List PlainTime) (a : PlainApp) (n : PlainNumbers) → SendsCountInAll times a n }
    ensures ticks { (most : ℕ) (first : PlainTime) (a : PlainApp) (n : PlainNumbers) → SendsAlone most first a n }
{}

/// A bulk sender has written the first bytes of its stream, as many as its count of bytes says, and closes where these are
/// all and only there.
#[tactic(auto, using(crate::proofs::Writes::writes_stream))]
pub fn bulk_is_sent_in_order()
    ensures { (inputs : List (In Packet)) (number dst port bytes mss : ℕ) (n : PlainNumbers) → bytes ≤ 2 ^ 30 →
        let a = idle number (AppKind.TcpBulk dst port bytes mss) in
        WritesStream bytes (app_after inputs a n).counts.sent_bytes (asked_over inputs a n) }
{}

/// The four bytes of an echo request: the number of its application and its own, each modulo 2^16.
fn echo_rest(number: u32, sent: u64) -> u32
    ensures { result ≡ echo_rest number sent }
{
    number % 0x1_0000 * 0x1_0000 + (sent % 0x1_0000) as u32
}

/// So long after now.
fn after(now: Time, span: Time) -> Time
    requires now { now.0 ≤ 10 ^ 12 }
    requires span { span.0 ≤ 10 ^ 15 }
    ensures { result ≡ after now span }
{
    Time(now.0 + span.0)
}

/// Asks for the next tick, as long as payloads are left.
fn ask_again<P: Pkt>(
    next: Time,
    schedule: Schedule,
    sent: u64,
    out: &mut Vec<Act<P>>,
) -> Result<(), NoMemory>
    ensures { OnOk result (Appends (plain_act P.plain) out.old.items out.new.items (next_tick next schedule sent)) }
{
    if sent < schedule.count {
        out.push(Act::TickAt { at: next })?;
    }
    Ok(())
}
