//! TCP's congestion control: NewReno (RFC 6582, over RFC 5681). A connection tells it of acknowledgements and
//! timeouts, keeps no more bytes in flight than `cwnd`, and sends the first segment that isn't acknowledged again
//! where it says `Resend`.
#![tactic(auto)]

mod reno;

ghost use Rattle.std.specs.Prelude.{◌≡◌, ◌≤◌, ◌^◌, ℕ, Bool, List, All};
ghost use Rattle.tcp_reno.specs.NewReno.{NewReno, start};
ghost use Rattle.tcp_reno.specs.Step.{IsAckUpTo, run};

pub use reno::Reno;

/// What NewReno is told. `flight` is counted after `una` has moved.
#[derive(Clone, Copy, Debug, PartialEq, Eq)]
pub enum RenoIn {
    /// An acknowledgement of new data, `acked` bytes up to `ack`.
    NewAck { ack: u64, acked: u64, flight: u64 },
    /// An acknowledgement that came before; `max` is the highest position sent.
    DupAck { ack: u64, flight: u64, max: u64 },
    /// The retransmission timer fired.
    Timeout { una: u64, flight: u64, max: u64 },
}

/// What NewReno asks for.
#[derive(Clone, Copy, Debug, PartialEq, Eq)]
pub enum RenoAct {
    /// Send the segment at `una` again.
    Resend,
}

/// Whatever a connection meets, its congestion window has room for a full segment and for no more than 2^30 bytes.
pub fn window_in_bounds()
    ensures full_segment { (smss : ℕ) (repeated : Bool) (inputs : List RenoIn) → smss ≤ 9000 →
        smss ≤ (run (start smss repeated) inputs).cwnd }
    ensures limit { (smss : ℕ) (repeated : Bool) (inputs : List RenoIn) → smss ≤ 9000 →
        (run (start smss repeated) inputs).cwnd ≤ 2 ^ 30 }
{}

/// Acknowledgements of what was sent before a loss was noticed don't lower the threshold again: one window of data does so
/// once.
pub fn one_loss_a_window()
    ensures { (r : NewReno) (inputs : List RenoIn) → All (IsAckUpTo r.recover) inputs → (run r inputs).ssthresh ≡ r.ssthresh }
{}
