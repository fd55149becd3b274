//! The stream of bytes of one TCP connection: the opener's send buffer, the sink's receiver, and the law that the sink
//! delivers a prefix of what was written, whatever is lost, repeated or reordered on the way.
#![tactic(auto)]

mod cuts;
mod piece;
mod receiver;
mod send_buffer;
mod store;

ghost use Rattle.std.specs.FinMap.{get};
ghost use Rattle.std.specs.List.{slice_get};
ghost use Rattle.std.specs.Option.{option_or};
ghost use Rattle.tcp_stream.specs.Held.{Held, front, in_window, taken_in, window};
ghost use Rattle.std.specs.Prelude.{Some, None, nat_le, ◌-◌, if◌then◌else◌, ◌≡◌, ◌+◌, ◌%◌, ◌^◌, ◌<◌, ◌++◌, ◌∷◌, ℕ, suc, Bool, List, [], true, false, length, take, drop};
ghost use Rattle.tcp_stream.specs.History.{CarriesWritten, Event, IsHistory, IsPrefixOf, World, delivered, delivery, has_end, opened, run, transfer};
ghost use Rattle.tcp_stream.specs.History.Told.{End};

pub use receiver::{Received, Receiver};
pub use send_buffer::{SEND_BUFFER, SendBuffer};
pub use store::{ReceiveStore, WINDOW};

/// Whatever is lost, repeated or reordered, the sink's deliveries joined together are a prefix of the bytes written, and
/// it tells the end only after a close, when it has delivered them all.
pub fn delivered_prefix()
    ensures prefix { (events : List Event) → IsHistory opened events →
        IsPrefixOf (delivered (run opened events).told) (run opened events).written }
    ensures end { (events : List Event) → IsHistory opened events → has_end (run opened events).told ≡ true →
        ((run opened events).closed ≡ true) × (delivered (run opened events).told ≡ (run opened events).written) }
{}

/// A history that goes on is a history: so a machine follows histories where each of its steps is one from where it
/// stands.
pub fn histories_join()
    ensures joined { (w : World) (events more : List Event) → IsHistory w events → IsHistory (run w events) more → IsHistory w (events ++ more) }
    ensures run { (w : World) (events more : List Event) → run w (events ++ more) ≡ run (run w events) more }
{}

/// What openers send: a SYN, a cut of what was written, at its position in 32 bits, a bare acknowledgement, and after
/// the close a FIN.
pub fn openers_may_send()
    ensures syn { (written : List ℕ) (closed : Bool) →
        CarriesWritten written closed (record { seq = 0; syn = true; fin = false; bytes = [] }) }
    ensures cut { (written : List ℕ) (closed : Bool) (before n : ℕ) →
        CarriesWritten written closed (record { seq = suc before % 2 ^ 32; syn = false; fin = false; bytes = take n (drop before written) }) }
    ensures bare { (written : List ℕ) (closed : Bool) (seq : ℕ) → seq < 2 ^ 32 →
        CarriesWritten written closed (record { seq = seq; syn = false; fin = false; bytes = [] }) }
    ensures fin { (written : List ℕ) →
        CarriesWritten written true (record { seq = (length written + 1) % 2 ^ 32; syn = false; fin = true; bytes = [] }) }
{}

/// What a store holds, position by position: the first byte that came stays, and only the window's positions take one.
/// Its front is what is held from a position on up to the first hole.
pub fn held_by_position()
    ensures taken_in { (rcv : ℕ) (held : Held) (position : ℕ) (bytes : List ℕ) (q : ℕ) →
        get (taken_in rcv held position bytes) q ≡ option_or (get held q)
        (if in_window rcv q then (if nat_le position q then slice_get bytes (q - position) else None) else None) }
    ensures front { (room : ℕ) (held : Held) (position i byte : ℕ) →
        slice_get (front room held position) i ≡ Some byte → get held (position + i) ≡ Some byte }
    ensures hole { (room : ℕ) (held : Held) (position : ℕ) → length (front room held position) < room →
        get held (position + length (front room held position)) ≡ None }
{}

/// There are whole transfers: bytes that fit the window can come in one segment, and are delivered with the end.
pub fn transfers_end()
    ensures history { (bytes : List ℕ) → length bytes < window → IsHistory opened (transfer bytes) }
    ensures told { (bytes : List ℕ) → length bytes < window → (run opened (transfer bytes)).told ≡ delivery bytes ++ End ∷ [] }
{}
