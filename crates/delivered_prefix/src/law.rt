//! What an input does to a node's connections, and what two nodes do for a connection between them.

ghost use Rattle.std.specs.Prelude.{◌≡◌, ℕ, List, All, None, Some, false, true};
ghost use Rattle.sim_base.specs.declared.numbers.Numbers.{Numbers};
ghost use Rattle.sim_base.specs.declared.time.Time.{Time};
ghost use Rattle.sim_base.specs.Packet.{Packet};
ghost use Rattle.tcp_stream.specs.History.{IsPrefixOf, delivered, has_end};
ghost use Rattle.tcp_wire.specs.declared.words.SocketPair.{SocketPair};
ghost use Rattle.tcp_flow.specs.declared.words.In.{In};
ghost use Rattle.tcp_flow.specs.declared.conn.Conn.{Conn};
ghost use Rattle.tcp_flow.specs.Conns.{PlainConns, step};
ghost use Rattle.tcp_flow.specs.Index.{InOrder};
ghost use Rattle.tcp_flow.specs.Life.{concerned, is_number};
ghost use Rattle.tcp_flow.specs.Table.{under};
ghost use Rattle.delivered_prefix.specs.Handshake.{Ask, BeginsTransfer, IsAsk, IsReady};
ghost use Rattle.delivered_prefix.specs.Nodes.{Happening, IsHistory, nodes_before, run};
ghost use Rattle.delivered_prefix.specs.OneConnection.{AreNumbered, Begins, GoesOn, IsNobodys};

/// An input concerns one connection of a node or none. It leaves every other one as it is; what becomes of the one, and
/// what is to be done then, is what one event makes of that connection alone, or what makes a new one; and where it
/// concerns none, all stay, and no application is told anything and no timer asked for.
pub fn inputs_concern_one_connection()
    ensures others { (t : PlainConns) (n : Numbers) (input : In Packet) (number : ℕ) → InOrder t.conns → is_number number (concerned t input) ≡ false →
        under number (step t n input).state.conns ≡ under number t.conns }
    ensures goes_on { (t : PlainConns) (n : Numbers) (input : In Packet) (number : ℕ) (k : Conn) → InOrder t.conns → concerned t input ≡ Some number → under number t.conns ≡ Some k →
        GoesOn t n input number k }
    ensures begins { (t : PlainConns) (n : Numbers) (input : In Packet) (number : ℕ) → InOrder t.conns → concerned t input ≡ Some number → under number t.conns ≡ None →
        Begins t n input number }
    ensures nobodys { (t : PlainConns) (n : Numbers) (input : In Packet) → InOrder t.conns → concerned t input ≡ None → All IsNobodys (step t n input).acts }
    ensures order { (t : PlainConns) (n : Numbers) (input : In Packet) → InOrder t.conns → InOrder (step t n input).state.conns }
    ensures numbered { (t : PlainConns) (n : Numbers) (input : In Packet) → InOrder t.conns → AreNumbered t.conns → AreNumbered (step t n input).state.conns }
{}

/// Of a connection that an application opens at one node and whose SYN makes the other end at another, whatever the two
/// nodes take in any order, before it is opened and until long after it is removed: as long as each segment that makes or
/// reaches the sink's end is one that the opener's end has sent before, lost, repeated and in any order as may be, what
/// the sink hands to its application is a prefix of what the opener's writes have taken; and it tells the end only after
/// the close, when it has handed on all of it.
pub fn nodes_deliver_a_prefix()
    ensures prefix { (pair : SocketPair) (there : PlainConns) (n : Numbers) (here : PlainConns) (m : Numbers) (happenings : List Happening) →
        InOrder there.conns → InOrder here.conns → IsHistory pair (nodes_before there n here m) happenings →
        IsPrefixOf (delivered (run pair (nodes_before there n here m) happenings).sink.life.told) (run pair (nodes_before there n here m) happenings).opener.life.written }
    ensures end { (pair : SocketPair) (there : PlainConns) (n : Numbers) (here : PlainConns) (m : Numbers) (happenings : List Happening) →
        InOrder there.conns → InOrder here.conns → IsHistory pair (nodes_before there n here m) happenings →
        has_end (run pair (nodes_before there n here m) happenings).sink.life.told ≡ true →
        ((run pair (nodes_before there n here m) happenings).opener.life.closed ≡ true) ×
        (delivered (run pair (nodes_before there n here m) happenings).sink.life.told ≡ (run pair (nodes_before there n here m) happenings).opener.life.written) }
{
    tcp_flow::deliveries_between_nodes_are_a_prefix();
}

/// Such a history begins where an application opens a connection and another one listens at the port: the opener's node
/// sends one segment, its SYN, and when this comes, both ends stand.
pub fn handshakes_begin_transfers()
    ensures { (ask : Ask) (later : Time) (listener : ℕ) (there : PlainConns) (n : Numbers) (here : PlainConns) (m : Numbers) →
        IsAsk ask → IsReady ask.pair listener there here → BeginsTransfer ask later listener there n here m }
{
    tcp_wire::segments_are_read_as_written();
}
