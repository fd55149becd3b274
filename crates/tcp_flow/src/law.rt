//! Laws of connections: the delivered prefix of what nodes do, timers, and numbers.

ghost use Rattle.std.specs.Prelude.{◌≡◌, ◌<◌, ℕ, List, true, All, None, IsSome};
ghost use Rattle.sim_base.specs.declared.numbers.Numbers.{Numbers};
ghost use Rattle.sim_base.specs.Packet.{Packet};
ghost use Rattle.tcp_stream.specs.History.{IsPrefixOf, delivered, has_end};
ghost use Rattle.tcp_flow.specs.declared.words.In.{In};
ghost use Rattle.tcp_flow.specs.declared.conn.Conn.{Conn};
ghost use Rattle.tcp_flow.specs.Conns.{PlainConns, step};
ghost use Rattle.tcp_flow.specs.Index.{InOrder};
ghost use Rattle.tcp_flow.specs.Later.{IsLater, time_of};
ghost use Rattle.tcp_flow.specs.Life.{Birth, IsTransfer, life_of};
ghost use Rattle.tcp_flow.specs.Table.{AllWait, least_free, under};

/// Of a connection that an application opens at one node and a segment makes at another, whatever else the two nodes take
/// for it and for their other connections: as long as only segments come to the sink that the opener has sent, lost,
/// repeated and in any order, what the sink hands to its application is a prefix of what the opener's writes have taken;
/// and it tells the end only after the close, when it has handed on all of it. As each node's inputs are any that it has
/// taken so far, this holds at every moment.
pub fn deliveries_between_nodes_are_a_prefix()
    ensures prefix { (opener sink : Birth) (there here : List (In Packet)) → IsTransfer opener sink there here →
        IsPrefixOf (delivered (life_of sink here).told) (life_of opener there).written }
    ensures end { (opener sink : Birth) (there here : List (In Packet)) → IsTransfer opener sink there here → has_end (life_of sink here).told ≡ true →
        ((life_of opener there).closed ≡ true) × (delivered (life_of sink here).told ≡ (life_of opener there).written) }
{
    tcp_conn::deliveries_are_a_prefix();
    tcp_wire::segments_are_read_as_written();
}

/// Every timer that connections ask for fires later than now, and their waits stay long enough for it.
pub fn timers_come_later()
    ensures later { (t : PlainConns) (n : Numbers) (input : In Packet) → AllWait t.conns → All (IsLater (time_of input)) (step t n input).acts }
    ensures waits { (t : PlainConns) (n : Numbers) (input : In Packet) → AllWait t.conns → AllWait (step t n input).state.conns }
{}

/// The number of a new connection is free, and every lower one is taken.
pub fn new_numbers_are_the_least_free()
    ensures free { (conns : List (ℕ × Conn)) → InOrder conns → under (least_free 0 conns) conns ≡ None }
    ensures least { (conns : List (ℕ × Conn)) (number : ℕ) → number < least_free 0 conns → IsSome (under number conns) }
{}
