//! Segments survive their way through packets.

ghost use Rattle.std.specs.Prelude.{◌≡◌, ℕ, List, Some};
ghost use Rattle.sim_base.specs.declared.numbers.Uid.{Uid};
ghost use Rattle.tcp_conn.specs.declared.words.Heard.{Heard};
ghost use Rattle.tcp_wire.specs.declared.words.SocketPair.{SocketPair};
ghost use Rattle.tcp_wire.specs.Sayable.{IsSayable};
ghost use Rattle.tcp_wire.specs.Segment.{arrived, segment};

/// A segment is read as it was written: its checksum is right, and its header and bytes say the same.
pub fn segments_are_read_as_written()
    ensures { (uid : Uid) (app : ℕ) (pair : SocketPair) (says : Heard) (bytes : List ℕ) → IsSayable pair says bytes →
        arrived pair.addr pair.other_addr (segment uid app pair says bytes) ≡ Some (record { sport = pair.port; dport = pair.other_port; says = says; bytes = bytes }) }
{}
