//! The law of the delivered prefix, of both ends of a connection.

ghost use Rattle.std.specs.Prelude.{◌≡◌, ◌<◌, ℕ, List, false, true};
ghost use Rattle.tcp_stream.specs.History.{IsPrefixOf, delivered, has_end};
ghost use Rattle.tcp_conn.specs.declared.connection.Connection.{Connection};
ghost use Rattle.tcp_conn.specs.declared.words.Heard.{Heard};
ghost use Rattle.tcp_conn.specs.Begin.{closes, writes};
ghost use Rattle.tcp_conn.specs.Ends.{Happening, opened, run};
ghost use Rattle.tcp_conn.specs.Following.{Follows, IsQuiet};
ghost use Rattle.tcp_conn.specs.Step.{hears, times_out};

/// A sink takes a segment in as the law of `tcp_stream` does where the segment comes, or takes nothing in. A timeout and
/// what its application asks for take nothing in.
pub fn sinks_follow_the_law()
    ensures hears { (now : ℕ) (heard : Heard) (bytes : List ℕ) (c : Connection) → c.opener ≡ false → Follows c heard bytes (hears now heard bytes c) }
    ensures times_out { (now : ℕ) (c : Connection) → IsQuiet c (times_out now c) }
    ensures writes { (now : ℕ) (bytes : List ℕ) (c : Connection) → IsQuiet c (writes now bytes c) }
    ensures closes { (now : ℕ) (c : Connection) → IsQuiet c (closes now c) }
{}

/// Whatever happens to both ends of a connection, and whatever the opener hears, what the sink has delivered is a prefix
/// of what the opener's writes have taken, and the sink tells the end only after the close, when it has delivered them
/// all.
pub fn deliveries_are_a_prefix()
    ensures prefix { (now mss : ℕ) (happenings : List Happening) → 0 < mss →
        IsPrefixOf (delivered (run (opened now mss) happenings).told) (run (opened now mss) happenings).written }
    ensures end { (now mss : ℕ) (happenings : List Happening) → 0 < mss → has_end (run (opened now mss) happenings).told ≡ true →
        ((run (opened now mss) happenings).opener.closing ≡ true) × (delivered (run (opened now mss) happenings).told ≡ (run (opened now mss) happenings).written) }
{
    tcp_stream::delivered_prefix();
}
