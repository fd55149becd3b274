//! What an application has sent and got.

ghost use Rattle.std.specs.Prelude.{◌≡◌};
ghost use Rattle.traffic_apps.specs.Counts.{with_got, with_sent};

/// Packets and bytes that were sent and got. A count stays at the end of its type once it is there.
#[derive(Clone, Copy, Debug, PartialEq, Eq)]
pub struct Counts {
    pub sent: u64,
    pub sent_bytes: u64,
    pub got: u64,
    pub got_bytes: u64,
}

impl Counts {
    /// Counts a packet of so many bytes as sent.
    pub(crate) fn count_sent(&mut self, bytes: u32)
        ensures { self.new ≡ with_sent bytes self.old }
    {
        self.sent = self.sent.saturating_add(1);
        self.sent_bytes = self.sent_bytes.saturating_add(u64::from(bytes));
    }

    /// Counts a packet of so many bytes as got.
    pub(crate) fn count_got(&mut self, bytes: u32)
        ensures { self.new ≡ with_got bytes self.old }
    {
        self.got = self.got.saturating_add(1);
        self.got_bytes = self.got_bytes.saturating_add(u64::from(bytes));
    }
}
