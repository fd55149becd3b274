//! The kinds of disc.

/// Whether all frames share one queue, or each class of frames has its own, and how many frames may wait in all.
#[derive(Clone, Copy, Debug, PartialEq, Eq)]
pub enum CodelKind {
    /// One queue (RFC 8289).
    Codel { limit: u32 },
    /// A queue for each of 64 classes (RFC 8290). A frame's class is the value of its first byte tag 1 modulo 64, or 0.
    FqCodel { limit: u32 },
}
