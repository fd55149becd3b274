//! What a queue answers.

/// What a queue did with a packet that was offered to it.
#[derive(Debug, Drop)]
pub enum Offer<P> {
    Kept,
    Full { packet: P, held: u32 },
    NoMemory { packet: P },
}
