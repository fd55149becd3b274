//! Why bytes give no scenario.

use crate::field::Code;

/// Where a document is refused: the section, the table's index in it, and the field, 0 for none.
#[derive(Clone, Copy, Debug, PartialEq, Eq)]
pub struct Place {
    pub section: u8,
    pub index: u32,
    pub field: u8,
}

/// Why bytes give no scenario.
#[derive(Clone, Copy, Debug, PartialEq, Eq)]
pub enum Refusal {
    /// There are more bytes than a scenario may have, of which so many were taken.
    TooLong { taken: u64 },
    /// The bytes are no TOML document.
    NotToml,
    /// The document isn't a scenario: the first place that is refused, and why.
    Schema { place: Place, code: Code },
}

/// Why the reader gives no scenario.
#[derive(Clone, Copy, Debug, PartialEq, Eq)]
pub enum ReadStop {
    Refused(Refusal),
    NoMemory,
}

/// Why a part of the reader gives no value.
#[derive(Clone, Copy, Debug, PartialEq, Eq)]
pub enum Stop<E> {
    Refused(E),
    NoMemory,
}
