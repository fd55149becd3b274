//! What the windows of a block know and hold of it, and the rule that all of them keep.

ghost use Rattle.std.specs.Prelude.{◌≡◌, ℕ, Bool, List};
ghost use base.Fml.{ftrue};
ghost use Rattle.byte_block.specs.Ranges.{Block};
ghost use Rattle.edge_claims.specs.Sides.{Side};

use atomic_table::TableRule;
use byte_block::{FreeRange, FrozenRange};
use std::marker::Model;

/// The block as its free places were laid out: its first window's bytes, how many places it has, and where
/// its edges stood when it was made.
#[derive(Drop)]
pub struct Opening {
    pub bytes: FrozenRange,
    pub capacity: u32,
    pub first_low: u32,
    pub first_high: u32,
}

/// The bytes that were written last, for the proofs alone.
#[derive(Drop)]
pub struct Wrote {
    pub ghost bytes: { List ℕ },
}

impl Model for Wrote {
    ghost also_owns = { λ _. ftrue };
}

unsafe impl Send for Wrote {}

impl Wrote {
    pub(crate) fn of(bytes: &[u8]) -> Wrote
        ensures { result.bytes ≡ bytes.now }
    {
        Wrote {}
    }
}

/// The free places at one end of a block.
#[derive(Drop)]
pub struct End {
    pub free: FreeRange,
    pub wrote: Wrote,
}

impl End {
    pub(crate) fn of(free: FreeRange) -> End
        ensures { result.free ≡ free }
    {
        End {
            free,
            wrote: Wrote::of(&[]),
        }
    }
}

/// What a window's seat knows. No value of it is made.
pub struct View {
    pub ghost block: { Block },
    pub ghost capacity: { ℕ },
    pub ghost bytes: { List ℕ },
    pub ghost front: { Side },
    pub ghost back: { Side },
    pub ghost alone: { Bool },
}

impl Model for View {
    ghost also_owns = { λ _. ftrue };
}

pub struct Claims;

impl TableRule<End, View, Opening> for Claims {
    ghost use Rattle.edge_claims.specs.Rule.{BlockInvariant, first_view};

    ghost holds = { BlockInvariant };

    ghost first = { first_view };
}
