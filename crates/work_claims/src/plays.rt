//! What each step on the table of a row tells. These types are for the proofs alone.

ghost use Rattle.std.specs.Prelude.{ℕ};
ghost use Rattle.work_claims.specs.Steps.{DrawsNumber, OpensPlace, ClosesPlace, dealing_view, dealt_view, joined_view, spent_view};

use crate::view::View;
use atomic_table::{Join, Play, Split};
use std::marker::{Brand, PhantomData};

/// A pass draws a number, in the row or past its end.
pub(crate) struct Draw;

impl<T> Play<Option<T>, View<T>> for Draw {
    ghost then = { DrawsNumber };
}

/// The place that a step opens or closes. A call at `Brand` picks it.
pub(crate) trait Place {
    ghost place: { ℕ };
}

impl Place for Brand {
    ghost place = { 0 };
}

/// A place that the pass drew is opened to it.
pub(crate) struct SlotOut<P> {
    place: PhantomData<P>,
}

impl<T, P: Place> Play<Option<T>, View<T>> for SlotOut<P> {
    ghost then = { OpensPlace P.place };
}

/// The open place is closed again, with what lies there now.
pub(crate) struct SlotIn<P> {
    place: PhantomData<P>,
}

impl<T, P: Place> Play<Option<T>, View<T>> for SlotIn<P> {
    ghost then = { ClosesPlace P.place };
}

/// A new pass gets one of the parts.
pub(crate) struct Deal;

impl<T> Split<View<T>> for Deal {
    ghost left = { dealing_view };

    ghost right = { dealt_view };
}

/// A pass is joined to another.
pub(crate) struct Gather;

impl<T> Join<View<T>> for Gather {
    ghost both = { joined_view };

    ghost spent = { spent_view };
}
