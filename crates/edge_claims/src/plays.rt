//! What each atomic step on a block's table tells the window that takes it. No value of these types is
//! made.

ghost use Rattle.edge_claims.specs.Steps.{claimed_front, claimed_back, filled_front, filled_back, shared_view, copied_view};

use crate::view::{End, View};
use atomic_table::{Play, Split};

pub(crate) struct ClaimFront;

impl Play<End, View> for ClaimFront {
    ghost then = { claimed_front };
}

pub(crate) struct FillFront;

impl Play<End, View> for FillFront {
    ghost then = { filled_front };
}

pub(crate) struct ClaimBack;

impl Play<End, View> for ClaimBack {
    ghost then = { claimed_back };
}

pub(crate) struct FillBack;

impl Play<End, View> for FillBack {
    ghost then = { filled_back };
}

pub(crate) struct Copy;

impl Split<View> for Copy {
    ghost left = { shared_view };

    ghost right = { copied_view };
}
