//! The fields of a loss.
ghost use Rattle.std.specs.Prelude.{◌≡◌, map};
ghost use Rattle.scenario_form.specs.Coded.{row};
ghost use Rattle.scenario_form.specs.Rows.{loss_rows};

use crate::field::{Field, Form, Item};

const LOSS: [Field; 4] = [
    Field {
        number: 1,
        key: "node",
        form: Form::One(Item::Node),
        required: true,
    },
    Field {
        number: 2,
        key: "iface",
        form: Form::One(Item::Integer {
            low: i64::MIN,
            high: i64::MAX,
        }),
        required: true,
    },
    Field {
        number: 3,
        key: "frames",
        form: Form::Rising {
            high: 1_000_000_000,
        },
        required: false,
    },
    Field {
        number: 4,
        key: "millionths",
        form: Form::One(Item::Integer {
            low: 0,
            high: 1_000_000,
        }),
        required: false,
    },
];

/// The fields of a loss.
pub fn loss_fields() -> &'static [Field]
    ensures { map row result.now ≡ loss_rows }
{
    &LOSS
}
