//! The fields of a route.
ghost use Rattle.std.specs.Prelude.{◌≡◌, map};
ghost use Rattle.scenario_form.specs.Coded.{row};
ghost use Rattle.scenario_form.specs.Rows.{route_rows};

use crate::field::{Field, Form, Item};

const ROUTE: [Field; 4] = [
    Field {
        number: 1,
        key: "node",
        form: Form::One(Item::Node),
        required: true,
    },
    Field {
        number: 2,
        key: "dest",
        form: Form::One(Item::Address),
        required: true,
    },
    Field {
        number: 3,
        key: "prefix",
        form: Form::One(Item::Integer { low: 0, high: 30 }),
        required: true,
    },
    Field {
        number: 4,
        key: "via",
        form: Form::One(Item::Address),
        required: true,
    },
];

/// The fields of a route.
pub fn route_fields() -> &'static [Field]
    ensures { map row result.now ≡ route_rows }
{
    &ROUTE
}
