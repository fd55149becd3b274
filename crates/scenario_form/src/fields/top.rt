//! The fields of the top table.
ghost use Rattle.std.specs.Prelude.{◌≡◌, map};
ghost use Rattle.scenario_form.specs.Coded.{row};
ghost use Rattle.scenario_form.specs.Rows.{top_rows};

use crate::field::{Field, Form, Item, Words};
use crate::fields::MOST_TIME;

const TOP: [Field; 13] = [
    Field {
        number: 1,
        key: "format",
        form: Form::One(Item::Integer { low: 1, high: 1 }),
        required: true,
    },
    Field {
        number: 2,
        key: "nodes",
        form: Form::One(Item::Integer { low: 1, high: 1000 }),
        required: true,
    },
    Field {
        number: 3,
        key: "stop_ns",
        form: Form::One(Item::Integer {
            low: 0,
            high: MOST_TIME,
        }),
        required: true,
    },
    Field {
        number: 4,
        key: "seed",
        form: Form::One(Item::Integer {
            low: 0,
            high: 9_007_199_254_740_992,
        }),
        required: false,
    },
    Field {
        number: 5,
        key: "events_per_node",
        form: Form::One(Item::Integer {
            low: 1,
            high: 1_000_000_000,
        }),
        required: false,
    },
    Field {
        number: 6,
        key: "routing",
        form: Form::One(Item::Word(Words::Routing)),
        required: false,
    },
    Field {
        number: 7,
        key: "ascii",
        form: Form::One(Item::Flag),
        required: false,
    },
    Field {
        number: 8,
        key: "groups",
        form: Form::Groups(Item::Node),
        required: false,
    },
    Field {
        number: 9,
        key: "link",
        form: Form::Tables { most: 4000 },
        required: false,
    },
    Field {
        number: 10,
        key: "lan",
        form: Form::Tables { most: 200 },
        required: false,
    },
    Field {
        number: 11,
        key: "route",
        form: Form::Tables { most: 10_000 },
        required: false,
    },
    Field {
        number: 12,
        key: "app",
        form: Form::Tables { most: 4000 },
        required: false,
    },
    Field {
        number: 13,
        key: "loss",
        form: Form::Tables { most: 1000 },
        required: false,
    },
];

/// The fields of the top table.
pub fn top_fields() -> &'static [Field]
    ensures { map row result.now ≡ top_rows }
{
    &TOP
}
