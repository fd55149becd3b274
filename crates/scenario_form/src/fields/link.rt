//! The fields of a link.
ghost use Rattle.std.specs.Prelude.{◌≡◌, map};
ghost use Rattle.scenario_form.specs.Coded.{row};
ghost use Rattle.scenario_form.specs.Rows.{link_rows};

use crate::field::{Field, Form, Item, Words};
use crate::fields::{MOST_RATE, MOST_TIME};

const LINK: [Field; 14] = [
    Field {
        number: 1,
        key: "a",
        form: Form::One(Item::Node),
        required: true,
    },
    Field {
        number: 2,
        key: "b",
        form: Form::One(Item::Node),
        required: true,
    },
    Field {
        number: 3,
        key: "a_addr",
        form: Form::One(Item::Address),
        required: true,
    },
    Field {
        number: 4,
        key: "b_addr",
        form: Form::One(Item::Address),
        required: true,
    },
    Field {
        number: 5,
        key: "prefix",
        form: Form::One(Item::Integer { low: 8, high: 30 }),
        required: false,
    },
    Field {
        number: 6,
        key: "rate_bps",
        form: Form::One(Item::Integer {
            low: 1,
            high: MOST_RATE,
        }),
        required: true,
    },
    Field {
        number: 7,
        key: "delay_ns",
        form: Form::One(Item::Integer {
            low: 0,
            high: MOST_TIME,
        }),
        required: true,
    },
    Field {
        number: 8,
        key: "mtu",
        form: Form::One(Item::Integer {
            low: 68,
            high: 65535,
        }),
        required: false,
    },
    Field {
        number: 9,
        key: "cost",
        form: Form::One(Item::Integer {
            low: 1,
            high: 65535,
        }),
        required: false,
    },
    Field {
        number: 10,
        key: "queue",
        form: Form::One(Item::Word(Words::Queue)),
        required: false,
    },
    Field {
        number: 11,
        key: "limit",
        form: Form::One(Item::Integer {
            low: 1,
            high: 100_000,
        }),
        required: false,
    },
    Field {
        number: 12,
        key: "tbf_bps",
        form: Form::One(Item::Integer {
            low: 1,
            high: MOST_RATE,
        }),
        required: false,
    },
    Field {
        number: 13,
        key: "tbf_burst",
        form: Form::One(Item::Integer {
            low: 1,
            high: 1_000_000_000,
        }),
        required: false,
    },
    Field {
        number: 14,
        key: "pcap",
        form: Form::One(Item::Flag),
        required: false,
    },
];

/// The fields of a link.
pub fn link_fields() -> &'static [Field]
    ensures { map row result.now ≡ link_rows }
{
    &LINK
}
