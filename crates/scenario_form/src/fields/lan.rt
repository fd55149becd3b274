//! The fields of a LAN.
ghost use Rattle.std.specs.Prelude.{◌≡◌, map};
ghost use Rattle.scenario_form.specs.Coded.{row};
ghost use Rattle.scenario_form.specs.Rows.{lan_rows};

use crate::field::{Field, Form, Item, Words};
use crate::fields::{MOST_RATE, MOST_TIME};

const LAN: [Field; 12] = [
    Field {
        number: 1,
        key: "members",
        form: Form::List {
            item: Item::Node,
            least: 2,
            most: 200,
        },
        required: true,
    },
    Field {
        number: 2,
        key: "addrs",
        form: Form::List {
            item: Item::Address,
            least: 0,
            most: u64::MAX,
        },
        required: true,
    },
    Field {
        number: 3,
        key: "prefix",
        form: Form::One(Item::Integer { low: 8, high: 30 }),
        required: false,
    },
    Field {
        number: 4,
        key: "rate_bps",
        form: Form::One(Item::Integer {
            low: 1,
            high: MOST_RATE,
        }),
        required: true,
    },
    Field {
        number: 5,
        key: "delay_ns",
        form: Form::One(Item::Integer {
            low: 0,
            high: MOST_TIME,
        }),
        required: true,
    },
    Field {
        number: 6,
        key: "mtu",
        form: Form::One(Item::Integer {
            low: 68,
            high: 65535,
        }),
        required: false,
    },
    Field {
        number: 7,
        key: "cost",
        form: Form::One(Item::Integer {
            low: 1,
            high: 65535,
        }),
        required: false,
    },
    Field {
        number: 8,
        key: "queue",
        form: Form::One(Item::Word(Words::Queue)),
        required: false,
    },
    Field {
        number: 9,
        key: "limit",
        form: Form::One(Item::Integer {
            low: 1,
            high: 100_000,
        }),
        required: false,
    },
    Field {
        number: 10,
        key: "tbf_bps",
        form: Form::One(Item::Integer {
            low: 1,
            high: MOST_RATE,
        }),
        required: false,
    },
    Field {
        number: 11,
        key: "tbf_burst",
        form: Form::One(Item::Integer {
            low: 1,
            high: 1_000_000_000,
        }),
        required: false,
    },
    Field {
        number: 12,
        key: "pcap",
        form: Form::One(Item::Flag),
        required: false,
    },
];

/// The fields of a LAN.
pub fn lan_fields() -> &'static [Field]
    ensures { map row result.now ≡ lan_rows }
{
    &LAN
}
