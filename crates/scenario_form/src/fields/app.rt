//! The fields of applications, of which each kind has some.
ghost use Rattle.std.specs.Prelude.{◌≡◌, map};
ghost use Rattle.scenario_form.specs.Coded.{row};
ghost use Rattle.scenario_form.specs.Tables.{rows_of_kind};

use crate::field::{Field, Form, Item, Words};
use crate::fields::{MOST_RATE, MOST_TIME};
use crate::scenario::Kind;

const KIND: Field = Field {
    number: 1,
    key: "kind",
    form: Form::One(Item::Word(Words::Kind)),
    required: true,
};

const NODE: Field = Field {
    number: 2,
    key: "node",
    form: Form::One(Item::Node),
    required: true,
};

const PORT: Field = Field {
    number: 3,
    key: "port",
    form: Form::One(Item::Integer {
        low: 1,
        high: 49152,
    }),
    required: true,
};

const DST: Field = Field {
    number: 4,
    key: "dst",
    form: Form::One(Item::Address),
    required: true,
};

const START: Field = Field {
    number: 5,
    key: "start_ns",
    form: Form::One(Item::Integer {
        low: 0,
        high: MOST_TIME,
    }),
    required: false,
};

const COUNT: Field = Field {
    number: 6,
    key: "count",
    form: Form::One(Item::Integer {
        low: 1,
        high: 1_000_000_000,
    }),
    required: false,
};

const INTERVAL: Field = Field {
    number: 7,
    key: "interval_ns",
    form: Form::One(Item::Integer {
        low: 1,
        high: MOST_TIME,
    }),
    required: false,
};

const SIZE: Field = Field {
    number: 8,
    key: "size",
    form: Form::One(Item::Integer {
        low: 0,
        high: 65507,
    }),
    required: false,
};

const SOME_SIZE: Field = Field {
    number: 8,
    key: "size",
    form: Form::One(Item::Integer {
        low: 1,
        high: 65507,
    }),
    required: false,
};

const PRIORITY: Field = Field {
    number: 9,
    key: "priority",
    form: Form::One(Item::Integer { low: 0, high: 15 }),
    required: false,
};

const RATE: Field = Field {
    number: 10,
    key: "rate_bps",
    form: Form::One(Item::Integer {
        low: 1,
        high: MOST_RATE,
    }),
    required: true,
};

const ON: Field = Field {
    number: 11,
    key: "on_ns",
    form: Form::One(Item::Integer {
        low: 1,
        high: MOST_TIME,
    }),
    required: true,
};

const OFF: Field = Field {
    number: 12,
    key: "off_ns",
    form: Form::One(Item::Integer {
        low: 0,
        high: MOST_TIME,
    }),
    required: true,
};

const BYTES: Field = Field {
    number: 13,
    key: "bytes",
    form: Form::One(Item::Integer {
        low: 0,
        high: 1_073_741_824,
    }),
    required: true,
};

const MSS: Field = Field {
    number: 14,
    key: "mss",
    form: Form::One(Item::Integer {
        low: 64,
        high: 9000,
    }),
    required: false,
};

const ANY: [Field; 14] = [
    KIND, NODE, PORT, DST, START, COUNT, INTERVAL, SIZE, PRIORITY, RATE, ON, OFF, BYTES, MSS,
];

const SEND: [Field; 9] = [
    KIND, NODE, PORT, DST, START, COUNT, INTERVAL, SIZE, PRIORITY,
];

const SINK: [Field; 3] = [KIND, NODE, PORT];

const ON_OFF: [Field; 11] = [
    KIND, NODE, PORT, DST, START, COUNT, SOME_SIZE, PRIORITY, RATE, ON, OFF,
];

const PING: [Field; 8] = [KIND, NODE, DST, START, COUNT, INTERVAL, SIZE, PRIORITY];

const BULK: [Field; 7] = [KIND, NODE, PORT, DST, START, BYTES, MSS];

/// The fields of an application of a kind, and all of them where the kind isn't known.
pub fn app_fields(kind: Option<Kind>) -> &'static [Field]
    ensures { map row result.now ≡ rows_of_kind kind }
{
    match kind {
        None => &ANY,
        Some(kind) => kind_fields(kind),
    }
}

fn kind_fields(kind: Kind) -> &'static [Field]
    ensures { map row result.now ≡ rows_of_kind (Some kind) }
{
    match kind {
        Kind::UdpSend | Kind::UdpEchoClient => &SEND,
        Kind::UdpSink | Kind::UdpEchoServer | Kind::TcpSink => &SINK,
        Kind::OnOff => &ON_OFF,
        Kind::Ping => &PING,
        Kind::TcpBulk => &BULK,
    }
}
