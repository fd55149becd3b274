//! The words of the command line.

use crate::runs::assert_refused;
use sim_run::WordCode;

#[test]
fn a_command_comes_first(rt: HostRuntime) {
    assert_refused(&rt, rt.alloc(), &[], 1, WordCode::NoCommand);
    assert_refused(&rt, rt.alloc(), &["walk"], 1, WordCode::UnknownCommand);
    assert_refused(&rt, rt.alloc(), &["run="], 1, WordCode::UnknownCommand);
}

/// Of one word a missing value is told first, then a key that the command has not, then one that is set twice, then the value.
#[test]
fn faulty_settings_are_named_by_place_and_code(rt: HostRuntime) {
    let rows = [
        (["run", "fast", "fast"], 2, WordCode::NoValue),
        (["run", "n=1", "workers=0"], 2, WordCode::UnknownKey),
        (
            ["check", "workers=2", "report=yes"],
            2,
            WordCode::UnknownKey,
        ),
        (["run", "workers=0", "workers=1"], 2, WordCode::BadValue),
        (["run", "workers=65", "report=no"], 2, WordCode::BadValue),
        (["run", "workers=02", "report=no"], 2, WordCode::BadValue),
        (["run", "workers=+2", "report=no"], 2, WordCode::BadValue),
        (
            ["run", "workers=4294967298", "report=no"],
            2,
            WordCode::BadValue,
        ),
        (["run", "report=no", "workers="], 3, WordCode::BadValue),
        (["run", "partition=two", "workers=1"], 2, WordCode::BadValue),
        (["run", "report=yes", "report=maybe"], 3, WordCode::Repeat),
        (["run", "workers=2", "workers=2"], 3, WordCode::Repeat),
        (["demo", "n=0", "n=1"], 2, WordCode::BadValue),
        (["demo", "n=1000", "n=1"], 2, WordCode::BadValue),
        (
            ["demo", "workers=64", "report=yes"],
            4,
            WordCode::MissingKey,
        ),
    ];
    for (words, place, code) in rows {
        assert_refused(&rt, rt.alloc(), words.as_slice(), place, code);
    }
    assert_refused(&rt, rt.alloc(), &["demo"], 2, WordCode::MissingKey);
}
