//! The command line: its first word is the command, and each other word a setting, `key=value`.

ghost use Rattle.std.specs.Prelude.{◌≡◌, ◌≤◌, IfOk, length, map, string_bytes};
ghost use Rattle.command_words.specs.Command.{IsInRange, command_from, command_of, nothing, refuse, settings_of, verb_named, with_settings};

use crate::setting::{Given, with_setting};

/// How a scenario is cut into groups.
#[derive(Clone, Copy, Debug, PartialEq, Eq)]
pub enum Partition {
    /// All nodes are in one group.
    One,
    /// The scenario lists its groups; one that lists none has one group.
    File,
    /// Links of at least the median delay are cut.
    Auto,
}

/// How a scenario is run.
#[derive(Clone, Copy, Debug, PartialEq, Eq)]
pub struct Settings {
    /// How many workers fire groups beside each other, from 1 to 64.
    pub workers: u32,
    pub partition: Partition,
    /// Whether the windows and the events of each group are told.
    pub report: bool,
}

/// What the program is to do.
#[derive(Clone, Copy, Debug, PartialEq, Eq)]
pub enum Command {
    /// Simulates the scenario, and writes its traces and its summary.
    Run { settings: Settings },
    /// Reads the scenario, and writes its sizes.
    Check,
    /// Simulates the demo's scenario of this number, from 1 to 999.
    Demo { n: u32, settings: Settings },
    /// Reads a capture, and writes its listing.
    Show,
}

/// The first word of a command line.
#[derive(Clone, Copy, Debug, PartialEq, Eq)]
pub enum Verb {
    Run,
    Check,
    Demo,
    Show,
}

/// What is wrong with a word.
#[derive(Clone, Copy, Debug, PartialEq, Eq)]
pub enum WordCode {
    NoCommand,
    UnknownCommand,
    /// A word behind the command without an equals sign.
    NoValue,
    /// A key that the command has not.
    UnknownKey,
    /// A key that an earlier word has set.
    Repeat,
    /// A value that the key can't have.
    BadValue,
    /// A key that has to be set is not.
    MissingKey,
}

/// The first word that is refused, counted from 1.
#[derive(Clone, Copy, Debug, PartialEq, Eq)]
pub struct WordFault {
    pub place: u32,
    pub code: WordCode,
}

/// Reads the command line. There are from 1 to 64 workers, and a demo's number is from 1 to 999.
pub fn read_command(words: &[String]) -> Result<Command, WordFault>
    requires { length words.now ≤ 1000 }
    ensures value { result ≡ command_of (map string_bytes words.now) }
    ensures range { IfOk result IsInRange }
{
    command_in(words)
}

/// The command of words, or the first fault.
#[tactic(auto, unfolding(crate::specs::Command::command_of))]
fn command_in(words: &[String]) -> Result<Command, WordFault>
    requires { length words.now ≤ 1000 }
    ensures { result ≡ command_of (map string_bytes words.now) }
{
    let Some((first, settings)) = words.split_first() else {
        return refuse(1, WordCode::NoCommand);
    };
    match verb_named(first) {
        None => refuse(1, WordCode::UnknownCommand),
        Some(verb) => read_settings(verb, settings),
    }
}

/// The command that a word names.
fn verb_named(word: &String) -> Option<Verb>
    ensures { result ≡ verb_named (string_bytes word.now) }
{
    if word.as_str() == "run" {
        Some(Verb::Run)
    } else if word.as_str() == "check" {
        Some(Verb::Check)
    } else if word.as_str() == "demo" {
        Some(Verb::Demo)
    } else if word.as_str() == "show" {
        Some(Verb::Show)
    } else {
        None
    }
}

fn refuse(place: u32, code: WordCode) -> Result<Command, WordFault>
    ensures { result ≡ refuse place code }
{
    Err(WordFault { place, code })
}

/// Reads the words behind the command.
fn read_settings(verb: Verb, words: &[String]) -> Result<Command, WordFault>
    requires { length words.now ≤ 1000 }
    ensures { result ≡ with_settings verb 2 nothing (map string_bytes words.now) }
{
    let mut given = Given::nothing();
    let mut place = 2;
    for word in words {
        match with_setting(verb, given, word.as_str()) {
            Ok(later) => given = later,
            Err(code) => return refuse(place, code),
        }
        place += 1;
    }
    command_from(verb, place, given)
}

/// The command with what its words have set, of which the last stands before this place.
fn command_from(verb: Verb, place: u32, given: Given) -> Result<Command, WordFault>
    ensures { result ≡ command_from verb place given }
{
    match verb {
        Verb::Run => Ok(Command::Run {
            settings: settings_of(given),
        }),
        Verb::Check => Ok(Command::Check),
        Verb::Demo => match given.n {
            None => refuse(place, WordCode::MissingKey),
            Some(n) => Ok(Command::Demo {
                n,
                settings: settings_of(given),
            }),
        },
        Verb::Show => Ok(Command::Show),
    }
}

/// The settings, with defaults for what wasn't set.
fn settings_of(given: Given) -> Settings
    ensures { result ≡ settings_of given }
{
    Settings {
        workers: given.workers.unwrap_or(1),
        partition: given.partition.unwrap_or(Partition::Auto),
        report: given.report.unwrap_or(false),
    }
}
