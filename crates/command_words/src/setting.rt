//! A setting of the command line: a key and its value.

ghost use Rattle.std.specs.Prelude.{◌≡◌, ◌≤◌, ◌^◌, true, if◌then◌else◌, MatchOption, Some, None};
ghost use Rattle.std.specs.Str.Parse.{digits_value};
ghost use Rattle.std.specs.Str.{all_ascii_digits};
ghost use Rattle.command_words.specs.Command.{answer_named, is_from_one_to, is_given, is_number, key_of, nothing, number_up_to, partition_named, run_key, with_key, with_setting, with_value};

use crate::command::{Partition, Verb, WordCode};

/// The key of a setting.
#[derive(Clone, Copy, Debug, PartialEq, Eq)]
pub enum Key {
    /// The number of the demo.
    N,
    Workers,
    Partition,
    Report,
}

/// What the words have set so far.
#[derive(Clone, Copy, Debug, PartialEq, Eq)]
pub struct Given {
    pub n: Option<u32>,
    pub workers: Option<u32>,
    pub partition: Option<Partition>,
    pub report: Option<bool>,
}

impl Given {
    pub fn nothing() -> Given
        ensures { result ≡ nothing }
    {
        Given {
            n: None,
            workers: None,
            partition: None,
            report: None,
        }
    }

    fn has(&self, key: Key) -> bool
        ensures { result ≡ is_given key self.now }
    {
        match key {
            Key::N => self.n.is_some(),
            Key::Workers => self.workers.is_some(),
            Key::Partition => self.partition.is_some(),
            Key::Report => self.report.is_some(),
        }
    }
}

/// What is set behind a word of a command.
pub fn with_setting(verb: Verb, given: Given, word: &str) -> Result<Given, WordCode>
    ensures { result ≡ with_setting verb given word.now }
{
    match word.split_once('=') {
        None => Err(WordCode::NoValue),
        Some((name, text)) => with_key(given, key_of(verb, name), text),
    }
}

/// The key that a text names, of those that a command has.
fn key_of(verb: Verb, text: &str) -> Option<Key>
    ensures { result ≡ key_of verb text.now }
{
    match verb {
        Verb::Run => run_key(text),
        Verb::Check => None,
        Verb::Demo => {
            if text == "n" {
                Some(Key::N)
            } else {
                run_key(text)
            }
        }
        Verb::Show => None,
    }
}

/// The key of a run that a text names.
fn run_key(text: &str) -> Option<Key>
    ensures { result ≡ run_key text.now }
{
    if text == "workers" {
        Some(Key::Workers)
    } else if text == "partition" {
        Some(Key::Partition)
    } else if text == "report" {
        Some(Key::Report)
    } else {
        None
    }
}

/// What is set behind a key with a value.
fn with_key(given: Given, key: Option<Key>, text: &str) -> Result<Given, WordCode>
    ensures { result ≡ with_key given key text.now }
{
    let Some(key) = key else {
        return Err(WordCode::UnknownKey);
    };
    if given.has(key) {
        return Err(WordCode::Repeat);
    }
    match with_value(key, text, given) {
        None => Err(WordCode::BadValue),
        Some(given) => Ok(given),
    }
}

/// What is set where a key has the value that a text spells.
fn with_value(key: Key, text: &str, given: Given) -> Option<Given>
    ensures { result ≡ with_value key text.now given }
{
    match key {
        Key::N => {
            let n = number_up_to(999, text)?;
            Some(Given {
                n: Some(n),
                ..given
            })
        }
        Key::Workers => {
            let workers = number_up_to(64, text)?;
            Some(Given {
                workers: Some(workers),
                ..given
            })
        }
        Key::Partition => {
            let partition = partition_named(text)?;
            Some(Given {
                partition: Some(partition),
                ..given
            })
        }
        Key::Report => {
            let report = answer_named(text)?;
            Some(Given {
                report: Some(report),
                ..given
            })
        }
    }
}

/// Whether a text is decimal digits without a sign or a leading zero.
fn is_number(text: &str) -> bool
    ensures { result ≡ is_number text.now }
{
    match text.as_bytes() {
        [] => false,
        [first, ..] => *first != b'0' && are_digits(text.as_bytes()),
    }
}

/// Whether all bytes are decimal digits.
fn are_digits(bytes: &[u8]) -> bool
    ensures { result ≡ all_ascii_digits bytes.now }
{
    for byte in bytes {
        if !byte.is_ascii_digit() {
            return false;
        }
    }
    true
}

/// The number from 1 to a most one that a text writes.
fn number_up_to(most: u32, text: &str) -> Option<u32>
    ensures { result ≡ number_up_to most text.now }
{
    if is_number(text) {
        digits_up_to(most, text)
    } else {
        None
    }
}

/// The number from 1 to a most one that digits write.
fn digits_up_to(most: u32, text: &str) -> Option<u32>
    requires { is_number text.now ≡ true }
    ensures { result ≡ number_up_to most text.now }
{
    match value_of(text) {
        None => None,
        Some(number) => bounded(most, number),
    }
}

/// The number that digits write, or none where it is too great for its type.
fn value_of(text: &str) -> Option<u32>
    requires { is_number text.now ≡ true }
    ensures { MatchOption result (2 ^ 32 ≤ digits_value 10 text.now) (λ number. number ≡ digits_value 10 text.now) }
{
    match text.parse::<u32>() {
        Ok(number) => Some(number),
        Err(_) => None,
    }
}

/// A number, where it is from 1 to a most one.
fn bounded(most: u32, number: u32) -> Option<u32>
    ensures { result ≡ (if is_from_one_to most number then Some number else None) }
{
    if 0 < number && number <= most {
        Some(number)
    } else {
        None
    }
}

/// The partition that a text names.
fn partition_named(text: &str) -> Option<Partition>
    ensures { result ≡ partition_named text.now }
{
    if text == "one" {
        Some(Partition::One)
    } else if text == "file" {
        Some(Partition::File)
    } else if text == "auto" {
        Some(Partition::Auto)
    } else {
        None
    }
}

/// The answer that a text gives.
fn answer_named(text: &str) -> Option<bool>
    ensures { result ≡ answer_named text.now }
{
    if text == "yes" {
        Some(true)
    } else if text == "no" {
        Some(false)
    } else {
        None
    }
}
