//! A source, a store and a sink in memory. They tell what they hold, and exactly the calls that they
//! are made with fail.

ghost use Rattle.std.specs.Prelude.{◌≡◌, ◌≢◌, Some, [], IfOk, List, ℕ, drop, length, ◌+◌, ◌≤◌, ◌<◌, ◌||◌, OnOk, OnErr, is_ok, is_err, if◌then◌else◌};
ghost use Rattle.outside.specs.Calls.{no_calls, next_fails, after_call, has_failed};
ghost use Rattle.outside.specs.Causes.{HasCause};
ghost use Rattle.outside.specs.Store.{append_to, Creates, Grows};
ghost use Rattle.outside.specs.Streams.{Reads, Writes};

use crate::calls::Calls;
use crate::sink::Sink;
use crate::source::{Failed, Source};
use crate::store::{File, StoreStop, TraceStore};
use sim_base::{NoMemory, Sequence};
use std::alloc::Global;

/// Bytes in memory, some of whose reads fail.
#[derive(Drop)]
pub struct MemSource {
    bytes: Vec<u8>,
    at: usize,
    calls: Calls,
    ghost within: { at ≤ length bytes.items },
}

impl MemSource {
    ghost use Rattle.outside.specs.Memory.{source_calls};

    /// A source of these bytes, whose calls with the numbers `fail`, from 1, are to fail.
    pub fn make(alloc: Global, bytes: &[u8], fail: &[u32]) -> Result<MemSource, NoMemory>
        ensures left { IfOk result (λ source. ⟦<MemSource as Source>⟧.left source ≡ Some bytes.now) }
        ensures calls { IfOk result (λ source. source_calls source ≡ no_calls fail.now) }
    {
        Ok(MemSource {
            bytes: Vec::from_slice(alloc, bytes)?,
            at: 0,
            calls: Calls::make(alloc, fail)?,
        })
    }
}

impl Source for MemSource {
    ghost use Rattle.outside.specs.Memory.{source_calls, bytes_left};

    ghost left = { λ s. Some (bytes_left s) };

    ghost faults = { λ s. (source_calls s).faults };

    fn read(&mut self, buf: &mut [u8]) -> Result<usize, Failed>
        requires { 0 < length buf.old }
        ensures bound { IfOk result (λ n. n ≤ length buf.new) }
        ensures bytes { Reads (Some (bytes_left self.old)) (Some (bytes_left self.new)) result buf.new }
        ensures cause { HasCause record {} (source_calls self.old).faults (source_calls self.new).faults result }
        ensures listed { is_err result ≡ next_fails (source_calls self.old) }
        ensures calls { source_calls self.new ≡ after_call (is_err result) (source_calls self.old) }
    {
        if self.calls.next_fails() {
            self.calls.count_fault();
            return Err(Failed);
        }
        let count = buf.len().min(self.bytes.len() - self.at);
        buf[..count].copy_from_slice(&self.bytes[self.at..self.at + count]);
        self.at += count;
        Ok(count)
    }
}

/// Files in memory, some of whose calls fail.
#[derive(Drop)]
pub struct MemStore {
    alloc: Global,
    files: Vec<File>,
    calls: Calls,
}

impl MemStore {
    ghost use Rattle.outside.specs.Memory.{store_calls, holds_name};

    /// A store with no file, whose calls with the numbers `fail`, from 1, are to fail.
    pub fn make(alloc: Global, fail: &[u32]) -> Result<MemStore, NoMemory>
        ensures files { IfOk result (λ store. ⟦<MemStore as TraceStore>⟧.files store ≡ Some []) }
        ensures calls { IfOk result (λ store. store_calls store ≡ no_calls fail.now) }
    {
        Ok(MemStore {
            alloc,
            files: Vec::new(alloc),
            calls: Calls::make(alloc, fail)?,
        })
    }

    /// The files, in the order in which they were made.
    pub fn files(&self) -> &[File]
        ensures { ⟦<MemStore as TraceStore>⟧.files self.now ≡ Some result.now }
    {
        self.files.as_slice()
    }

    fn holds(&self, name: &str) -> bool
        ensures { result ≡ holds_name name.now self.now.files.items }
    {
        self.files
            .iter()
            .any(|file| file.name.as_slice() == name.as_bytes())
    }
}

impl TraceStore for MemStore {
    ghost use Rattle.outside.specs.Memory.{store_calls, held_files, holds_name};

    ghost files = { λ s. Some (held_files s) };

    ghost made = { λ s. length (held_files s) };

    ghost takes = { λ _ _. Unit {0} };

    ghost faults = { λ s. (store_calls s).faults };

    fn create(&mut self, name: &str) -> Result<u64, StoreStop>
        ensures number { IfOk result (λ n. n ≡ length (held_files self.old)) }
        ensures made { length (held_files self.new) ≡ (if is_ok result then length (held_files self.old) + 1 else length (held_files self.old)) }
        ensures files { Creates (Some (held_files self.old)) (Some (held_files self.new)) result name.now }
        ensures cause { HasCause StoreStop.Failed (store_calls self.old).faults (store_calls self.new).faults result }
        ensures listed { has_failed result ≡ next_fails (store_calls self.old) || holds_name name.now (held_files self.old) }
        ensures calls { store_calls self.new ≡ after_call (has_failed result) (store_calls self.old) }
    {
        if self.calls.next_fails() || self.holds(name) {
            self.calls.count_fault();
            return Err(StoreStop::Failed);
        }
        let Ok(name) = Sequence::from_slice(self.alloc, name.as_bytes()) else {
            return Err(StoreStop::NoMemory);
        };
        let file = File {
            name,
            bytes: Sequence::new(self.alloc),
        };
        let number = self.files.len() as u64;
        match self.files.push(file) {
            Ok(()) => Ok(number),
            Err(_) => Err(StoreStop::NoMemory),
        }
    }

    fn append(&mut self, file: u64, bytes: &[u8]) -> Result<usize, StoreStop>
        requires known { file < length (held_files self.old) }
        requires some { 0 < length bytes.now }
        ensures some { IfOk result (λ n. (0 < n) × (n ≤ length bytes.now)) }
        ensures made { length (held_files self.new) ≡ length (held_files self.old) }
        ensures files { Grows (Some (held_files self.old)) (Some (held_files self.new)) result file bytes.now }
        ensures cause { HasCause StoreStop.Failed (store_calls self.old).faults (store_calls self.new).faults result }
        ensures whole { IfOk result (λ n. n ≡ length bytes.now) }
        ensures unchanged { OnErr result (held_files self.new ≡ held_files self.old) }
        ensures listed { has_failed result ≡ next_fails (store_calls self.old) }
        ensures calls { store_calls self.new ≡ after_call (has_failed result) (store_calls self.old) }
    {
        if self.calls.next_fails() {
            self.calls.count_fault();
            return Err(StoreStop::Failed);
        }
        match extend_file(&mut self.files, file as usize, bytes) {
            Ok(()) => Ok(bytes.len()),
            Err(NoMemory) => Err(StoreStop::NoMemory),
        }
    }
}

/// Puts bytes to the end of the file at a place.
fn extend_file(files: &mut Vec<File>, place: usize, bytes: &[u8]) -> Result<(), NoMemory>
    requires { place < length files.old.items }
    ensures ok { OnOk result (files.new.items ≡ append_to place bytes.now files.old.items) }
    ensures err { OnErr result (files.new.items ≡ files.old.items) }
{
    let file = &mut files[place];
    file.bytes.extend(bytes)
}

/// One stream in memory, some of whose writes fail.
#[derive(Drop)]
pub struct MemSink {
    bytes: Vec<u8>,
    calls: Calls,
}

impl MemSink {
    ghost use Rattle.outside.specs.Memory.{sink_calls};

    /// A sink with no bytes, whose calls with the numbers `fail`, from 1, are to fail.
    pub fn make(alloc: Global, fail: &[u32]) -> Result<MemSink, NoMemory>
        ensures got { IfOk result (λ sink. ⟦<MemSink as Sink>⟧.got sink ≡ Some []) }
        ensures calls { IfOk result (λ sink. sink_calls sink ≡ no_calls fail.now) }
    {
        Ok(MemSink {
            bytes: Vec::new(alloc),
            calls: Calls::make(alloc, fail)?,
        })
    }

    /// The bytes that came.
    pub fn bytes(&self) -> &[u8]
        ensures { ⟦<MemSink as Sink>⟧.got self.now ≡ Some result.now }
    {
        self.bytes.as_slice()
    }
}

impl Sink for MemSink {
    ghost use Rattle.outside.specs.Memory.{sink_calls, bytes_got};

    ghost got = { λ s. Some (bytes_got s) };

    ghost faults = { λ s. (sink_calls s).faults };

    fn write(&mut self, bytes: &[u8]) -> Result<usize, StoreStop>
        requires { 0 < length bytes.now }
        ensures some { IfOk result (λ n. (0 < n) × (n ≤ length bytes.now)) }
        ensures bytes { Writes (Some (bytes_got self.old)) (Some (bytes_got self.new)) result bytes.now }
        ensures cause { HasCause StoreStop.Failed (sink_calls self.old).faults (sink_calls self.new).faults result }
        ensures whole { IfOk result (λ n. n ≡ length bytes.now) }
        ensures unchanged { OnErr result (bytes_got self.new ≡ bytes_got self.old) }
        ensures listed { has_failed result ≡ next_fails (sink_calls self.old) }
        ensures calls { sink_calls self.new ≡ after_call (has_failed result) (sink_calls self.old) }
    {
        if self.calls.next_fails() {
            self.calls.count_fault();
            return Err(StoreStop::Failed);
        }
        match self.bytes.extend_from_slice(bytes) {
            Ok(()) => Ok(bytes.len()),
            Err(_) => Err(StoreStop::NoMemory),
        }
    }
}
