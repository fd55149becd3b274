//! The trusted edge: a source, a store and a sink over the input, the folder and the output of the
//! process. They count each failure, a write that takes nothing among them.

use crate::sink::Sink;
use crate::source::{Failed, Source};
use crate::store::{StoreStop, TraceStore};
use std::alloc::Global;
use std::fs;
use std::io::{Read, Write};
use std::rt::Files;

/// Standard input, or any reader. It tells no content.
#[derive(Drop)]
pub struct StdinSource<R: Read + Drop> {
    reader: R,
    faults: u64,
}

impl<R: Read + Drop> StdinSource<R> {
    pub fn new(reader: R) -> StdinSource<R> {
        StdinSource { reader, faults: 0 }
    }
}

impl<R: Read + Drop> Source for StdinSource<R> {
    ghost use Rattle.std.specs.Prelude.{None};

    ghost left = { λ _. None };

    ghost faults = { λ s. s.faults };

    fn read(&mut self, buf: &mut [u8]) -> Result<usize, Failed> {
        match self.reader.read(buf) {
            Ok(count) => Ok(count),
            Err(_) => {
                self.faults = self.faults.saturating_add(1);
                Err(Failed)
            }
        }
    }
}

/// Files of the working folder, which stay open. It tells no content.
#[derive(Drop)]
pub struct FolderStore<R: Files + Drop> {
    rt: R,
    files: Vec<R::File>,
    faults: u64,
}

impl<R: Files + Drop> FolderStore<R> {
    pub fn new(alloc: Global, rt: R) -> FolderStore<R> {
        FolderStore {
            rt,
            files: Vec::new(alloc),
            faults: 0,
        }
    }
}

impl<R: Files + Drop> TraceStore for FolderStore<R> {
    ghost use Rattle.std.specs.Prelude.{None, length};

    ghost files = { λ _. None };

    ghost made = { λ s. length s.files.items };

    ghost takes = { λ _ _. Unit {0} };

    ghost faults = { λ s. s.faults };

    fn create(&mut self, name: &str) -> Result<u64, StoreStop> {
        let Ok(file) = fs::create(&self.rt, name) else {
            self.faults = self.faults.saturating_add(1);
            return Err(StoreStop::Failed);
        };
        let number = self.files.len() as u64;
        match self.files.push(file) {
            Ok(()) => Ok(number),
            Err(_) => Err(StoreStop::NoMemory),
        }
    }

    fn append(&mut self, file: u64, bytes: &[u8]) -> Result<usize, StoreStop> {
        match self.files[file as usize].write(bytes) {
            Ok(count) if count > 0 => Ok(count),
            _ => {
                self.faults = self.faults.saturating_add(1);
                Err(StoreStop::Failed)
            }
        }
    }
}

/// Standard output, or any writer. It tells no content.
#[derive(Drop)]
pub struct StdoutSink<W: Write + Drop> {
    writer: W,
    faults: u64,
}

impl<W: Write + Drop> StdoutSink<W> {
    pub fn new(writer: W) -> StdoutSink<W> {
        StdoutSink { writer, faults: 0 }
    }
}

impl<W: Write + Drop> Sink for StdoutSink<W> {
    ghost use Rattle.std.specs.Prelude.{None};

    ghost got = { λ _. None };

    ghost faults = { λ s. s.faults };

    fn write(&mut self, bytes: &[u8]) -> Result<usize, StoreStop> {
        match self.writer.write(bytes) {
            Ok(count) if count > 0 => Ok(count),
            _ => {
                self.faults = self.faults.saturating_add(1);
                Err(StoreStop::Failed)
            }
        }
    }
}
