//! Where the trace files go: what leaves a run while it goes on.

ghost use Rattle.std.specs.Prelude.{◌≡◌, ◌≢◌, ℕ, ◌+◌, ◌<◌, ◌≤◌, List, Option, length, IfOk, is_ok, if◌then◌else◌};
ghost use Rattle.outside.specs.Causes.{HasCause};

use sim_base::Sequence;

/// Why a store or a sink stopped.
#[derive(Clone, Copy, Debug, PartialEq, Eq)]
pub enum StoreStop {
    /// The outside failed, and the count of faults has risen.
    Failed,
    NoMemory,
}

/// A file of a store.
#[derive(Drop)]
pub struct File {
    pub name: Sequence<u8>,
    pub bytes: Sequence<u8>,
}

/// Where files are made and grow. A file is named by its number, from 0.
pub trait TraceStore {
    ghost use Rattle.outside.specs.Store.{Creates, Grows};
    ghost use Rattle.outside.specs.declared.store.File.{File};

    /// The files, where the store tells them.
    ghost files: { Self → Option (List File) };

    /// How many files there are.
    ghost made: { Self → ℕ };

    /// The store makes a file of this name.
    ghost takes: { Self → List ℕ → Type 0 };

    /// How many faults there were.
    ghost faults: { Self → ℕ };

    /// Adds an empty file, and answers how many files there were. After an error the files are as before.
    fn create(&mut self, name: &str) -> Result<u64, StoreStop>
        requires { takes self.old name.now }
        ensures number { IfOk result (λ n. n ≡ made self.old) }
        ensures made { made self.new ≡ (if is_ok result then made self.old + 1 else made self.old) }
        ensures files { Creates (files self.old) (files self.new) result name.now }
        ensures takes { (other : List ℕ) → other ≢ name.now → takes self.old other → takes self.new other }
        ensures cause { HasCause StoreStop.Failed (faults self.old) (faults self.new) result };

    /// Takes bytes from the front of the piece, at least one, to the end of a file, and answers how many.
    /// After an error the file has grown by a front of the piece, which may be empty.
    fn append(&mut self, file: u64, bytes: &[u8]) -> Result<usize, StoreStop>
        requires known { file < made self.old }
        requires some { 0 < length bytes.now }
        ensures some { IfOk result (λ n. (0 < n) × (n ≤ length bytes.now)) }
        ensures made { made self.new ≡ made self.old }
        ensures files { Grows (files self.old) (files self.new) result file bytes.now }
        ensures takes { (other : List ℕ) → takes self.old other → takes self.new other }
        ensures cause { HasCause StoreStop.Failed (faults self.old) (faults self.new) result };
}
