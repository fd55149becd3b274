//! A window on a block, and how it grows.

ghost use Rattle.std.specs.Prelude.{◌≡◌, ◌+◌, ◌-◌, ◌≤◌, length, true, false, IfOk, IfErr, IsOk, OnOk, OnErr};
ghost use Rattle.byte_block.specs.Ranges.{LARGEST};

use crate::shared::SharedWindow;
use crate::sole::SoleWindow;
use core::mem::replace_with;
use sim_base::NoMemory;
use std::alloc::Global;
use std::marker::Model;

/// Why a window did not grow in place.
#[derive(Clone, Copy)]
pub enum Grow {
    /// The block has only so many places there.
    NoRoom { room: u32 },
    /// Another window of the block has grown there before, and the edge stood here.
    Moved { seen: u32 },
}

/// Bytes of a block that other windows may share. They never change but by this window's own calls.
///
/// ```text
/// 0        low edge     start            end     high edge    capacity
/// | free ..    | taken ..  | this window's |  taken ..  | .. free    |
/// ```
///
/// A window whose start is the low edge may claim free places in front, one whose end is the high edge
/// behind. The edges move outwards only. Until its first copy a window holds the free places itself; from
/// then on they lie in a table, and windows in any threads claim them there.
#[derive(Drop)]
pub struct Window {
    kind: Kind,
}

#[derive(Drop)]
enum Kind {
    Sole(SoleWindow),
    Shared(SharedWindow),
}

impl Model for Window {
    ghost use Rattle.edge_claims.specs.Window.{Seen, seen_code};
    ghost use Rattle.edge_claims.specs.Kinds.{seen_of_kind};

    ghost Value = { Seen };

    ghost coded = { seen_code };

    ghost view = { λ w. seen_of_kind w.kind };
}

impl Kind {
    ghost use Rattle.edge_claims.specs.Grown.{copied, shared};
    ghost use Rattle.edge_claims.specs.Kinds.{seen_of_kind};

    // The window with its block's free places in a table.
    fn into_shared(self) -> Result<SharedWindow, SoleWindow>
        ensures ok { IfOk result (λ w. w ≡ seen_of_kind self) }
        ensures err { IfErr result (λ w. w ≡ seen_of_kind self) }
    {
        match self {
            Kind::Sole(window) => SharedWindow::of(window),
            Kind::Shared(window) => Ok(window),
        }
    }

    // The window, and a copy of it.
    fn copied(self, _: ()) -> (Kind, Result<SharedWindow, NoMemory>)
        ensures ok { IfOk result.1 (λ c. (c ≡ copied (seen_of_kind self)) × (seen_of_kind result.0 ≡ shared (seen_of_kind self))) }
        ensures err { OnErr result.1 (seen_of_kind result.0 ≡ seen_of_kind self) }
    {
        match self.into_shared() {
            Ok(mut window) => {
                let copy = window.copy();
                (Kind::Shared(window), copy)
            }
            Err(window) => (Kind::Sole(window), Err(NoMemory)),
        }
    }
}

impl Window {
    ghost use Rattle.edge_claims.specs.Grown.{IsNew, copied, shared, GrownFront, GrownBack, FrontRefuses, BackRefuses, Kept, trimmed_front, trimmed_back};

    /// The only window of a new block, with `front` free places before its bytes and `back` behind.
    /// The block has at most 16,777,216 places.
    pub fn with_room(alloc: Global, bytes: &[u8], front: u32, back: u32) -> Result<Window, NoMemory>
        requires { front + length bytes.now + back ≤ LARGEST }
        ensures { IfOk result (IsNew front bytes.now back) }
    {
        Ok(Window {
            kind: Kind::Sole(SoleWindow::with_room(alloc, bytes, front, back)?),
        })
    }

    /// The window's bytes.
    pub fn as_slice(&self) -> &[u8]
        ensures { result.now ≡ self.now.bytes }
    {
        match &self.kind {
            Kind::Sole(window) => window.as_slice(),
            Kind::Shared(window) => window.as_slice(),
        }
    }

    /// Another window on the same bytes. From here on neither is alone. Where memory is wanting, this
    /// window stays as it was.
    pub fn copy(&mut self) -> Result<Window, NoMemory>
        ensures ok { IfOk result (λ c. (c ≡ copied self.old) × (self.new ≡ shared self.old)) }
        ensures err { OnErr result (self.new ≡ self.old) }
    {
        let copy = match &mut self.kind {
            Kind::Shared(window) => window.copy()?,
            Kind::Sole(_) => replace_with(&mut self.kind, (), Kind::copied)?,
        };
        Ok(Window {
            kind: Kind::Shared(copy),
        })
    }

    /// Puts the bytes before the window's, in free places of its block. A refusal leaves the window but
    /// for the low edge that it has seen.
    pub fn grow_front(&mut self, bytes: &[u8]) -> Result<(), Grow>
        ensures ok { OnOk result (GrownFront bytes.now self.old self.new) }
        ensures err { IfErr result (λ e. FrontRefuses (length bytes.now) self.old self.new e × Kept self.old self.new) }
        ensures empty { length bytes.now ≡ 0 → self.new ≡ self.old }
        ensures alone { self.old.alone ≡ true → self.old.start ≡ self.old.low_seen → length bytes.now ≤ self.old.start → IsOk result }
    {
        match &mut self.kind {
            Kind::Sole(window) => window.grow_front(bytes),
            Kind::Shared(window) => window.grow_front(bytes),
        }
    }

    /// Puts the bytes behind the window's, in free places of its block. A refusal leaves the window but
    /// for the high edge that it has seen.
    pub fn grow_back(&mut self, bytes: &[u8]) -> Result<(), Grow>
        ensures ok { OnOk result (GrownBack bytes.now self.old self.new) }
        ensures err { IfErr result (λ e. BackRefuses (length bytes.now) self.old self.new e × Kept self.old self.new) }
        ensures empty { length bytes.now ≡ 0 → self.new ≡ self.old }
        ensures alone { self.old.alone ≡ true → self.old.end ≡ self.old.high_seen → self.old.end + length bytes.now ≤ self.old.capacity → IsOk result }
    {
        match &mut self.kind {
            Kind::Sole(window) => window.grow_back(bytes),
            Kind::Shared(window) => window.grow_back(bytes),
        }
    }

    /// Takes all places of the block anew, as those of a block just made: the window's bytes then stand at
    /// `front`. It takes no memory. False where the window was ever copied, has more than 64 bytes, or the block
    /// has no room for them there; the window then stays.
    pub fn renew(&mut self, front: u32) -> bool
        requires { front ≤ LARGEST }
        ensures renewed { result ≡ true → IsNew front self.old.bytes (self.old.capacity - (front + length self.old.bytes)) self.new }
        ensures capacity { self.new.capacity ≡ self.old.capacity }
        ensures refused { result ≡ false → self.new ≡ self.old }
    {
        match &mut self.kind {
            Kind::Sole(window) => window.renew(front),
            Kind::Shared(_) => false,
        }
    }

    /// Leaves off the first `n` bytes.
    pub fn trim_front(&mut self, n: u32)
        requires { n ≤ length self.old.bytes }
        ensures { self.new ≡ trimmed_front n self.old }
    {
        match &mut self.kind {
            Kind::Sole(window) => window.trim_front(n),
            Kind::Shared(window) => window.trim_front(n),
        }
    }

    /// Leaves off the last `n` bytes.
    pub fn trim_back(&mut self, n: u32)
        requires { n ≤ length self.old.bytes }
        ensures { self.new ≡ trimmed_back n self.old }
    {
        match &mut self.kind {
            Kind::Sole(window) => window.trim_back(n),
            Kind::Shared(window) => window.trim_back(n),
        }
    }
}
