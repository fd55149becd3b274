//! The only window that a block has ever had.

ghost use Rattle.std.specs.Prelude.{◌≡◌, ◌+◌, ◌-◌, ◌≤◌, length, take, true, false, IfOk, IfErr, IsOk, OnOk};
ghost use Rattle.byte_block.specs.Ranges.{LARGEST};

use crate::window::Grow;
use byte_block::WholeBlock;
use sim_base::NoMemory;
use std::alloc::Global;
use std::marker::Model;

// How many bytes are set aside at most while the places of a block are taken anew.
const ASIDE: usize = 64;

/// Bytes of a block that no other window has. It holds the block's free places itself, and remembers where
/// the block's edges stood when it was made.
///
/// ```text
/// 0            from      start            end      to          capacity
/// | free ..    | trimmed | this window's |  trimmed | free ..  |
/// ```
#[derive(Drop)]
pub(crate) struct SoleWindow {
    pub(crate) alloc: Global,
    pub(crate) block: WholeBlock,
    pub(crate) start: u32,
    pub(crate) end: u32,
    pub(crate) first_low: u32,
    pub(crate) first_high: u32,
}

impl Model for SoleWindow {
    ghost use Rattle.edge_claims.specs.Window.{Seen, seen_code};
    ghost use Rattle.edge_claims.specs.Sole.{seen_of_sole, IsSole};

    ghost Value = { Seen };

    ghost coded = { seen_code };

    ghost view = { seen_of_sole };

    ghost invariant = { IsSole };
}

impl SoleWindow {
    ghost use Rattle.edge_claims.specs.Grown.{IsNew, GrownFront, GrownBack, FrontRefuses, BackRefuses, Kept, trimmed_front, trimmed_back};

    /// A window on a new block, with `front` free places before its bytes and `back` behind.
    pub(crate) fn with_room(
        alloc: Global,
        bytes: &[u8],
        front: u32,
        back: u32,
    ) -> Result<SoleWindow, NoMemory>
        requires { front + length bytes.now + back ≤ LARGEST }
        ensures { IfOk result (IsNew front bytes.now back) }
    {
        Ok(SoleWindow {
            alloc,
            block: WholeBlock::make(alloc, front, bytes, back)?,
            start: front,
            end: front + bytes.len() as u32,
            first_low: front,
            first_high: front + bytes.len() as u32,
        })
    }

    /// The window's bytes.
    pub(crate) fn as_slice(&self) -> &[u8]
        ensures { result.now ≡ self.now.bytes }
    {
        let first = self.start - self.block.start();
        let last = self.end - self.block.start();
        &self.block.slice()[first as usize..last as usize]
    }

    /// Puts the bytes before the window's, where it begins at the edge and has the room.
    pub(crate) fn grow_front(&mut self, bytes: &[u8]) -> Result<(), Grow>
        ensures ok { OnOk result (GrownFront bytes.now self.old self.new) }
        ensures err { IfErr result (λ e. FrontRefuses (length bytes.now) self.old self.new e × Kept self.old self.new) }
        ensures empty { length bytes.now ≡ 0 → self.new ≡ self.old }
        ensures alone { self.old.start ≡ self.old.low_seen → length bytes.now ≤ self.old.start → IsOk result }
    {
        if bytes.is_empty() {
            return Ok(());
        }
        let start = self.start;
        if (start as usize) < bytes.len() {
            return Err(Grow::NoRoom { room: start });
        }
        let low = self.block.start();
        if low != start {
            return Err(Grow::Moved { seen: low });
        }
        self.block.freeze_before(bytes);
        self.start -= bytes.len() as u32;
        Ok(())
    }

    /// Puts the bytes behind the window's, where it ends at the edge and has the room.
    pub(crate) fn grow_back(&mut self, bytes: &[u8]) -> Result<(), Grow>
        ensures ok { OnOk result (GrownBack bytes.now self.old self.new) }
        ensures err { IfErr result (λ e. BackRefuses (length bytes.now) self.old self.new e × Kept self.old self.new) }
        ensures empty { length bytes.now ≡ 0 → self.new ≡ self.old }
        ensures alone { self.old.end ≡ self.old.high_seen → self.old.end + length bytes.now ≤ self.old.capacity → IsOk result }
    {
        if bytes.is_empty() {
            return Ok(());
        }
        let room = self.block.capacity() - self.end;
        if (room as usize) < bytes.len() {
            return Err(Grow::NoRoom { room });
        }
        let high = self.block.end();
        if high != self.end {
            return Err(Grow::Moved { seen: high });
        }
        self.block.freeze_behind(bytes);
        self.end += bytes.len() as u32;
        Ok(())
    }

    /// Takes all places of the block anew, as those of a block just made: the window's bytes then stand at
    /// `front`. False where there are more than 64, or no room for them there; the window then stays.
    pub(crate) fn renew(&mut self, front: u32) -> bool
        requires { front ≤ LARGEST }
        ensures renewed { result ≡ true → IsNew front self.old.bytes (self.old.capacity - (front + length self.old.bytes)) self.new }
        ensures capacity { self.new.capacity ≡ self.old.capacity }
        ensures refused { result ≡ false → self.new ≡ self.old }
    {
        let len = self.end - self.start;
        if len as usize > ASIDE || front + len > self.block.capacity() {
            return false;
        }
        let aside = set_aside(self.as_slice());
        if !self.block.renew(front) {
            return false;
        }
        self.block.freeze_behind(&aside[..len as usize]);
        self.start = front;
        self.end = front + len;
        self.first_low = front;
        self.first_high = front + len;
        true
    }

    /// Leaves off the first `n` bytes.
    pub(crate) fn trim_front(&mut self, n: u32)
        requires { n ≤ length self.old.bytes }
        ensures { self.new ≡ trimmed_front n self.old }
    {
        self.start += n;
    }

    /// Leaves off the last `n` bytes.
    pub(crate) fn trim_back(&mut self, n: u32)
        requires { n ≤ length self.old.bytes }
        ensures { self.new ≡ trimmed_back n self.old }
    {
        self.end -= n;
    }
}

fn set_aside(bytes: &[u8]) -> [u8; ASIDE]
    requires { length bytes.now ≤ ASIDE }
    ensures { take (length bytes.now) result ≡ bytes.now }
{
    let mut aside = [0; ASIDE];
    aside[..bytes.len()].copy_from_slice(bytes);
    aside
}
