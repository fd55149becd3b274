//! A window on a block that other windows may share, and how it grows.

ghost use Rattle.std.specs.Prelude.{◌≡◌, ◌+◌, ◌≤◌, length, true, IfOk, IfErr, IsOk, OnOk, OnErr};

use crate::opened::{BACK, Edges, FRONT, Opened};
use crate::plays::{ClaimBack, ClaimFront, Copy, FillBack, FillFront};
use crate::sole::SoleWindow;
use crate::view::{End, View, Wrote};
use crate::window::Grow;
use atomic_table::Seat;
use byte_block::FrozenRange;
use sim_base::NoMemory;
use std::alloc::Global;
use std::marker::Model;
use std::sync::Arc;

/// Bytes of a block that other windows may share. They never change but by this window's own calls.
///
/// ```text
/// 0        low edge     start            end     high edge    capacity
/// | free ..    | taken ..  | this window's |  taken ..  | .. free    |
/// ```
///
/// A window whose start is the low edge may claim free places in front, one whose end is the high edge
/// behind. The edges move outwards only.
#[derive(Drop)]
pub(crate) struct SharedWindow {
    edges: Arc<Edges, Global>,
    seat: Seat<End, View>,
    bytes: FrozenRange,
    start: u32,
    end: u32,
    capacity: u32,
}

impl Model for SharedWindow {
    ghost use Rattle.edge_claims.specs.Window.{Seen, seen_code};
    ghost use Rattle.edge_claims.specs.Shared.{seen_of, Stands};

    ghost Value = { Seen };

    ghost coded = { seen_code };

    ghost view = { seen_of };

    ghost invariant = { Stands };
}

impl SharedWindow {
    ghost use Rattle.edge_claims.specs.Grown.{copied, shared, GrownFront, GrownBack, FrontRefuses, BackRefuses, Kept, trimmed_front, trimmed_back};

    /// The same window, whose block's free places now lie where other windows can claim them. Where memory
    /// is wanting, it comes back.
    pub(crate) fn of(sole: SoleWindow) -> Result<SharedWindow, SoleWindow>
        ensures ok { IfOk result (λ w. w ≡ sole) }
        ensures err { IfErr result (λ w. w ≡ sole) }
    {
        let SoleWindow {
            alloc,
            block,
            start,
            end,
            first_low,
            first_high,
        } = sole;
        let capacity = block.capacity();
        match Opened::of(alloc, block, first_low, first_high) {
            Ok(Opened { edges, seat, bytes }) => Ok(SharedWindow {
                edges,
                seat,
                bytes,
                start,
                end,
                capacity,
            }),
            Err(block) => Err(SoleWindow {
                alloc,
                block,
                start,
                end,
                first_low,
                first_high,
            }),
        }
    }

    /// The window's bytes.
    pub(crate) fn as_slice(&self) -> &[u8]
        ensures { result.now ≡ self.now.bytes }
    {
        let all = self.bytes.slice();
        let first = self.start - self.bytes.start();
        let last = self.end - self.bytes.start();
        &all[first as usize..last as usize]
    }

    /// Another window on the same bytes. From here on neither is alone. Where memory is wanting, this
    /// window stays as it was.
    pub(crate) fn copy(&mut self) -> Result<SharedWindow, NoMemory>
        ensures ok { IfOk result (λ c. (c ≡ copied self.old) × (self.new ≡ shared self.old)) }
        ensures err { OnErr result (self.new ≡ self.old) }
    {
        let edges = Arc::try_clone(&self.edges)?;
        let bytes = self.bytes.share()?;
        let seat = self.edges.shared.split_seat::<Copy>(&mut self.seat);
        Ok(SharedWindow {
            edges,
            seat,
            bytes,
            start: self.start,
            end: self.end,
            capacity: self.capacity,
        })
    }

    /// Puts the bytes before the window's, in free places of its block. A refusal leaves the window but
    /// for the low edge that it has seen.
    pub(crate) fn grow_front(&mut self, bytes: &[u8]) -> Result<(), Grow>
        ensures ok { OnOk result (GrownFront bytes.now self.old self.new) }
        ensures err { IfErr result (λ e. FrontRefuses (length bytes.now) self.old self.new e × Kept self.old self.new) }
        ensures empty { length bytes.now ≡ 0 → self.new ≡ self.old }
        ensures alone { self.old.alone ≡ true → self.old.start ≡ self.old.low_seen → length bytes.now ≤ self.old.start → IsOk result }
    {
        if bytes.is_empty() {
            return Ok(());
        }
        let start = self.start;
        if (start as usize) < bytes.len() {
            return Err(Grow::NoRoom { room: start });
        }
        let low = start - bytes.len() as u32;
        let shared = &self.edges.shared;
        let found = shared.compare_exchange::<ClaimFront>(
            &mut self.seat,
            FRONT,
            start as u64,
            low as u64,
        );
        if found != start as u64 {
            return Err(Grow::Moved { seen: found as u32 });
        }
        let end = self.seat.slot_mut(shared, FRONT);
        end.free.freeze_last(bytes, &mut self.bytes);
        end.wrote = Wrote::of(bytes);
        shared.load::<FillFront>(&mut self.seat, FRONT);
        self.start = low;
        Ok(())
    }

    /// Puts the bytes behind the window's, in free places of its block. A refusal leaves the window but
    /// for the high edge that it has seen.
    pub(crate) fn grow_back(&mut self, bytes: &[u8]) -> Result<(), Grow>
        ensures ok { OnOk result (GrownBack bytes.now self.old self.new) }
        ensures err { IfErr result (λ e. BackRefuses (length bytes.now) self.old self.new e × Kept self.old self.new) }
        ensures empty { length bytes.now ≡ 0 → self.new ≡ self.old }
        ensures alone { self.old.alone ≡ true → self.old.end ≡ self.old.high_seen → self.old.end + length bytes.now ≤ self.old.capacity → IsOk result }
    {
        if bytes.is_empty() {
            return Ok(());
        }
        let room = self.capacity - self.end;
        if (room as usize) < bytes.len() {
            return Err(Grow::NoRoom { room });
        }
        let left = room - bytes.len() as u32;
        let shared = &self.edges.shared;
        let found = shared.compare_exchange::<ClaimBack>(
            &mut self.seat,
            BACK,
            room as u64,
            left as u64,
        );
        if found != room as u64 {
            return Err(Grow::Moved {
                seen: self.capacity - found as u32,
            });
        }
        let end = self.seat.slot_mut(shared, BACK);
        end.free.freeze_first(bytes, &mut self.bytes);
        end.wrote = Wrote::of(bytes);
        shared.load::<FillBack>(&mut self.seat, BACK);
        self.end += bytes.len() as u32;
        Ok(())
    }

    /// Leaves off the first `n` bytes.
    pub(crate) fn trim_front(&mut self, n: u32)
        requires { n ≤ length self.old.bytes }
        ensures { self.new ≡ trimmed_front n self.old }
    {
        self.start += n;
    }

    /// Leaves off the last `n` bytes.
    pub(crate) fn trim_back(&mut self, n: u32)
        requires { n ≤ length self.old.bytes }
        ensures { self.new ≡ trimmed_back n self.old }
    {
        self.end -= n;
    }
}
