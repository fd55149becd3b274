//! How a window gets more bytes: in its place where its block lets it, and else on a new block.

ghost use Rattle.std.specs.Prelude.{◌≡◌, ◌+◌, ◌≤◌, ◌++◌, length, true, false, Ok, IfOk, OnErr};
ghost use Rattle.block_pool.specs.Spare.{TakesOne};
ghost use Rattle.zero_buffer.specs.Contents.{LONGEST};
ghost use Rattle.zero_buffer.specs.Pushed.{PushedFront, PushedBack, RefusedFront, RefusedBack};
ghost use Rattle.zero_buffer.specs.declared.growth.Grown.TheVariants.{InPlace};

use block_pool::Pool;
use edge_claims::{Grow, Window};
use sim_base::NoMemory;
use std::alloc::Global;

// How many places are free in front of a new block's bytes.
const FRONT: u32 = 64;

/// Whether a push took free places of the buffer's block, or copied the bytes to a new block because the
/// old one refused.
#[derive(Clone, Copy)]
pub enum Grown {
    InPlace,
    Copied { why: Grow },
}

// Puts the bytes before the window's.
pub(crate) fn grow_front(
    window: &mut Window,
    alloc: Global,
    pool: &mut Pool,
    bytes: &[u8],
) -> Result<Grown, NoMemory>
    requires { length bytes.now + length window.old.bytes ≤ LONGEST }
    ensures ok { IfOk result (PushedFront bytes.now window.old window.new) }
    ensures err { OnErr result (RefusedFront (length bytes.now) window.old window.new) }
    ensures empty { length bytes.now ≡ 0 → (result ≡ Ok InPlace) × (window.new ≡ window.old) }
    ensures ready { window.old.alone ≡ true → window.old.start ≡ window.old.low_seen → length bytes.now ≤ window.old.start → result ≡ Ok InPlace }
    ensures pool { result ≡ Ok InPlace → pool.new ≡ pool.old }
    ensures taken { TakesOne pool.old pool.new }
{
    match window.grow_front(bytes) {
        Ok(()) => Ok(Grown::InPlace),
        Err(why) => {
            if put_anew(window, bytes) {
                return Ok(Grown::Copied { why });
            }
            *window = joined(alloc, pool, bytes, window.as_slice())?;
            Ok(Grown::Copied { why })
        }
    }
}

// Puts the bytes behind the window's.
pub(crate) fn grow_back(
    window: &mut Window,
    alloc: Global,
    pool: &mut Pool,
    bytes: &[u8],
) -> Result<Grown, NoMemory>
    requires { length bytes.now + length window.old.bytes ≤ LONGEST }
    ensures ok { IfOk result (PushedBack bytes.now window.old window.new) }
    ensures err { OnErr result (RefusedBack (length bytes.now) window.old window.new) }
    ensures empty { length bytes.now ≡ 0 → (result ≡ Ok InPlace) × (window.new ≡ window.old) }
    ensures alone { window.old.alone ≡ true → window.old.end ≡ window.old.high_seen → window.old.end + length bytes.now ≤ window.old.capacity → result ≡ Ok InPlace }
    ensures pool { result ≡ Ok InPlace → pool.new ≡ pool.old }
    ensures taken { TakesOne pool.old pool.new }
{
    match window.grow_back(bytes) {
        Ok(()) => Ok(Grown::InPlace),
        Err(why) => {
            *window = joined(alloc, pool, window.as_slice(), bytes)?;
            Ok(Grown::Copied { why })
        }
    }
}

// Puts a front of at most 64 bytes before the window's few, on all the places of its own block. It takes no
// memory. Where other windows are on the block, or there are too many bytes, the window stays.
fn put_anew(window: &mut Window, front: &[u8]) -> bool
    ensures put { result ≡ true → window.new.bytes ≡ front.now ++ window.old.bytes }
    ensures left { result ≡ false → window.new ≡ window.old }
{
    if front.len() > FRONT as usize || !window.renew(FRONT) {
        return false;
    }
    let Ok(()) = window.grow_front(front) else {
        unreachable!()
    };
    true
}

// A window on a new block with the bytes of both. A short front is written straight into the new block's
// free places.
fn joined(alloc: Global, pool: &mut Pool, front: &[u8], back: &[u8]) -> Result<Window, NoMemory>
    requires { length front.now + length back.now ≤ LONGEST }
    ensures bytes { IfOk result (λ w. w.bytes ≡ front.now ++ back.now) }
    ensures taken { TakesOne pool.old pool.new }
{
    if front.len() <= FRONT as usize {
        return prefixed(pool.make_in(back)?, front);
    }
    let mut all = Vec::from_slice(alloc, front)?;
    all.extend_from_slice(back)?;
    pool.make_in(all.as_slice())
}

// A fresh window, with at most 64 bytes put before its own.
fn prefixed(mut window: Window, front: &[u8]) -> Result<Window, NoMemory>
    ensures { IfOk result (λ w. w.bytes ≡ front.now ++ window.bytes) }
{
    match window.grow_front(front) {
        Ok(()) => Ok(window),
        Err(_) => Err(NoMemory),
    }
}
