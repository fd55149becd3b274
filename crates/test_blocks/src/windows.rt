//! Windows on one block, and those that a pool hands out.

use block_pool::{Class, Pool};
use edge_claims::{Grow, Window};
use std::alloc::{AllocError, Global};

/// Why a window did not grow.
pub fn refusal(alloc: Global, why: Grow) -> Result<String, AllocError> {
    match why {
        Grow::NoRoom { room } => format!(in alloc; "no room: {room}"),
        Grow::Moved { seen } => format!(in alloc; "moved: {seen}"),
    }
}

fn answer(alloc: Global, grown: Result<(), Grow>) -> Result<String, AllocError> {
    match grown {
        Ok(()) => format!(in alloc; "in place"),
        Err(why) => refusal(alloc, why),
    }
}

// Puts bytes in front.
fn front(alloc: Global, window: &mut Window, bytes: &[u8]) -> Result<String, AllocError> {
    let answer = answer(alloc, window.grow_front(bytes))?;
    let bytes = window.as_slice();
    format!(in alloc; "{answer}, {bytes:?}")
}

// Puts bytes behind.
fn back(alloc: Global, window: &mut Window, bytes: &[u8]) -> Result<String, AllocError> {
    let answer = answer(alloc, window.grow_back(bytes))?;
    let bytes = window.as_slice();
    format!(in alloc; "{answer}, {bytes:?}")
}

// A window on three bytes, with so many places before and behind them.
fn window(alloc: Global, before: u32, behind: u32) -> Result<Window, AllocError> {
    let before = before.min(1000);
    let behind = behind.min(1000);
    match Window::with_room(alloc, &[10, 11, 12], before, behind) {
        Ok(window) => Ok(window),
        Err(_) => Err(AllocError),
    }
}

fn copy(window: &mut Window) -> Result<Window, AllocError> {
    match window.copy() {
        Ok(copy) => Ok(copy),
        Err(_) => Err(AllocError),
    }
}

/// Places in front, and no more of them than there are.
pub fn room(alloc: Global, lines: &mut Vec<String>) -> Result<(), AllocError> {
    let mut window = window(alloc, 8, 0)?;
    lines.push(front(alloc, &mut window, &[1, 2, 3, 4, 5, 6, 7, 8])?)?;
    lines.push(front(alloc, &mut window, &[9])?)?;
    lines.push(back(alloc, &mut window, &[9])?)?;
    Ok(())
}

/// The first of two copies that grows has the place, and the other one learns where the edge is.
pub fn copies(alloc: Global, lines: &mut Vec<String>) -> Result<(), AllocError> {
    let mut first = window(alloc, 8, 8)?;
    let mut second = copy(&mut first)?;
    lines.push(front(alloc, &mut first, &[1])?)?;
    lines.push(front(alloc, &mut second, &[2])?)?;
    lines.push(back(alloc, &mut second, &[3, 4])?)?;
    lines.push(back(alloc, &mut first, &[5])?)?;
    Ok(())
}

// Makes blocks ahead.
fn reserve(pool: &mut Pool, class: Class, n: u32) -> Result<(), AllocError> {
    match pool.reserve(class, n.min(100)) {
        Ok(()) => Ok(()),
        Err(_) => Err(AllocError),
    }
}

// Takes a block, and says how many bytes are on it.
fn take(pool: &mut Pool, class: Class) -> Result<usize, AllocError> {
    match pool.take(class) {
        Ok(window) => Ok(window.as_slice().len()),
        Err(_) => Err(AllocError),
    }
}

// Makes a block of bytes, and says how many are on it.
fn make_in(pool: &mut Pool, bytes: &[u8]) -> Result<usize, AllocError> {
    if bytes.len() > 1000 {
        return Ok(0);
    }
    match pool.make_in(bytes) {
        Ok(window) => Ok(window.as_slice().len()),
        Err(_) => Err(AllocError),
    }
}

/// Blocks that were made ahead, and one more.
pub fn pool(alloc: Global, lines: &mut Vec<String>) -> Result<(), AllocError> {
    let mut pool = Pool::make(alloc);
    reserve(&mut pool, Class::Small, 2)?;
    for _ in 0..3 {
        let len = take(&mut pool, Class::Small)?;
        lines.push(format!(in alloc; "taken: {len} bytes")?)?;
    }
    reserve(&mut pool, Class::Middle, 1)?;
    let len = make_in(&mut pool, &[8; 49])?;
    lines.push(format!(in alloc; "made: {len} bytes")?)?;
    Ok(())
}
