//! Buffers, whose zeros are counted.

use crate::windows::refusal;
use block_pool::Pool;
use std::alloc::{AllocError, Global};
use zero_buffer::{Buffer, Grown};

fn first_of(buffer: &Buffer) -> &[u8] {
    buffer.parts().0
}

fn zeros_in(buffer: &Buffer) -> u32 {
    buffer.parts().1
}

fn last_of(buffer: &Buffer) -> &[u8] {
    buffer.parts().2
}

fn contents(alloc: Global, buffer: &Buffer) -> Result<String, AllocError> {
    let first = first_of(buffer);
    let zeros = zeros_in(buffer);
    let last = last_of(buffer);
    format!(in alloc; "{first:?}, {zeros} zeros, {last:?}")
}

fn how(alloc: Global, grown: Grown) -> Result<String, AllocError> {
    match grown {
        Grown::InPlace => format!(in alloc; "in place"),
        Grown::Copied { why } => {
            let why = refusal(alloc, why)?;
            format!(in alloc; "copied, {why}")
        }
    }
}

fn told(
    alloc: Global,
    lines: &mut Vec<String>,
    call: &str,
    grown: Grown,
    buffer: &Buffer,
) -> Result<(), AllocError> {
    let how = how(alloc, grown)?;
    let contents = contents(alloc, buffer)?;
    lines.push(format!(in alloc; "{call}: {how}; {contents}")?)?;
    Ok(())
}

// Puts bytes in front of a buffer that is short enough for them.
fn front(pool: &mut Pool, buffer: &mut Buffer, bytes: &[u8]) -> Result<Grown, AllocError> {
    if bytes.len() > 1000 || buffer.len() > 10_000 {
        return Ok(Grown::InPlace);
    }
    match buffer.push_front(pool, bytes) {
        Ok(grown) => Ok(grown),
        Err(_) => Err(AllocError),
    }
}

// Appends a buffer to another, where both are short enough.
fn join(pool: &mut Pool, buffer: &mut Buffer, other: &Buffer) -> Result<(), AllocError> {
    if buffer.len() > 10_000 || other.len() > 10_000 {
        return Ok(());
    }
    match buffer.join(pool, other) {
        Ok(()) => Ok(()),
        Err(_) => Err(AllocError),
    }
}

fn zeros_of(alloc: Global, pool: &mut Pool, n: u32) -> Result<Buffer, AllocError> {
    if n > 1000 {
        return Err(AllocError);
    }
    match Buffer::zeros(alloc, pool, n) {
        Ok(buffer) => Ok(buffer),
        Err(_) => Err(AllocError),
    }
}

fn of_bytes(alloc: Global, pool: &mut Pool, bytes: &[u8]) -> Result<Buffer, AllocError> {
    if bytes.len() > 10 {
        return Err(AllocError);
    }
    match Buffer::from_bytes(alloc, pool, bytes) {
        Ok(buffer) => Ok(buffer),
        Err(_) => Err(AllocError),
    }
}

fn copy_of(buffer: &mut Buffer) -> Result<Buffer, AllocError> {
    match buffer.copy() {
        Ok(copy) => Ok(copy),
        Err(_) => Err(AllocError),
    }
}

fn cut(buffer: &mut Buffer, from: u32, to: u32) {
    if from <= to && to <= buffer.len() {
        buffer.cut(from, to);
    }
}

/// A fresh buffer's first header, a cut, and bytes behind the zeros that are left.
pub fn zeros(alloc: Global, lines: &mut Vec<String>) -> Result<(), AllocError> {
    let mut pool = Pool::make(alloc);
    let mut buffer = zeros_of(alloc, &mut pool, 1000)?;
    let grown = front(&mut pool, &mut buffer, &[0xaa, 0xbb])?;
    told(alloc, lines, "zeros, front 2", grown, &buffer)?;
    cut(&mut buffer, 1, 502);
    let last = of_bytes(alloc, &mut pool, &[1, 2, 3, 4, 5, 6, 7, 8])?;
    join(&mut pool, &mut buffer, &last)?;
    lines.push(contents(alloc, &buffer)?)?;
    Ok(())
}

/// The first of two copies grows in place, and what comes after on either one is copied.
pub fn copies(alloc: Global, lines: &mut Vec<String>) -> Result<(), AllocError> {
    let mut pool = Pool::make(alloc);
    let mut first = of_bytes(alloc, &mut pool, &[1, 2, 3, 4, 5, 6, 7, 8, 9, 10])?;
    let mut second = copy_of(&mut first)?;
    let grown = front(&mut pool, &mut first, &[20, 21])?;
    told(alloc, lines, "the first, front 2", grown, &first)?;
    let grown = front(&mut pool, &mut second, &[30, 31])?;
    told(alloc, lines, "the copy, front 2", grown, &second)?;
    let grown = front(&mut pool, &mut first, &[40; 100])?;
    let how = how(alloc, grown)?;
    let len = first.len();
    lines.push(format!(in alloc; "the first, front 100: {how}; {len} bytes")?)?;
    Ok(())
}

/// Two areas of zeros become one where nothing lies between them, and are written out else.
pub fn joined_zeros(alloc: Global, lines: &mut Vec<String>) -> Result<(), AllocError> {
    let mut pool = Pool::make(alloc);
    let mut buffer = zeros_of(alloc, &mut pool, 3)?;
    let mut other = zeros_of(alloc, &mut pool, 4)?;
    join(&mut pool, &mut buffer, &other)?;
    lines.push(contents(alloc, &buffer)?)?;
    front(&mut pool, &mut other, &[1])?;
    join(&mut pool, &mut buffer, &other)?;
    lines.push(contents(alloc, &buffer)?)?;
    Ok(())
}
