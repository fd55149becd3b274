//! In which order items are drawn: first those of which most work is expected, since what is begun last is waited for.

ghost use Rattle.std.specs.Prelude.{◌≡◌, ◌<◌, ◌^◌, IfOk, Some, length, slice_get, slice_index_or};
ghost use Rattle.std.specs.List.{range_with_len};
ghost use Rattle.std.specs.Ordering.{nat_cmp};
ghost use Rattle.row_work.specs.Order.{AreNumbers, IsOrderOf, rank};

use std::alloc::{AllocError, Global};
use std::cmp::Ordering;

/// The number at a place of an order.
pub fn number_at(order: &[u32], at: usize) -> u32
    requires { at < length order.now }
    ensures { slice_get order.now at ≡ Some result }
{
    order[at]
}

/// The estimate of a number, or 0 where there is none.
fn estimate_of(estimates: &[u64], number: u32) -> u64
    ensures { result ≡ slice_index_or estimates.now number 0 }
{
    match estimates.get(number as usize) {
        Some(estimate) => *estimate,
        None => 0,
    }
}

/// A number's rank: the higher its estimate, the higher, and among those of one estimate the higher the less the number is.
fn rank_of(estimates: &[u64], number: u32) -> u128
    ensures { result ≡ rank estimates.now number }
{
    u128::from(estimate_of(estimates, number)) * 4_294_967_296 + u128::from(u32::MAX - number)
}

/// How two numbers are ordered: the one of higher rank first.
fn compare(estimates: &[u64], a: u32, b: u32) -> Ordering
    ensures { result ≡ nat_cmp (rank estimates.now b) (rank estimates.now a) }
{
    rank_of(estimates, b).cmp(&rank_of(estimates, a))
}

/// Puts the numbers of estimates into their order: by falling estimate, then by number.
pub fn put_in_order(numbers: &mut [u32], estimates: &[u64])
    requires few { length estimates.now < 2 ^ 32 }
    requires numbers { AreNumbers (length estimates.now) numbers.old }
    ensures { IsOrderOf estimates.now numbers.new }
{
    numbers.sort_unstable_by(|a, b| compare(estimates, *a, *b));
}

/// The numbers from 0.
fn numbers_below(alloc: Global, count: u32) -> Result<Vec<u32>, AllocError>
    ensures { IfOk result (λ numbers. numbers.items ≡ range_with_len 0 count) }
{
    let mut numbers = Vec::with_capacity(alloc, count as usize)?;
    for number in 0..count {
        numbers.push(number)?;
    }
    Ok(numbers)
}

/// The numbers of estimates, by falling estimate, then by number.
pub fn order_of(alloc: Global, estimates: &[u64]) -> Result<Vec<u32>, AllocError>
    requires few { length estimates.now < 2 ^ 32 }
    ensures { IfOk result (λ order. IsOrderOf estimates.now order.items) }
{
    let mut numbers = numbers_below(alloc, estimates.len() as u32)?;
    put_in_order(&mut numbers, estimates);
    Ok(numbers)
}
