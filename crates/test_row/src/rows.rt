//! Rows of three items, drawn by two passes.

ghost use Rattle.std.specs.Prelude.{◌≡◌, ◌+◌, ◌<◌, ◌≤◌, true, All, IfNone, IfOk, IfSome, Some, None, length, slice_get, vec_len};
ghost use Rattle.work_claims.specs.Drawn.{AllGiven};

use std::alloc::{AllocError, Global};
use std::test::Fail;
use std::thread;
use std::thread::Threads;
use work_claims::{Pass, Row};

/// Draws a number, and gives its item back, one more.
fn draw(row: &Row<u32>, pass: &mut Pass<u32>) -> Option<u32>
    requires row { pass.old.row ≡ row.now }
    requires given { AllGiven pass.old.drawn }
    ensures row { pass.new.row ≡ pass.old.row }
    ensures given { AllGiven pass.new.drawn }
    ensures more { IfSome result (λ _. (length pass.new.drawn ≡ length pass.old.drawn + 1) × (length pass.old.drawn < length row.now.items)) }
    ensures past { IfNone result (pass.new.past ≡ true) }
{
    let number = row.claim(pass)?;
    let item = row.take(pass, number);
    row.give(pass, number, item.wrapping_add(1));
    Some(number)
}

/// Draws until the row is drawn out.
fn draw_all(row: &Row<u32>, pass: &mut Pass<u32>)
    requires row { pass.old.row ≡ row.now }
    requires given { AllGiven pass.old.drawn }
    ensures row { pass.new.row ≡ pass.old.row }
    ensures given { AllGiven pass.new.drawn }
    ensures past { pass.new.past ≡ true }
{
    while let Some(_number) = draw(row, pass) {}
}

/// Each pass draws in a thread of its own until the row is drawn out.
fn draw_in_threads<R: Threads + Sync>(rt: &R, row: &Row<u32>, passes: &mut Vec<Pass<u32>>)
    requires rows { All (λ pass. pass.row ≡ row.now) passes.old.items }
    requires given { All (λ pass. AllGiven pass.drawn) passes.old.items }
    ensures rows { All (λ pass. pass.row ≡ row.now) passes.new.items }
    ensures given { All (λ pass. AllGiven pass.drawn) passes.new.items }
    ensures past { All (λ pass. pass.past ≡ true) passes.new.items }
    ensures all { vec_len passes.new ≡ vec_len passes.old }
{
    thread::for_each_mut(rt, passes, 2, &|_, pass| draw_all(row, pass));
}

/// Both passes draw in threads, and the row is closed.
fn draw_and_close<R: Threads + Sync>(rt: &R, row: Row<u32>, mut passes: Vec<Pass<u32>>) -> Vec<u32>
    requires rows { All (λ pass. pass.row ≡ row) passes.items }
    requires given { All (λ pass. AllGiven pass.drawn) passes.items }
    requires all { vec_len passes ≡ row.passes }
    requires some_pass { 1 ≤ vec_len passes }
{
    draw_in_threads(rt, &row, &mut passes);
    row.close(passes)
}

/// A row of three items with two passes.
fn three_items(alloc: Global) -> Result<(Row<u32>, Vec<Pass<u32>>), AllocError>
    ensures rows { IfOk result (λ made. All (λ pass. pass.row ≡ made.0) made.1.items) }
    ensures given { IfOk result (λ made. All (λ pass. AllGiven pass.drawn) made.1.items) }
    ensures all { IfOk result (λ made. vec_len made.1 ≡ made.0.passes) }
    ensures two { IfOk result (λ made. vec_len made.1 ≡ 2) }
{
    let items = Vec::from_array(alloc, [10, 20, 30])?;
    match Row::make(alloc, items, 2) {
        Ok(made) => Ok(made),
        Err(_back) => Err(AllocError),
    }
}

#[test]
fn two_threads_draw_each_number_once(rt: HostRuntime) -> Result<(), Fail> {
    for _ in 0..200 {
        let (row, passes) = three_items(rt.alloc())?;
        let items = draw_and_close(&rt, row, passes);
        assert_eq!(rt; items.as_slice(), [11, 21, 31].as_slice());
    }
    Ok(())
}

/// Two passes draw by turns, five times.
fn draw_by_turns(row: &Row<u32>, first: &mut Pass<u32>, second: &mut Pass<u32>) -> [Option<u32>; 5]
    requires first { (first.old.row ≡ row.now) × AllGiven first.old.drawn }
    requires second { (second.old.row ≡ row.now) × AllGiven second.old.drawn }
    ensures first { (first.new.row ≡ row.now) × AllGiven first.new.drawn }
    ensures second { (second.new.row ≡ row.now) × AllGiven second.new.drawn }
{
    let one = draw(row, first);
    let two = draw(row, second);
    let three = draw(row, first);
    let four = draw(row, second);
    let five = draw(row, first);
    [one, two, three, four, five]
}

#[test]
fn each_number_is_drawn_once_and_every_further_claim_is_none(rt: HostRuntime) -> Result<(), Fail> {
    let (row, mut passes) = three_items(rt.alloc())?;
    let mut second = passes.pop().expect(&rt, "two passes");
    let mut first = passes.pop().expect(&rt, "two passes");
    let numbers = draw_by_turns(&row, &mut first, &mut second);
    assert_eq!(rt; numbers, [Some(0), Some(1), Some(2), None, None]);
    assert!(rt; draw(&row, &mut second).is_none());
    passes.push(first)?;
    passes.push(second)?;
    assert_eq!(rt; row.close(passes).as_slice(), [11, 21, 31].as_slice());
    Ok(())
}
