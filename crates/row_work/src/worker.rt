//! What a worker does.

ghost use Rattle.std.specs.Prelude.{◌≡◌, ◌+◌, ◌<◌, ◌≤◌, true, All, IfNone, IfSome, length, map, vec_len};
ghost use Rattle.std.specs.Fork.{AcceptsAt, AcceptsEach, ChangesAt};
ghost use Rattle.std.specs.List.{range_with_len};
ghost use Rattle.work_claims.specs.Row.{fresh};
ghost use Rattle.row_work.specs.Made.{AcceptsInOrder, AllMade, AreMade, ChangesInOrder};
ghost use Rattle.row_work.specs.Order.{AreNumbers};

use crate::order::number_at;
use std::thread;
use std::thread::Threads;
use work_claims::{Pass, Row};

/// Does the work with an item and its place.
fn work_at<T, F: Fn(u32, &mut T)>(place: u32, item: &mut T, work: &F)
    requires { AcceptsAt F.Fn work.now place item.old }
    ensures { ChangesAt F.Fn work.now place item.old item.new }
{
    work(place, item);
}

/// Does the work with the items in an order, one after another.
pub fn work_alone<T, F: Fn(u32, &mut T)>(items: &mut Vec<T>, order: &[u32], work: &F)
    requires order { AreNumbers (length items.old.items) order.now }
    requires accepts { AcceptsEach F.Fn work.now items.old.items }
    ensures { AreMade (ChangesAt F.Fn work.now) items.old.items items.new.items }
{
    for at in 0..order.len() {
        let place = number_at(order, at);
        work_at(place, &mut items[place as usize], work);
    }
}

/// Draws the next item, does the work with it and its place, and gives it back.
fn draw<T, F: Fn(u32, &mut T)>(
    row: &Row<T>,
    pass: &mut Pass<T>,
    order: &[u32],
    work: &F,
) -> Option<u32>
    requires row { pass.old.row ≡ row.now }
    requires all { length order.now ≡ length row.now.items }
    requires accepts { AcceptsInOrder F.Fn work.now order.now row.now.items }
    requires made { AllMade (ChangesInOrder F.Fn work.now order.now) row.now.items pass.old.drawn }
    ensures row { pass.new.row ≡ row.now }
    ensures made { AllMade (ChangesInOrder F.Fn work.now order.now) row.now.items pass.new.drawn }
    ensures more { IfSome result (λ _. (length pass.new.drawn ≡ length pass.old.drawn + 1) × (length pass.old.drawn < length row.now.items)) }
    ensures past { IfNone result (pass.new.past ≡ true) }
{
    let number = row.claim(pass)?;
    let mut item = row.take(pass, number);
    work_at(number_at(order, number as usize), &mut item, work);
    row.give(pass, number, item);
    Some(number)
}

/// Draws until the row is drawn out.
fn draw_all<T, F: Fn(u32, &mut T)>(row: &Row<T>, pass: &mut Pass<T>, order: &[u32], work: &F)
    requires row { pass.old.row ≡ row.now }
    requires all { length order.now ≡ length row.now.items }
    requires accepts { AcceptsInOrder F.Fn work.now order.now row.now.items }
    requires made { AllMade (ChangesInOrder F.Fn work.now order.now) row.now.items pass.old.drawn }
    ensures row { pass.new.row ≡ row.now }
    ensures made { AllMade (ChangesInOrder F.Fn work.now order.now) row.now.items pass.new.drawn }
    ensures past { pass.new.past ≡ true }
{
    while let Some(_number) = draw(row, pass, order, work) {}
}

/// Each pass draws in a thread of its own until the row is drawn out.
fn draw_in_threads<R: Threads + Sync, T: Send, F: Fn(u32, &mut T) + Sync>(
    rt: &R,
    row: &Row<T>,
    passes: &mut Vec<Pass<T>>,
    order: &[u32],
    workers: u32,
    work: &F,
)
    requires some_worker { 1 ≤ workers }
    requires rows { All (λ pass. pass.row ≡ row.now) passes.old.items }
    requires all { length order.now ≡ length row.now.items }
    requires accepts { AcceptsInOrder F.Fn work.now order.now row.now.items }
    requires made { All (λ pass. AllMade (ChangesInOrder F.Fn work.now order.now) row.now.items pass.drawn) passes.old.items }
    ensures rows { All (λ pass. pass.row ≡ row.now) passes.new.items }
    ensures made { All (λ pass. AllMade (ChangesInOrder F.Fn work.now order.now) row.now.items pass.drawn) passes.new.items }
    ensures past { All (λ pass. pass.past ≡ true) passes.new.items }
    ensures passes { vec_len passes.new ≡ vec_len passes.old }
{
    thread::for_each_mut(
        rt,
        passes,
        workers as usize,
        &|_, pass| draw_all(row, pass, order, work),
    );
}

/// The passes of a new row draw until it is drawn out, and the row is closed.
pub fn draw_and_close<R: Threads + Sync, T: Send, F: Fn(u32, &mut T) + Sync>(
    rt: &R,
    row: Row<T>,
    mut passes: Vec<Pass<T>>,
    order: &[u32],
    workers: u32,
    work: &F,
) -> Vec<T>
    requires some_worker { 1 ≤ workers }
    requires some_pass { 1 ≤ row.passes }
    requires fresh { passes.items ≡ map (fresh row) (range_with_len 0 row.passes) }
    requires all { length order.now ≡ length row.items }
    requires accepts { AcceptsInOrder F.Fn work.now order.now row.items }
    ensures { AreMade (ChangesInOrder F.Fn work.now order.now) row.items result.items }
{
    draw_in_threads(rt, &row, &mut passes, order, workers, work);
    row.close(passes)
}
