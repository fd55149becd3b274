//! Items in slots by their numbers, from which they go into a row in another order, and back.
//!
//! ```text
//!   slots by number    0     1     2          order  2 0 1
//!   in the row         item of 2, item of 0, item of 1
//! ```

ghost use Rattle.std.specs.Prelude.{◌≡◌, ◌<◌, ◌≤◌, [], None, Some, length, map, slice_get, slice_set, vec_capacity, vec_len};
ghost use Rattle.row_work.specs.Order.{AreNumbers};
ghost use Rattle.row_work.specs.Slots.{AreAt, IsFilled, LieAt};

use crate::order::number_at;

/// Moves items into slots, in their order.
pub fn fill_slots<T>(items: &mut Vec<T>, slots: &mut Vec<Option<T>>)
    requires room { vec_len items.old ≤ vec_capacity slots.old }
    requires empty { slots.old.items ≡ [] }
    ensures slots { slots.new.items ≡ map Some items.old.items }
    ensures items { items.new.items ≡ [] }
    ensures kept { vec_capacity items.new ≡ vec_capacity items.old }
{
    while let Some(item) = items.pop() {
        slots.push_reserved(Some(item));
    }
    slots.reverse();
}

/// Takes the item out of a slot.
fn take_slot<T>(slots: &mut Vec<Option<T>>, number: u32) -> T
    requires { (item : T) × (slice_get slots.old.items number ≡ Some (Some item)) }
    ensures item { slice_get slots.old.items number ≡ Some (Some result) }
    ensures rest { slots.new.items ≡ slice_set slots.old.items number None }
{
    match slots[number as usize].take() {
        Some(item) => item,
        None => unreachable!(),
    }
}

/// Takes the items out of their slots in an order.
pub fn take_in_order<T>(slots: &mut Vec<Option<T>>, order: &[u32], drawn: &mut Vec<T>)
    requires order { AreNumbers (length slots.old.items) order.now }
    requires full { IsFilled slots.old.items }
    requires room { length order.now ≤ vec_capacity drawn.old }
    requires empty { drawn.old.items ≡ [] }
    ensures drawn { AreAt order.now slots.old.items drawn.new.items }
    ensures all { length drawn.new.items ≡ length order.now }
    ensures slots { length slots.new.items ≡ length slots.old.items }
{
    for at in 0..order.len() {
        let item = take_slot(slots, number_at(order, at));
        drawn.push_reserved(item);
    }
}

/// Puts an item into a slot.
fn put_slot<T: Drop>(slots: &mut Vec<Option<T>>, number: u32, item: T)
    requires { number < length slots.old.items }
    ensures { slots.new.items ≡ slice_set slots.old.items number (Some item) }
{
    slots[number as usize] = Some(item);
}

/// Puts the items that were taken in an order back into their slots.
pub fn put_back<T: Drop>(slots: &mut Vec<Option<T>>, order: &[u32], drawn: &mut Vec<T>)
    requires order { AreNumbers (length slots.old.items) order.now }
    requires all { length drawn.old.items ≡ length order.now }
    ensures slots { LieAt order.now drawn.old.items slots.new.items }
    ensures all { length slots.new.items ≡ length slots.old.items }
{
    while let Some(item) = drawn.pop() {
        put_slot(slots, number_at(order, drawn.len()), item);
    }
}

/// Moves the items out of full slots, in their order.
pub fn empty_slots<T>(mut slots: Vec<Option<T>>, items: &mut Vec<T>)
    requires full { IsFilled slots.items }
    requires room { length slots.items ≤ vec_capacity items.old }
    requires empty { items.old.items ≡ [] }
    ensures { map Some items.new.items ≡ slots.items }
{
    while let Some(slot) = slots.pop() {
        match slot {
            Some(item) => items.push_reserved(item),
            None => unreachable!(),
        }
    }
    slots.destroy_empty();
    items.reverse();
}
