//! A row of items, and the passes that draw from it.
//!
//! ```text
//!   counter: the next number        0 <= counter <= length + passes
//!   place    0     1     2   ..     an item, or nothing while a pass has it
//! ```
//!
//! A pass adds 1 to the counter, and the number that it found is its own: only this pass opens that place.

ghost use Rattle.std.specs.Slots.{IsFull, slots_items, slots_len};
ghost use lib.ListN.{get_elem?};
ghost use mathlib.Core.Option.{some};
ghost use Rattle.std.specs.Prelude.{ℕ, MatchOption, ◌⊎◌, Option, List, Some, map, IfOk, IfErr, false, vec_len, vec_capacity, ◌≡◌, ◌+◌, ◌<◌, ◌≤◌, ◌^◌, [], ◌∷◌, ◌++◌, length, IsTrue, IfSome, IfNone, IsNone, true};
ghost use Rattle.std.specs.List.{All, Any, flat_map, range_with_len, slice_get};
ghost use Rattle.std.specs.Option.{option_to_list};
ghost use Rattle.work_claims.specs.Drawn.{AllGiven, IsAt, IsNew, moved, times};
ghost use Rattle.work_claims.specs.Gathered.{IsGathered, drawn_of};
ghost use Rattle.work_claims.specs.Steps.{Opened, Shut};
ghost use Rattle.work_claims.specs.Row.{fresh};
ghost use Rattle.work_claims.specs.declared.view.Stage.TheVariants.{Drawn, Open, Taken, Given};

use crate::plays::{Deal, Draw, Gather, Place, SlotIn, SlotOut};
use crate::view::{Draws, Opening, View};
use atomic_table::{Closed, Refused, Seat, Table};
use std::alloc::Global;
use std::marker::{Brand, Model};
use std::snapshot::Snapshot;

// The word of a row's table: the next number.
const COUNTER: usize = 0;

type Places<T> = Table<Option<T>, View<T>, Opening<T>, Draws, Global>;

/// Items in places, each of which one pass draws.
#[derive(Drop)]
pub struct Row<T> {
    places: Places<T>,
    // How many places there are: the numbers from here on lie past the row.
    end: u32,
    passes: u32,
}

impl<T> Model for Row<T> {
    ghost use Rattle.std.specs.Prelude.{◌≡◌, ◌<◌, ◌≤◌, ◌^◌, length};
    ghost use Rattle.work_claims.specs.Row.{RowSeen};
    ghost use Rattle.work_claims.specs.Rule.{items_of};

    ghost Value = { RowSeen T };

    ghost view = { λ r. record {
      table = r.places.shared.table_id;
      items = items_of r.places.shared.key;
      passes = r.passes;
    } };

    ghost invariant = { λ r. (r.end ≡ length (items_of r.places.shared.key))
        × (r.passes ≡ r.places.shared.key.passes)
        × (r.places.shared.table_id.words ≡ 1)
        × (r.places.shared.table_id.slots ≡ r.end)
        × (r.end < 2 ^ 31)
        × (r.passes ≤ 64) };
}

/// What one thread draws with.
#[derive(Drop)]
pub struct Pass<T> {
    seat: Seat<Option<T>, View<T>>,
    place: u32,
    past: bool,
    emptied: Option<Vec<T>>,
}

impl<T> Model for Pass<T> {
    ghost use Rattle.work_claims.specs.Row.{PassSeen, IsPass};

    ghost Value = { PassSeen T };

    ghost view = { λ p. record {
      row = record { table = p.seat.table_id; items = p.seat.me.0.items; passes = p.seat.me.0.passes };
      place = p.place;
      past = p.past;
      drawn = p.seat.me.0.drawn;
    } };

    ghost invariant = { λ p. IsPass p.seat.me p.past p.emptied };
}

// Opens a place that the pass drew, to this pass alone.
fn open_place<T, P: Place>(places: &Places<T>, seat: &mut Seat<Option<T>, View<T>>, at: u32)
    requires table { seat.old.table_id ≡ places.now.shared.table_id }
    requires words { 0 < places.now.shared.table_id.words }
    requires place { at ≡ P.place }
    requires drawn { IsAt seat.old.me.0.drawn at Drawn ⊎ IsAt seat.old.me.0.drawn at Taken }
    requires part { 0 < seat.old.me.0.parts }
    ensures table { seat.new.table_id ≡ seat.old.table_id }
    ensures opened { Opened at seat.old.me seat.new.me }
{
    let _ = at;
    places.shared.load::<SlotOut<P>>(seat, COUNTER);
}

// Closes the place again.
fn shut_place<T, P: Place>(places: &Places<T>, seat: &mut Seat<Option<T>, View<T>>, at: u32)
    requires table { seat.old.table_id ≡ places.now.shared.table_id }
    requires words { 0 < places.now.shared.table_id.words }
    requires place { at ≡ P.place }
    requires drawn { IsAt seat.old.me.0.drawn at Open }
    requires open { (lies : Option T) × (seat.old.me.1 ≡ (at, lies) ∷ []) }
    ensures table { seat.new.table_id ≡ seat.old.table_id }
    ensures shut { Shut at seat.old.me seat.new.me }
{
    let _ = at;
    places.shared.load::<SlotIn<P>>(seat, COUNTER);
}

/// Want of memory, with the items of the row.
#[derive(Drop)]
pub struct Back<T> {
    pub items: Vec<T>,
}

// Moves the items into slots, in their order.
fn lay_out<T>(items: &mut Vec<T>, slots: &mut Vec<Option<T>>)
    requires room { vec_len items.old ≤ vec_capacity slots.old }
    requires empty { slots.old.items ≡ [] }
    ensures slots { slots.new.items ≡ map Some items.old.items }
    ensures items { items.new.items ≡ [] }
    ensures kept { vec_capacity items.new ≡ vec_capacity items.old }
{
    while let Some(item) = items.pop() {
        slots.push_reserved(Some(item));
    }
    slots.reverse();
}

// Moves the items back, in their order.
fn bring_back<T>(mut slots: Vec<Option<T>>, items: &mut Vec<T>)
    requires room { vec_len slots ≤ vec_capacity items.old }
    requires empty { items.old.items ≡ [] }
    ensures { items.new.items ≡ flat_map option_to_list slots.items }
{
    while let Some(slot) = slots.pop() {
        if let Some(item) = slot {
            items.push_reserved(item);
        }
    }
    slots.destroy_empty();
    items.reverse();
}

// Deals out the passes of a row. The last one keeps the emptied list of items.
fn deal<T>(
    row: &Row<T>,
    mut seat: Seat<Option<T>, View<T>>,
    emptied: Vec<T>,
    dealt: &mut Vec<Pass<T>>,
)
    requires table { seat.table_id ≡ row.now.table }
    requires first { seat.me ≡ (record { items = row.now.items; passes = row.now.passes; keeps = true; parts = row.now.passes; past = false; drawn = [] }, []) }
    requires some_pass { 1 ≤ row.now.passes }
    requires emptied { emptied.items ≡ [] }
    requires room { length row.now.items ≤ vec_capacity emptied }
    requires none_yet { dealt.old.items ≡ [] }
    requires places { row.now.passes ≤ vec_capacity dealt.old }
    ensures { dealt.new.items ≡ map (fresh row.now) (range_with_len 0 row.now.passes) }
{
    let last = row.passes - 1;
    for place in 0..last {
        let dealt_seat = row.places.shared.split_seat::<Deal>(&mut seat);
        dealt.push_reserved(Pass {
            seat: dealt_seat,
            place,
            past: false,
            emptied: None,
        });
    }
    dealt.push_reserved(Pass {
        seat,
        place: last,
        past: false,
        emptied: Some(emptied),
    });
}

// The list that one of two joined passes keeps.
fn kept<T>(one: Option<Vec<T>>, other: Option<Vec<T>>) -> Option<Vec<T>>
    requires { MatchOption one Unit (λ list. list.items ≡ []) }
    ensures { MatchOption other (result ≡ one) (λ list. result ≡ Some list) }
{
    match other {
        None => one,
        Some(list) => {
            if let Some(left) = one {
                left.destroy_empty();
            }
            Some(list)
        }
    }
}

// Joins the passes of a row in the seat of the last, with the list that one of them keeps.
fn gather<T>(row: &Row<T>, mut passes: Vec<Pass<T>>) -> (Seat<Option<T>, View<T>>, Option<Vec<T>>)
    requires rows { All (λ pass. pass.row ≡ row.now) passes.items }
    requires some_pass { 1 ≤ vec_len passes }
    ensures { IsGathered row.now [] passes.items result.0.table_id result.0.me result.1 }
{
    let Some(last) = passes.pop() else {
        unreachable!()
    };
    let Pass {
        mut seat,
        place: _,
        past: _,
        mut emptied,
    } = last;
    while let Some(other) = passes.pop() {
        let Pass {
            seat: other_seat,
            place: _,
            past: _,
            emptied: other_emptied,
        } = other;
        row.places.shared.join_seat::<Gather>(&mut seat, other_seat);
        emptied = kept(emptied, other_emptied);
    }
    passes.destroy_empty();
    (seat, emptied)
}

// Moves what lies in the places of a closed table into a list, in their order.
fn take_out<T>(mut closed: Closed<Option<T>, Global>, items: &mut Vec<T>)
    requires full { IsFull closed.slots }
    requires each { (n : ℕ) → n < slots_len closed.slots → (item : T) × (get_elem? (slots_items closed.slots) n ≡ some (Some item)) }
    requires empty { items.old.items ≡ [] }
    requires room { slots_len closed.slots ≤ vec_capacity items.old }
    ensures len { length items.new.items ≡ slots_len closed.slots }
    ensures items { (n : ℕ) (item : T) → n < slots_len closed.slots → get_elem? (slots_items closed.slots) n ≡ some (Some item) → get_elem? items.new.items n ≡ some item }
{
    for at in 0..closed.slot_count() {
        match closed.take(at) {
            Some(item) => items.push_reserved(item),
            None => unreachable!(),
        }
    }
    closed.free();
}

impl<T> Row<T> {
    /// A row of fewer than 2^31 items, with up to 64 passes to draw from it. Where memory runs out, the items come back.
    pub fn make(
        alloc: Global,
        mut items: Vec<T>,
        passes: u32,
    ) -> Result<(Row<T>, Vec<Pass<T>>), Back<T>>
        requires some_pass { 1 ≤ passes }
        requires few_passes { passes ≤ 64 }
        requires short { vec_len items < 2 ^ 31 }
        ensures items { IfOk result (λ made. made.0.items ≡ items.items) }
        ensures number { IfOk result (λ made. made.0.passes ≡ passes) }
        ensures passes { IfOk result (λ made. made.1.items ≡ map (fresh made.0) (range_with_len 0 passes)) }
        ensures back { IfErr result (λ back. back.items.items ≡ items.items) }
    {
        let end = items.len() as u32;
        let Ok(mut dealt) = Vec::with_capacity(alloc, passes as usize) else {
            return Err(Back { items });
        };
        let Ok(mut slots) = Vec::with_capacity(alloc, items.len()) else {
            dealt.destroy_empty();
            return Err(Back { items });
        };
        let opening = Opening {
            items: Snapshot::of(&items),
            passes,
        };
        lay_out(&mut items, &mut slots);
        match Table::new(alloc, &[0], slots, &opening) {
            Err(Refused { slots }) => {
                dealt.destroy_empty();
                bring_back(slots, &mut items);
                Err(Back { items })
            }
            Ok((places, seat)) => {
                let row = Row {
                    places,
                    end,
                    passes,
                };
                deal(&row, seat, items, &mut dealt);
                Ok((row, dealt))
            }
        }
    }

    /// Draws the next number, or `None` where the row is drawn out. A pass that still draws has drawn fewer numbers than
    /// there are items, so drawing until `None` ends.
    pub fn claim(&self, pass: &mut Pass<T>) -> Option<u32>
        requires { pass.old.row ≡ self.now }
        ensures within { IfSome result (λ number. number < length self.now.items) }
        ensures new { IfSome result (λ number. IsNew number pass.old.drawn) }
        ensures fewer { IfSome result (λ _. length pass.old.drawn < length self.now.items) }
        ensures drawn { IfSome result (λ number. pass.new ≡ record pass.old { drawn = pass.old.drawn ++ (number, Drawn) ∷ [] }) }
        ensures none { IfNone result (pass.new ≡ record pass.old { past = true }) }
        ensures past { IsTrue pass.old.past → IsNone result }
    {
        if pass.past {
            return None;
        }
        let number = self
            .places
            .shared
            .fetch_add::<Draw>(&mut pass.seat, COUNTER, 1);
        if number < u64::from(self.end) {
            return Some(number as u32);
        }
        pass.past = true;
        None
    }

    /// Takes the item at a place that this pass drew.
    pub fn take(&self, pass: &mut Pass<T>, at: u32) -> T
        requires row { pass.old.row ≡ self.now }
        requires drawn { IsAt pass.old.drawn at Drawn }
        ensures item { slice_get self.now.items at ≡ Some result }
        ensures taken { pass.new ≡ record pass.old { drawn = moved at Taken pass.old.drawn } }
    {
        open_place::<T, Brand>(&self.places, &mut pass.seat, at);
        let item = self
            .places
            .shared
            .exchange(&mut pass.seat, at as usize, None);
        shut_place::<T, Brand>(&self.places, &mut pass.seat, at);
        item.unwrap()
    }

    /// Gives an item back to the place whose item this pass took.
    pub fn give(&self, pass: &mut Pass<T>, at: u32, item: T)
        requires row { pass.old.row ≡ self.now }
        requires taken { IsAt pass.old.drawn at Taken }
        ensures given { pass.new ≡ record pass.old { drawn = moved at (Given item) pass.old.drawn } }
    {
        open_place::<T, Brand>(&self.places, &mut pass.seat, at);
        match self
            .places
            .shared
            .exchange(&mut pass.seat, at as usize, Some(item))
        {
            None => {}
            Some(_) => unreachable!(),
        }
        shut_place::<T, Brand>(&self.places, &mut pass.seat, at);
    }

    /// Ends the row, with all its passes, one of which has answered `None`: each number below the length stands once in
    /// them, and the items are those that were given back, in the order of their places.
    pub fn close(self, passes: Vec<Pass<T>>) -> Vec<T>
        requires rows { All (λ pass. pass.row ≡ self) passes.items }
        requires all { vec_len passes ≡ self.passes }
        requires past { Any (λ pass. IsTrue pass.past) passes.items }
        requires given { AllGiven (flat_map drawn_of passes.items) }
        ensures once { (n : ℕ) → n < length self.items → times n (flat_map drawn_of passes.items) ≡ 1 }
        ensures len { length result.items ≡ length self.items }
        ensures items { (n : ℕ) (item : T) → IsAt (flat_map drawn_of passes.items) n (Given item) → slice_get result.items n ≡ Some item }
    {
        let (seat, emptied) = gather(&self, passes);
        let Row {
            places,
            end: _,
            passes: _,
        } = self;
        let closed = places.close_with(seat);
        let Some(mut items) = emptied else {
            unreachable!()
        };
        take_out(closed, &mut items);
        items
    }
}
