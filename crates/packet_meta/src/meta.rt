//! The list of items, and what pushes, cuts and joins of the packet do to it.

ghost use Rattle.std.specs.Prelude.{◌≡◌, ◌+◌, ◌-◌, ◌<◌, ◌≤◌, [], ◌∷◌, ◌++◌, length, take, drop, IfOk, IsOk, OnOk, OnErr};
ghost use Rattle.sim_base.specs.Items as parts;
ghost use Rattle.sim_base.specs.Items.{total_left};
ghost use Rattle.sim_base.specs.Packet.{longest};
ghost use Rattle.packet_meta.specs.Meta.{INLINE};

use sim_base::{Item, Kind, NoMemory};
use smallvec::SmallVec;
use std::alloc::Global;
use std::marker::Model;

/// The items of one packet, whose parts that are left number at most 131,072 bytes. A call that answers
/// `NoMemory` leaves them as they were.
#[derive(Drop)]
pub struct Meta {
    items: SmallVec<Item, 8>,
}

impl Model for Meta {
    ghost use Rattle.std.specs.Prelude.{List};
    ghost use Rattle.sim_base.specs.declared.item.Item.{Item};

    ghost Value = { List Item };

    ghost view = { λ m. m.items.items };

    ghost use Rattle.packet_meta.specs.Meta.{IsMeta};

    ghost invariant = { IsMeta };
}

impl Meta {
    pub fn new(alloc: Global) -> Meta
        ensures { result ≡ [] }
    {
        Meta {
            items: SmallVec::new(alloc),
        }
    }

    /// A new part of `size` bytes comes in front. A size of 0 changes nothing.
    pub fn push_front(&mut self, kind: Kind, size: u32) -> Result<(), NoMemory>
        requires { size + total_left self.old ≤ longest }
        ensures ok { OnOk result (self.new ≡ parts.whole kind size ++ self.old) }
        ensures err { OnErr result (self.new ≡ self.old) }
        ensures inline { length (parts.whole kind size ++ self.old) ≤ INLINE → IsOk result }
    {
        if size > 0 {
            put_behind(&mut self.items, Item::whole(kind, size))?;
            move_last_to_front(self.items.as_mut_slice());
        }
        Ok(())
    }

    /// A new part of `size` bytes comes behind. A size of 0 changes nothing.
    pub fn push_back(&mut self, kind: Kind, size: u32) -> Result<(), NoMemory>
        requires { total_left self.old + size ≤ longest }
        ensures ok { OnOk result (self.new ≡ self.old ++ parts.whole kind size) }
        ensures err { OnErr result (self.new ≡ self.old) }
        ensures inline { length (self.old ++ parts.whole kind size) ≤ INLINE → IsOk result }
    {
        if size > 0 {
            put_behind(&mut self.items, Item::whole(kind, size))?;
        }
        Ok(())
    }

    /// Keeps what is left of the items on the bytes from `from` up to `to`.
    pub fn cut(&mut self, from: u32, to: u32)
        requires order { from ≤ to }
        requires inside { to ≤ total_left self.old }
        ensures { self.new ≡ parts.cut_items from to self.old }
    {
        Item::cut_all(self.items.as_mut_slice(), from, to);
        self.items.retain(|item| item.left() > 0);
    }

    /// Leaves off the first item.
    pub fn leave_off_first(&mut self)
        requires { 0 < length self.old }
        ensures { self.new ≡ drop 1 self.old }
    {
        let last = self.items.len() - 1;
        self.items.as_mut_slice().copy_within(1.., 0);
        self.items.truncate(last);
    }

    /// Adds the items of a packet that comes behind. Where its first item goes on exactly where the last
    /// one here ends, inside the same part, the two become one.
    pub fn join(&mut self, other: &Meta) -> Result<(), NoMemory>
        requires { total_left self.old + total_left other.now ≤ longest }
        ensures ok { OnOk result (self.new ≡ parts.join_items self.old other.now) }
        ensures err { OnErr result (self.new ≡ self.old) }
        ensures inline { length (parts.join_items self.old other.now) ≤ INLINE → IsOk result }
    {
        append(&mut self.items, other.items.as_slice())
    }

    pub fn copy(&self) -> Result<Meta, NoMemory>
        ensures ok { IfOk result (λ m. m ≡ self.now) }
        ensures inline { length self.now ≤ INLINE → IsOk result }
    {
        Ok(Meta {
            items: SmallVec::from_slice(*self.items.allocator(), self.items.as_slice())?,
        })
    }

    pub fn list(&self) -> &[Item]
        ensures { result.now ≡ self.now }
    {
        self.items.as_slice()
    }
}

// An item comes behind the others: in its place where there is room.
fn put_behind(items: &mut SmallVec<Item, 8>, item: Item) -> Result<(), NoMemory>
    ensures ok { OnOk result (items.new.items ≡ items.old.items ++ item ∷ []) }
    ensures err { OnErr result (items.new ≡ items.old) }
    ensures capacity { items.old.capacity ≤ items.new.capacity }
    ensures succeeds { length items.old.items < items.old.capacity → IsOk result }
{
    if items.len() < items.capacity() {
        items.push_reserved(item);
        return Ok(());
    }
    items.push(item)?;
    Ok(())
}

// The last item comes before all others.
fn move_last_to_front(items: &mut [Item])
    requires { 0 < length items.old }
    ensures { items.new ≡ drop (length items.old - 1) items.old ++ take (length items.old - 1) items.old }
{
    let last = items.len() - 1;
    let item = items[last];
    items.copy_within(..last, 1);
    items[0] = item;
}

// Adds items that come behind the others.
fn append(items: &mut SmallVec<Item, 8>, back: &[Item]) -> Result<(), NoMemory>
    ensures ok { OnOk result (items.new.items ≡ parts.join_items items.old.items back.now) }
    ensures err { OnErr result (items.new ≡ items.old) }
    ensures capacity { items.old.capacity ≤ items.new.capacity }
    ensures succeeds { length (parts.join_items items.old.items back.now) ≤ items.old.capacity → IsOk result }
{
    match (items.as_slice().last(), back.first()) {
        (Some(last), Some(first)) if last.goes_on(first) => {
            let end = items.len() - 1;
            items.extend_from_slice(&back[1..])?;
            items[end].cut_back = first.cut_back;
        }
        _ => items.extend_from_slice(back)?,
    }
    Ok(())
}
