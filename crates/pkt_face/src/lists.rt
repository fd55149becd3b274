//! Steps on the lists of a packet, each with lists of its own as its result or in place.

ghost use Rattle.std.specs.Prelude.{◌≡◌, ℕ, ◌+◌, ◌<◌, ◌≤◌, ◌++◌, ◌==◌, length, IfOk, All, Option, slice_range, position, replicate};
ghost use Rattle.sim_base.specs.ByteTags.{clip};
ghost use Rattle.sim_base.specs.Items.{IsLeft, cut_items, join_items};
ghost use Rattle.sim_base.specs.PacketTags.{has_tag};

use sim_base::{ByteTag, Item, NoMemory, PacketTag};
use std::alloc::Global;

/// Bytes behind bytes, in one allocation.
pub(crate) fn joined_bytes(alloc: Global, front: &[u8], back: &[u8]) -> Result<Vec<u8>, NoMemory>
    ensures { IfOk result (λ v. v.items ≡ front.now ++ back.now) }
{
    let mut all = Vec::with_capacity(alloc, front.len() + back.len())?;
    all.extend_from_slice(front)?;
    all.extend_from_slice(back)?;
    Ok(all)
}

/// One list behind the other.
pub(crate) fn joined<T: Copy>(alloc: Global, front: &[T], back: &[T]) -> Result<Vec<T>, NoMemory>
    ensures { IfOk result (λ v. v.items ≡ front.now ++ back.now) }
{
    let mut all = Vec::from_slice(alloc, front)?;
    all.extend_from_slice(back)?;
    Ok(all)
}

/// Keeps the bytes from `from` up to `to`. They are moved only where the first of them isn't kept.
pub(crate) fn cut_bytes(bytes: &mut Vec<u8>, from: usize, to: usize)
    requires order { from ≤ to }
    requires inside { to ≤ length bytes.old.items }
    ensures { bytes.new.items ≡ slice_range bytes.old.items from to }
{
    if from > 0 {
        bytes.copy_within(from..to, 0);
    }
    bytes.truncate(to - from);
}

/// Keeps the parts of the tags on the bytes from `from` up to `to`.
pub(crate) fn clip_tags(tags: &mut Vec<ByteTag>, from: u32, to: u32)
    ensures { tags.new.items ≡ clip from to tags.old.items }
{
    ByteTag::part_all(tags.as_mut_slice(), from, to);
    tags.retain(|tag| tag.covers_a_byte());
}

/// Keeps what is left of the items on the bytes from `from` up to `to`.
pub(crate) fn cut_item_list(items: &mut Vec<Item>, from: u32, to: u32)
    requires { All IsLeft items.old.items }
    ensures { items.new.items ≡ cut_items from to items.old.items }
{
    Item::cut_all(items.as_mut_slice(), from, to);
    items.retain(|item| item.left() > 0);
}

/// The items of two packets, one behind the other.
pub(crate) fn joined_items(
    alloc: Global,
    front: &[Item],
    back: &[Item],
) -> Result<Vec<Item>, NoMemory>
    ensures { IfOk result (λ v. v.items ≡ join_items front.now back.now) }
{
    match (front.last(), back.first()) {
        (Some(last), Some(first)) if last.goes_on(first) => {
            let end = front.len() - 1;
            let mut items = joined(alloc, front, &back[1..])?;
            items[end].cut_back = first.cut_back;
            Ok(items)
        }
        _ => joined(alloc, front, back),
    }
}

/// Where the tag of this number stands.
pub(crate) fn position_of_tag(tags: &[PacketTag], tag: u32) -> Option<usize>
    ensures { result ≡ position (has_tag tag) tags.now }
{
    tags.iter().position(|held| held.tag == tag)
}
