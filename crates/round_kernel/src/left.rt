//! What groups have left in a window.

ghost use Rattle.std.specs.Prelude.{◌≡◌, ◌++◌, IfOk, OnOk, map};
ghost use Rattle.pkt_face.specs.Seen.{plain_line};
ghost use Rattle.round_kernel.specs.Left.{emptied_group, full, full_lines, plain_lists, plain_sends, sends_in};

use crate::groups::Group;
use node_step::Event;
use pkt_face::{Line, Pkt};
use sim_base::NoMemory;

/// What groups have left: the lines of each that has some, and what all have scheduled for one another.
#[derive(Drop)]
pub struct Left<P: Pkt> {
    pub lines: Vec<Vec<Line<P>>>,
    pub sends: Vec<Event<P>>,
}

/// Puts lines behind others, unless there are none.
fn add_lines<P: Pkt>(lists: &mut Vec<Vec<Line<P>>>, lines: Vec<Line<P>>) -> Result<(), NoMemory>
    ensures { OnOk result (plain_lists P.plain lists.new.items ≡ plain_lists P.plain lists.old.items ++ full (map (plain_line P.plain) lines.items)) }
{
    if !lines.is_empty() {
        lists.push(lines)?;
    }
    Ok(())
}

/// Takes out what a group has left.
fn take_from<P: Pkt>(group: &mut Group<P>, left: &mut Left<P>) -> Result<(), NoMemory>
    ensures group { OnOk result (group.new ≡ emptied_group group.old) }
    ensures lines { OnOk result (plain_lists P.plain left.new.lines.items ≡ plain_lists P.plain left.old.lines.items ++ full group.old.0.lines) }
    ensures sends { OnOk result (plain_sends P.plain left.new.sends.items ≡ plain_sends P.plain left.old.sends.items ++ group.old.0.sends) }
{
    add_lines(&mut left.lines, group.take_lines())?;
    let mut sends = group.take_sends();
    left.sends.append(&mut sends)?;
    Ok(())
}

/// Takes out what the groups have left.
pub fn take_left<P: Pkt>(groups: &mut Vec<Group<P>>) -> Result<Left<P>, NoMemory>
    ensures groups { OnOk result (groups.new.items ≡ map emptied_group groups.old.items) }
    ensures lines { IfOk result (λ left. plain_lists P.plain left.lines.items ≡ full_lines groups.old.items) }
    ensures sends { IfOk result (λ left. plain_sends P.plain left.sends.items ≡ sends_in groups.old.items) }
{
    let alloc = *groups.allocator();
    let mut left = Left {
        lines: Vec::new(alloc),
        sends: Vec::new(alloc),
    };
    for at in 0..groups.len() {
        take_from(&mut groups[at], &mut left)?;
    }
    Ok(left)
}
