//! Classes of frames that take turns.

ghost use Rattle.std.specs.List.{find};
ghost use Rattle.std.specs.Option.{IfSome, option_map, option_to_list};
ghost use Rattle.std.specs.Prelude.{◌≡◌, ◌+◌, ◌≤◌, ◌<◌, ◌^◌, ◌++◌, if◌then◌else◌, map, length, replicate, slice_set, vec_len, IfNone, true, false, ◌==◌, pos, ◌+ℤ◌, ◌-ℤ◌, int_lt, Some, OnOk, OnErr, IfOk, IfErr};
ghost use Rattle.std.specs.Vec.{vec_capacity};
ghost use Rattle.codel_disc.specs.Class.{Gives, empty_class, frames_of};
ghost use Rattle.codel_disc.specs.Flows.{class_of, credit_at, empty_flows, kept, next, refilled, served, turn};
ghost use Rattle.codel_disc.specs.Class as codel;
ghost use Rattle.codel_disc.specs.Flows.{class_at};
ghost use Rattle.codel_disc.specs.Roster.{first, joined, stands};
ghost use Rattle.codel_disc.specs.TurnSeen.{plain_turn, turn_frame};
ghost use Rattle.codel_disc.specs.Valid.{IsCredit, IsFlows, held};

use crate::class::Class;
use crate::roster::{CLASSES, Roster};
use crate::turn::Turn;
use pkt_face::Pkt;
use sim_base::{ByteTag, NoMemory, Time};
use std::alloc::Global;
use std::marker::Model;

/// How many bytes a class may give in its turn.
const QUANTUM: i32 = 1518;

/// The number of the byte tag that names a frame's flow.
const FLOW: u32 = 1;

/// The classes by their numbers, with their credits of bytes, and whose turn it is.
#[derive(Drop)]
pub struct Flows<P: Pkt> {
    classes: Vec<Class<P>>,
    credits: Vec<i32>,
    roster: Roster,
}

impl<P: Pkt> Model for Flows<P> {
    ghost use Rattle.codel_disc.specs.Flows.{PlainFlows};
    ghost use Rattle.codel_disc.specs.Valid.{IsFlows};

    ghost Value = { PlainFlows };

    ghost view = { λ f. record { classes = f.classes.items; credits = f.credits.items; roster = f.roster } };

    ghost invariant = { λ f. IsFlows (record { classes = f.classes.items; credits = f.credits.items; roster = f.roster }) };
}

/// The first tag that names a flow.
fn flow_tag(tags: &[ByteTag]) -> Option<ByteTag>
    ensures { result ≡ find (λ tag. tag.tag == 1) tags.now }
{
    tags.iter().copied().find(|tag| tag.tag == FLOW)
}

/// The class of a frame.
fn class_of<P: Pkt>(frame: &P) -> usize
    ensures value { result ≡ class_of (P.plain frame.now) }
    ensures known { result < 64 }
{
    match flow_tag(frame.byte_tags()) {
        Some(tag) => (tag.value % CLASSES as u64) as usize,
        None => 0,
    }
}

/// A credit with one more quantum.
fn topped_up(credit: i32) -> i32
    requires { IsCredit credit }
    ensures { result ≡ credit +ℤ pos 1518 }
{
    credit + QUANTUM
}

/// A credit without these bytes.
fn spent(credit: i32, bytes: u32) -> i32
    requires credit { IsCredit credit }
    requires bytes { bytes ≤ 131072 }
    ensures { result ≡ credit -ℤ pos bytes }
{
    credit - bytes as i32
}

/// As many empty classes as there are.
fn empty_classes<P: Pkt>(alloc: Global) -> Result<Vec<Class<P>>, NoMemory>
    ensures { IfOk result (λ classes. classes.items ≡ replicate 64 empty_class) }
{
    let mut classes = Vec::with_capacity(alloc, CLASSES)?;
    while classes.len() < CLASSES {
        classes.push(Class::make(alloc))?;
    }
    Ok(classes)
}

impl<P: Pkt> Flows<P> {
    /// No frame waits.
    #[tactic(auto, unfolding(crate::specs::Flows::empty_flows))]
    pub(crate) fn make(alloc: Global) -> Result<Flows<P>, NoMemory>
        ensures empty { IfOk result (λ flows. flows ≡ empty_flows) }
        ensures none { IfOk result (λ flows. held flows ≡ 0) }
    {
        Ok(Flows {
            classes: empty_classes(alloc)?,
            credits: vec![in alloc; QUANTUM; CLASSES]?,
            roster: Roster::make(alloc)?,
        })
    }

    /// Takes the next frame of a class that has credit.
    fn serve(&mut self, class: usize, now: Time, dropped: &mut Vec<P>) -> Turn<P>
        requires time { now.0 ≤ 2 ^ 60 }
        requires first { first self.old.roster ≡ Some class }
        requires known { class < 64 }
        requires credit { int_lt (pos 0) (credit_at class self.old) ≡ true }
        requires room { vec_len dropped.old + held self.old ≤ vec_capacity dropped.old }
        ensures dropped { map P.plain dropped.new.items ≡ map P.plain dropped.old.items ++ frames_of (served class self.old (codel.next now.0 (class_at class self.old))).dropped }
        ensures ended { plain_turn P.plain result ≡ turn_frame (served class self.old (codel.next now.0 (class_at class self.old))).ended }
        ensures flows { self.new ≡ (served class self.old (codel.next now.0 (class_at class self.old))).flows }
        ensures capacity { vec_capacity dropped.old ≤ vec_capacity dropped.new }
    {
        let queue = &mut self.classes[class];
        match queue.next(now, dropped) {
            Some(frame) => {
                self.credits[class] = spent(self.credits[class], frame.len());
                Turn::Gave(frame)
            }
            None => {
                self.roster.let_go();
                Turn::Passed
            }
        }
    }

    /// Gives a class without credit some, and sends it back.
    fn refill(&mut self, class: usize)
        requires first { first self.old.roster ≡ Some class }
        requires known { class < 64 }
        requires credit { int_lt (pos 0) (credit_at class self.old) ≡ false }
        ensures { self.new ≡ (refilled class self.old).flows }
    {
        self.credits[class] = topped_up(self.credits[class]);
        self.roster.send_back();
    }

    /// The turn of the class that is first.
    fn turn(&mut self, now: Time, dropped: &mut Vec<P>) -> Turn<P>
        requires time { now.0 ≤ 2 ^ 60 }
        requires room { vec_len dropped.old + held self.old ≤ vec_capacity dropped.old }
        ensures dropped { map P.plain dropped.new.items ≡ map P.plain dropped.old.items ++ frames_of (turn now.0 self.old).dropped }
        ensures ended { plain_turn P.plain result ≡ turn_frame (turn now.0 self.old).ended }
        ensures flows { self.new ≡ (turn now.0 self.old).flows }
        ensures capacity { vec_capacity dropped.old ≤ vec_capacity dropped.new }
        ensures valid { IsFlows self.old }
        ensures known { IfSome (first self.old.roster) (λ class. class < 64) }
    {
        match self.roster.first() {
            None => Turn::Over,
            Some(class) => {
                if self.credits[class] > 0 {
                    self.serve(class, now, dropped)
                } else {
                    self.refill(class);
                    Turn::Passed
                }
            }
        }
    }

    /// Lets turns pass until one gives a frame, or no class is in the lists.
    pub(crate) fn next(&mut self, now: Time, dropped: &mut Vec<P>) -> Option<P>
        requires time { now.0 ≤ 2 ^ 60 }
        requires room { vec_len dropped.old + held self.old ≤ vec_capacity dropped.old }
        ensures gives { Gives P.plain (next now.0 self.old) dropped.old.items dropped.new.items result self.new }
        ensures capacity { vec_capacity dropped.old ≤ vec_capacity dropped.new }
        ensures count { held self.new + (vec_len dropped.new + length (option_to_list result)) ≡ held self.old + vec_len dropped.old }
        ensures none { IfNone result (held self.old ≡ 0) }
    {
        loop {
            match self.turn(now, dropped) {
                Turn::Gave(frame) => return Some(frame),
                Turn::Over => return None,
                Turn::Passed => {}
            }
        }
    }

    /// Keeps a frame in its class, which takes turns from then on. Where memory runs out it comes back.
    pub(crate) fn keep(&mut self, now: Time, frame: P) -> Result<(), P>
        requires few { held self.old < 2 ^ 32 }
        ensures ok { OnOk result (self.new ≡ kept (record { frame = P.plain frame; since = now }) self.old) }
        ensures count { OnOk result (held self.new ≡ held self.old + 1) }
        ensures err { OnErr result (self.new ≡ self.old) }
        ensures back { IfErr result (λ refused. P.plain refused ≡ P.plain frame) }
    {
        let class = class_of(&frame);
        let queue = &mut self.classes[class];
        match queue.keep(now, frame) {
            Ok(()) => {
                wake(&mut self.roster, &mut self.credits, class);
                Ok(())
            }
            Err(refused) => Err(refused),
        }
    }
}

/// Puts a class that isn't in the lists at the end of the new ones, with a whole credit.
fn wake(roster: &mut Roster, credits: &mut Vec<i32>, class: usize)
    requires known { class < 64 }
    requires all { vec_len credits.old ≡ 64 }
    ensures roster { roster.new ≡ (if stands class roster.old then roster.old else joined class roster.old) }
    ensures credits { credits.new.items ≡ (if stands class roster.old then credits.old.items else slice_set credits.old.items class (pos 1518)) }
{
    if !roster.stands(class) {
        roster.join(class);
        credits[class] = QUANTUM;
    }
}
