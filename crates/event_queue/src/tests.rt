ghost use Rattle.std.specs.Prelude.{◌≤◌, ◌^◌, length};

use super::Queue;
use sim_base::{Key, NoMemory, NodeId, Time};
use std::alloc::Global;
use std::test::Fail;

// An event for each pair of a time and a node, numbered from 0, with its number as its load.
fn scheduled(alloc: Global, events: &[(u64, u32)]) -> Result<Queue<usize>, NoMemory> {
    let mut queue = Queue::make(alloc);
    for number in 0..events.len() {
        let (time, node) = events[number];
        let key = Key {
            time: Time(time),
            node: NodeId(node),
            sent: Time(0),
            by: NodeId(7),
            count: number as u64,
        };
        queue.push(key, number)?;
    }
    Ok(queue)
}

fn is_popped(popped: Option<(Key, usize)>, number: usize) -> bool {
    match popped {
        None => false,
        Some((_, load)) => load == number,
    }
}

#[test]
fn the_least_time_comes_first(rt: HostRuntime) -> Result<(), Fail> {
    let mut queue = scheduled(rt.alloc(), [(30, 0), (10, 0), (20, 0)].as_slice())?;
    assert!(rt; is_popped(queue.pop_below(Time(100)), 1));
    assert!(rt; is_popped(queue.pop_below(Time(100)), 2));
    assert!(rt; is_popped(queue.pop_below(Time(100)), 0));
    assert!(rt; queue.pop_below(Time(100)).is_none());
    Ok(())
}

#[test]
fn ties_of_time_go_by_node_and_then_by_count(rt: HostRuntime) -> Result<(), Fail> {
    let mut queue = scheduled(rt.alloc(), [(5, 2), (5, 1), (5, 1)].as_slice())?;
    assert!(rt; is_popped(queue.pop_below(Time(6)), 1));
    assert!(rt; is_popped(queue.pop_below(Time(6)), 2));
    assert!(rt; is_popped(queue.pop_below(Time(6)), 0));
    Ok(())
}

#[test]
fn the_end_itself_is_not_below(rt: HostRuntime) -> Result<(), Fail> {
    let mut queue = scheduled(rt.alloc(), [(10, 0)].as_slice())?;
    assert!(rt; queue.pop_below(Time(10)).is_none());
    assert!(rt; is_popped(queue.pop_below(Time(11)), 0));
    Ok(())
}

#[test]
fn the_least_key_is_told(rt: HostRuntime) -> Result<(), Fail> {
    let mut queue = scheduled(rt.alloc(), [(30, 0), (10, 0)].as_slice())?;
    assert_eq!(rt; queue.least().map(|key| key.time), Some(Time(10)));
    assert!(rt; is_popped(queue.pop_below(Time(100)), 1));
    assert!(rt; is_popped(queue.pop_below(Time(100)), 0));
    assert_eq!(rt; queue.least(), None);
    Ok(())
}

#[test]
fn a_thousand_scrambled_events_come_out_in_order(rt: HostRuntime) -> Result<(), Fail> {
    let events: Vec<(u64, u32)> = (0..1000u64)
        .map(|number| (number * 7919 % 1009 + 1, 0))
        .collect(rt.alloc())?;
    let mut queue = scheduled(rt.alloc(), events.as_slice())?;
    let mut last = Time(0);
    for _ in 0..1000 {
        let (key, load) = queue.pop_below(Time(2000)).ok_or("an event is missing")?;
        assert!(rt; last < key.time);
        assert_eq!(rt; events.get(load).map(|event| event.0), Some(key.time.0));
        last = key.time;
    }
    assert!(rt; queue.least().is_none());
    Ok(())
}
