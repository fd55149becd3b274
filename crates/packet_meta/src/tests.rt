use crate::Meta;
use sim_base::{Item, Kind};
use std::test::Fail;

fn item(kind: Kind, size: u32, cut_front: u32, cut_back: u32) -> Item {
    Item {
        kind,
        size,
        cut_front,
        cut_back,
    }
}

#[test]
fn two_halves_of_a_payload_become_whole(rt: HostRuntime) -> Result<(), Fail> {
    let mut front = Meta::new(rt.alloc());
    front.push_back(Kind::Payload, 10)?;
    front.push_front(Kind::Udp, 8)?;
    front.push_front(Kind::Ipv4, 0)?;
    let mut back = front.copy()?;
    front.cut(0, 12);
    back.cut(12, 18);
    let front_items = [item(Kind::Udp, 8, 0, 0), item(Kind::Payload, 10, 0, 6)];
    assert_eq!(rt; front.list(), front_items.as_slice());
    assert_eq!(rt; back.list(), [item(Kind::Payload, 10, 4, 0)].as_slice());
    front.join(&back)?;
    let whole_items = [item(Kind::Udp, 8, 0, 0), item(Kind::Payload, 10, 0, 0)];
    assert_eq!(rt; front.list(), whole_items.as_slice());
    Ok(())
}

#[test]
fn other_parts_stand_one_behind_the_other(rt: HostRuntime) -> Result<(), Fail> {
    let mut front = Meta::new(rt.alloc());
    front.push_back(Kind::Udp, 8)?;
    let mut back = Meta::new(rt.alloc());
    back.push_back(Kind::Payload, 4)?;
    front.join(&back)?;
    let items = [item(Kind::Udp, 8, 0, 0), item(Kind::Payload, 4, 0, 0)];
    assert_eq!(rt; front.list(), items.as_slice());
    Ok(())
}
