use crate::Tags;
use sim_base::{Absent, ByteTag, TagStop};
use std::test::Fail;

fn tag(from: u32, to: u32) -> ByteTag {
    ByteTag {
        tag: 5,
        from,
        to,
        value: 99,
    }
}

#[test]
fn byte_tags_follow_their_bytes(rt: HostRuntime) -> Result<(), Fail> {
    let mut tags = Tags::new(rt.alloc());
    tags.add_byte(10, 5, 99)?;
    tags.add_byte(0, 6, 1)?;
    tags.clip(4, 10);
    assert_eq!(rt; tags.byte_list(), [tag(0, 6)].as_slice());
    tags.shift(2);
    assert_eq!(rt; tags.byte_list(), [tag(2, 8)].as_slice());
    let mut joined = tags.copy()?;
    assert_eq!(rt; tags.byte_list(), [tag(2, 8)].as_slice());
    assert_eq!(rt; joined.byte_list(), [tag(2, 8)].as_slice());
    joined.append(&tags, 8)?;
    assert_eq!(rt; joined.byte_list(), [tag(2, 8), tag(10, 16)].as_slice());
    tags.clip(8, 8);
    assert!(rt; tags.byte_list().is_empty());
    Ok(())
}

#[test]
fn a_packet_has_one_tag_of_each_number(rt: HostRuntime) -> Result<(), Fail> {
    let mut tags = Tags::new(rt.alloc());
    assert_eq!(rt; tags.add(1, 7), Ok(()));
    assert_eq!(rt; tags.add(1, 8), Err(TagStop::Present { value: 7 }));
    assert_eq!(rt; tags.remove(9), Err(Absent));
    tags.replace(1, 9)?;
    tags.replace(2, 4)?;
    assert_eq!(rt; tags.find(1), Some(9));
    assert_eq!(rt; tags.remove(1), Ok(9));
    assert_eq!(rt; tags.find(1), None);
    assert_eq!(rt; tags.find(2), Some(4));
    Ok(())
}
