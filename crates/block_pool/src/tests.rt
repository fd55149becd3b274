use crate::{Class, Pool};

#[test]
fn a_spare_block_is_empty(rt: HostRuntime) {
    let mut pool = Pool::make(rt.alloc());
    pool.reserve(Class::Small, 1).expect(&rt, "memory");
    let spare = pool.take(Class::Small).expect(&rt, "memory");
    assert!(rt; spare.as_slice().is_empty());
}

#[test]
fn a_block_is_made_of_bytes(rt: HostRuntime) {
    let mut pool = Pool::make(rt.alloc());
    let window = pool.make_in(&[1, 2, 3]).expect(&rt, "memory");
    assert_eq!(rt; window.as_slice(), [1, 2, 3].as_slice());
}

#[test]
fn each_length_has_its_class(rt: HostRuntime) {
    assert_eq!(rt; Pool::class_for(48), Some(Class::Small));
    assert_eq!(rt; Pool::class_for(432), Some(Class::Middle));
    assert_eq!(rt; Pool::class_for(1968), Some(Class::Large));
    assert_eq!(rt; Pool::class_for(1969), None);
}
