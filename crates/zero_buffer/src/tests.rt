use crate::{Buffer, Grown};
use block_pool::Pool;

#[test]
fn the_first_header_of_a_fresh_buffer_is_put_in_place(rt: HostRuntime) {
    let mut pool = Pool::make(rt.alloc());
    let mut buffer = Buffer::zeros(rt.alloc(), &mut pool, 1024).expect(&rt, "memory");
    let grown = buffer
        .push_front(&mut pool, &[0xaa, 0xbb])
        .expect(&rt, "memory");
    assert!(rt; matches!(grown, Grown::InPlace));
    assert_eq!(rt; buffer.len(), 1026);
}

#[test]
fn zeros_are_counted(rt: HostRuntime) {
    let mut pool = Pool::make(rt.alloc());
    let buffer = Buffer::zeros(rt.alloc(), &mut pool, 1000).expect(&rt, "memory");
    let (first, zeros, last) = buffer.parts();
    assert!(rt; first.is_empty());
    assert_eq!(rt; zeros, 1000);
    assert!(rt; last.is_empty());
}
