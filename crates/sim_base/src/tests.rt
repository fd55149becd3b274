use super::*;

#[test]
fn a_frame_takes_whole_nanoseconds(rt: HostRuntime) {
    assert_eq!(rt; Rate(3).frame_time(1), Time(2_666_666_667));
}

#[test]
fn the_longest_frame_at_the_least_rate_fits_a_time(rt: HostRuntime) {
    assert_eq!(rt;
        Rate(1).frame_time(16_777_216),
        Time(134_217_728_000_000_000)
    );
}

#[test]
fn no_frame_takes_no_time(rt: HostRuntime) {
    assert_eq!(rt; Rate(1_000_000_000_000).frame_time(1), Time(1));
}

/// The first words of the reference generator with state 42 in stream 54 are `a15c02b7 7b47f409 ba1d3330`, as its
/// demo prints them; their upper halves and upper bits are drawn.
#[test]
fn draws_are_the_upper_bits_of_the_reference_words(rt: HostRuntime) {
    let mut random = Random::make(42, NodeId(54));
    assert_eq!(rt; random.draw(65536), 0xa15c);
    assert_eq!(rt; random.draw(2), 0);
    assert_eq!(rt; random.draw(256), 0xba);
}
