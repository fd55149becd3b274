//! Worked examples of headers.

use crate::{Arp, Bad, Ethernet, Icmp, Ipv4, Ppp, Sum, Tcp, Udp};

const HEADER: [u8; 20] = [
    0x45, 0x00, 0x00, 0x73, 0x00, 0x00, 0x40, 0x00, 0x40, 0x11, 0xb8, 0x61, 0xc0, 0xa8, 0x00, 0x01,
    0xc0, 0xa8, 0x00, 0xc7,
];

#[test]
fn an_ipv4_header_has_its_checksum(rt: HostRuntime) {
    let mut bytes = HEADER;
    bytes[10] = 0;
    bytes[11] = 0;
    let mut sum = Sum::start();
    sum.add(&bytes[..3]);
    sum.add(&bytes[3..10]);
    sum.add_zeros(1);
    sum.add(&bytes[11..]);
    assert_eq!(rt; sum.finish(), 0xb861);
    bytes[10] = 0xb8;
    bytes[11] = 0x60;
    assert_eq!(rt;
        Ipv4::read(&bytes),
        Err(Bad::Checksum {
            field: 0xb860,
            right: 0xb861
        })
    );
    assert_eq!(rt; Ipv4::read(&bytes[..19]), Err(Bad::Short { have: 19 }));
}

/// The numerical example of RFC 1071, section 3, whose sum is ddf2: in one piece, and in pieces that end
/// in the middle of a pair.
#[test]
fn pieces_have_the_checksum_of_the_whole(rt: HostRuntime) {
    let bytes = [0x00, 0x01, 0xf2, 0x03, 0xf4, 0xf5, 0xf6, 0xf7];
    let mut sum = Sum::start();
    sum.add(&bytes);
    assert_eq!(rt; sum.finish(), 0x220d);
    let mut sum = Sum::start();
    sum.add_zeros(1);
    sum.add(&bytes[1..4]);
    sum.add(&bytes[4..7]);
    sum.add(&[]);
    sum.add(&bytes[7..]);
    assert_eq!(rt; sum.finish(), 0x220d);
}

/// A window scale and a permission of selective acknowledgements stand before the maximum segment size.
const SEGMENT: [u8; 28] = [
    0x00, 0x50, 0xc0, 0x01, 0x00, 0x00, 0x00, 0x01, 0x00, 0x00, 0x00, 0x00, 0x70, 0x02, 0xff, 0xff,
    0x00, 0x00, 0x00, 0x00, 0x01, 0x03, 0x03, 0x07, 0x02, 0x04, 0x02, 0x18,
];

#[test]
fn tcp_options_are_passed_over(rt: HostRuntime) {
    let header = Tcp {
        sport: 80,
        dport: 49153,
        seq: 1,
        ack: 0,
        flags: 2,
        window: 65535,
        checksum: 0,
        mss: Some(536),
        size: 28,
    };
    assert_eq!(rt; Tcp::read(&SEGMENT), Ok(header));
    let mut bytes = SEGMENT;
    bytes[25] = 3;
    assert_eq!(rt; Tcp::read(&bytes), Err(Bad::Length { field: 3 }));
    assert_eq!(rt; Tcp::read(&SEGMENT[..27]), Err(Bad::Short { have: 27 }));
    let mut written = [0; 24];
    header.write(&mut written);
    assert_eq!(rt; written[12], 0x60);
    assert_eq!(rt; &written[20..], [2, 4, 0x02, 0x18].as_slice());
}

#[test]
fn a_header_is_written_as_it_was_read(rt: HostRuntime) {
    let Ok(header) = Ipv4::read(&HEADER) else {
        assert!(rt; false);
        return;
    };
    assert_eq!(rt; header.total, 0x73);
    assert_eq!(rt; header.flags, 2);
    assert_eq!(rt; header.dst, 0xc0a8_00c7);
    let mut bytes = [0; 20];
    header.write(&mut bytes);
    assert_eq!(rt; bytes.as_slice(), HEADER.as_slice());
}

#[test]
fn other_headers_are_read_as_they_were_written(rt: HostRuntime) {
    let udp = Udp {
        sport: 49153,
        dport: 9,
        length: 1032,
        checksum: 0x21cf,
    };
    let mut bytes = [0; 8];
    udp.write(&mut bytes);
    assert_eq!(rt;
        bytes.as_slice(),
        [0xc0, 0x01, 0x00, 0x09, 0x04, 0x08, 0x21, 0xcf].as_slice()
    );
    assert_eq!(rt; Udp::read(&bytes), Ok(udp));
    let echo = Icmp {
        kind: 8,
        code: 0,
        checksum: 0xf7fd,
        rest: 0x0001_0001,
    };
    let mut bytes = [0; 8];
    echo.write(&mut bytes);
    assert_eq!(rt; bytes.as_slice(), [8, 0, 0xf7, 0xfd, 0, 1, 0, 1].as_slice());
    assert_eq!(rt; Icmp::read(&bytes), Ok(echo));
    let ppp = Ppp { proto: 0x0021 };
    let mut bytes = [0; 2];
    ppp.write(&mut bytes);
    assert_eq!(rt; bytes.as_slice(), [0x00, 0x21].as_slice());
    assert_eq!(rt; Ppp::read(&bytes), Ok(ppp));
}

#[test]
fn headers_with_addresses_are_read_as_they_were_written(rt: HostRuntime) {
    let ethernet = Ethernet {
        dst: [1, 2, 3, 4, 5, 6],
        src: [7, 8, 9, 10, 11, 12],
        proto: 0x0800,
    };
    let mut bytes = [0; 14];
    ethernet.write(&mut bytes);
    assert_eq!(rt;
        bytes.as_slice(),
        [1, 2, 3, 4, 5, 6, 7, 8, 9, 10, 11, 12, 8, 0].as_slice()
    );
    assert_eq!(rt; Ethernet::read(&bytes), Ok(ethernet));
    let question = Arp {
        op: 1,
        sender_mac: [2, 0, 0, 0, 0, 1],
        sender: 0x0a01_0101,
        target_mac: [0, 0, 0, 0, 0, 0],
        target: 0x0a01_0102,
    };
    let mut bytes = [0; 28];
    question.write(&mut bytes);
    assert_eq!(rt; &bytes[..8], [0, 1, 8, 0, 6, 4, 0, 1].as_slice());
    assert_eq!(rt; Arp::read(&bytes), Ok(question));
}
