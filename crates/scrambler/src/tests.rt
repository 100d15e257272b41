// Messages through the scrambler, worked out bit by bit.
use crate::Earlier;

#[test]
fn from_the_opening(rt: HostRuntime) {
    let mut sender = Earlier::ones();
    let mut zeros = [0, 0, 0, 0];
    sender.scramble(&mut zeros);
    assert_eq!(rt; zeros, [0x00, 0x00, 0x7c, 0x00]);
    let mut sender = Earlier::ones();
    let mut ones = [0xff, 0xff, 0xff, 0xff];
    sender.scramble(&mut ones);
    assert_eq!(rt; ones, [0xff, 0xff, 0xff, 0xff]);
    assert_eq!(rt; sender, Earlier::ones());
}

// The second message is scrambled with bits of the first, and the receiver follows.
#[test]
fn message_after_message(rt: HostRuntime) {
    let mut sender = Earlier::ones();
    let mut receiver = Earlier::ones();
    let mut first = [0x12, 0x34, 0x56];
    let mut second = [0x78, 0x9a, 0xbc, 0xde, 0xf0];
    sender.scramble(&mut first);
    sender.scramble(&mut second);
    assert_eq!(rt; first, [0x12, 0x34, 0x62]);
    assert_eq!(rt; second, [0xa1, 0x08, 0x88, 0xac, 0xd4]);
    receiver.descramble(&mut first);
    receiver.descramble(&mut second);
    assert_eq!(rt; first, [0x12, 0x34, 0x56]);
    assert_eq!(rt; second, [0x78, 0x9a, 0xbc, 0xde, 0xf0]);
    assert_eq!(rt; receiver, sender);
}

// An octet damaged on the line spoils itself and others, but none later than three octets after it.
#[test]
fn damaged_octet(rt: HostRuntime) {
    let mut sender = Earlier::ones();
    let mut line = [0x4c, 0x69, 0x6e, 0x65, 0x20, 0x31, 0x32, 0x33];
    sender.scramble(&mut line);
    assert_eq!(rt; line, [0x4c, 0x69, 0x22, 0x66, 0x9d, 0xb8, 0xf4, 0x9f]);
    line[1] = 0xe8;
    let mut receiver = Earlier::ones();
    receiver.descramble(&mut line);
    assert_eq!(rt; line, [0x4c, 0xe8, 0x6e, 0xe1, 0x62, 0x31, 0x32, 0x33]);
    assert_eq!(rt; receiver, sender);
}

// A receiver that missed the first octet has the message right after three octets.
#[test]
fn missed_octet(rt: HostRuntime) {
    let mut receiver = Earlier::ones();
    let mut line = [0x69, 0x22, 0x66, 0x9d, 0xb8, 0xf4, 0x9f];
    receiver.descramble(&mut line);
    assert_eq!(rt; line, [0x69, 0x22, 0x3e, 0x20, 0x31, 0x32, 0x33]);
}

#[test]
fn no_octets(rt: HostRuntime) {
    let mut sender = Earlier::ones();
    let mut octet = [1];
    sender.scramble(&mut octet);
    assert_eq!(rt; octet, [1]);
    let before = sender;
    sender.scramble(&mut []);
    assert_eq!(rt; sender, before);
    sender.descramble(&mut []);
    assert_eq!(rt; sender, before);
    let mut zeros = [0, 0, 0, 0, 0];
    sender.scramble(&mut zeros);
    assert_eq!(rt; zeros, [0x00, 0xf8, 0x00, 0xe0, 0x7f]);
}
