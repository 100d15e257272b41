// Locators by hand, of no error, of two errors, and of syndromes at random (the numbers are from another solver).
use crate::linear::weighed_sum;
use crate::locator::locator;
use field::{Field, Shifting, Table};

#[test]
fn one_equation(rt: HostRuntime) {
    let mut l = [0; 2];
    locator::<Table>(&[1, 2], &mut l);
    assert_eq!(rt; l, [2, 1]);
    locator::<Table>(&[0, 2], &mut l);
    assert_eq!(rt; l, [1, 0]);
}

#[test]
fn no_equation(rt: HostRuntime) {
    let mut l = [0; 1];
    locator::<Table>(&[], &mut l);
    assert_eq!(rt; l, [1]);
}

#[test]
fn nothing_to_find(rt: HostRuntime) {
    let mut l = [7; 9];
    locator::<Table>(&[0; 16], &mut l);
    assert_eq!(rt; l, [1, 0, 0, 0, 0, 0, 0, 0, 0]);
}

// 5 at the locator alpha^3 and 7 at alpha^10: 0x84 times (x + alpha^3)(x + alpha^10)
#[test]
fn two_errors(rt: HostRuntime) {
    let mut l = [0; 3];
    locator::<Table>(&[0x02, 0x79, 0x76, 0xef], &mut l);
    assert_eq!(rt; l, [0x92, 0x01, 0x84]);
    for x in [Table::power(3), Table::power(10)] {
        assert_eq!(rt; Table::times(Table::times(l[2], x) ^ l[1], x) ^ l[0], 0);
    }
}

#[test]
fn eight_equations(rt: HostRuntime) {
    let syndromes = b"\xa5\x4d\xca\x18\x25\x30\xbb\x1d\x6d\x13\x2c\xde\xd6\x23\x7b\x2e";
    let mut l = [0; 9];
    locator::<Shifting>(syndromes, &mut l);
    assert_eq!(rt; l, [0x5d, 0x01, 0xe3, 0x86, 0xf1, 0x92, 0xc0, 0xb2, 0x07]);
    for equation in 0..8usize {
        assert_eq!(rt; weighed_sum::<Table>(&l, &syndromes[equation..]), 0);
    }
}
