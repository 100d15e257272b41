// A few rows by hand, and both makes over every octet.
use crate::agreement::products_agree;
use crate::field::Field;
use crate::horner::value_at;
use crate::shifting::Shifting;
use crate::table::Table;

#[test]
fn products_by_hand(rt: HostRuntime) {
    // a, b and their product
    let rows = [
        (0x80, 0x02, 0x1d),
        (0x02, 0x80, 0x1d),
        (0x00, 0xff, 0x00),
        (0xff, 0x00, 0x00),
        (0x01, 0xab, 0xab),
        (0x03, 0x03, 0x05),
        (0x8e, 0x02, 0x01),
        (0xff, 0xff, 0xe2),
    ];
    for (a, b, product) in rows {
        assert_eq!(rt; Shifting::times(a, b), product);
        assert_eq!(rt; Table::times(a, b), product);
    }
}

#[test]
fn powers_and_inverses(rt: HostRuntime) {
    for k in 0..=255u8 {
        assert_eq!(rt; Shifting::power(k), Table::power(k));
        assert_eq!(rt; Shifting::inverse(k), Table::inverse(k));
        assert!(rt; products_agree(k, 0x53));
    }
    assert_eq!(rt; Table::power(8), 0x1d);
    assert_eq!(rt; Table::power(255), 1);
    assert_eq!(rt; Table::inverse(2), 0x8e);
    assert_eq!(rt; Table::inverse(0), 0);
}

// x^2 + 03 x + 02 has the roots 01 and 02
#[test]
fn values_of_a_polynomial(rt: HostRuntime) {
    let polynomial = [0x01, 0x03, 0x02];
    let rows = [(0x00, 0x02), (0x01, 0x00), (0x02, 0x00), (0x80, 0x8c)];
    for (x, value) in rows {
        assert_eq!(rt; value_at::<Shifting>(&polynomial, x), value);
        assert_eq!(rt; value_at::<Table>(&polynomial, x), value);
    }
    assert_eq!(rt; value_at::<Table>(&[], 0x05), 0);
}
