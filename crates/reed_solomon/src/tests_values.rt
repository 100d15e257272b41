// Errors at known places: found, measured, checked and mended.
ghost use Rattle.std.specs.Prelude.{◌≡◌, ◌+◌, ◌<◌, ◌≤◌, length, slice_index};
ghost use Rattle.rs_algebra.specs.Words.{Places};
ghost use Rattle.reed_solomon.specs.Repairs.{places_of};

use crate::mending::{count_nonzero, mend_message};
use crate::places::low_value;
use crate::received::Received;
use crate::syndromes::syndromes;
use crate::terms::{Pattern, Term};
use field::Table;
use std::array;
use std::marker::PhantomData;
use std::process::Abort;

// Terms with these values at these places.
fn terms<const N: usize>(places: [u8; N], values: [u8; N]) -> [Term; N] {
    array::from_fn(|i| Term {
        place: places[i],
        value: values[i],
    })
}

// A word over the octets.
fn received(octets: &[u8]) -> Received<'_, Table>
    requires { length octets.now < 256 }
    ensures { result.octets.now ≡ octets.now }
{
    Received {
        field: PhantomData,
        octets,
    }
}

// Stays with syndromes and terms apart, here and below: a test is a row of an error's locator polynomial, its syndromes and its terms.
// An error of one octet or more in a word of `word` octets: a locator polynomial and the syndromes give back its terms.
fn gives_back(rt: &impl Abort, word: usize, locator: &[u8], sums: &[u8], terms: &[Term]) {
    assert!(rt; word < 256 && sums.len() <= 16);
    assert!(rt; 0 < locator.len() && locator.len() <= 9);
    assert!(rt; 0 < locator[0]);
    has_syndromes(rt, word, sums, terms);
    let mut found = [Term { place: 0, value: 0 }; 8];
    let mut error = [0; 255];
    let count = received(&error[..word]).root_places(locator, &mut found);
    assert!(rt; count <= sums.len());
    measures(rt, &error[..word], sums, &mut found[..count], terms);
    assert!(rt; locator.len() <= sums.len() + 1 && sums.len() <= word);
    let mut message = [0; 255];
    let frame = word - sums.len();
    repairs(
        rt,
        locator,
        sums,
        &mut error[..word],
        &mut message[..frame],
        terms,
    );
}

// The error as a received word: its message is all 0. With a locator polynomial that vanishes nowhere nothing is repaired.
fn repairs(
    rt: &impl Abort,
    locator: &[u8],
    sums: &[u8],
    error: &mut [u8],
    message: &mut [u8],
    terms: &[Term],
)
    requires fits { length error.old < 256 }
    requires some { 0 < slice_index locator.now 0 }
    requires room { length locator.now ≤ 9 }
    requires most { length sums.now ≤ 16 }
    requires front { length message.old ≤ length error.old }
{
    mend_message(error, terms);
    message.fill(0xaa);
    let error = received(error);
    let mut spent = [0; 16];
    let spent = &mut spent[..sums.len()];
    spent.copy_from_slice(sums);
    assert_eq!(rt; error.repair(spent, &[0x01], message), None);
    assert!(rt; message.iter().all(|octet| *octet != 0));
    spent.copy_from_slice(sums);
    assert_eq!(rt; error.repair(spent, locator, message), Some(terms.len()));
    assert!(rt; message.iter().all(|octet| *octet == 0));
}

// An error with no octet but these has these syndromes.
fn has_syndromes(rt: &impl Abort, word: usize, sums: &[u8], terms: &[Term]) {
    assert!(rt; word < 256 && sums.len() <= 16);
    let mut error = [0; 255];
    let mut made = [0; 16];
    spoils(rt, &mut error[..word], &mut made[..sums.len()], terms, sums);
}

fn spoils(rt: &impl Abort, error: &mut [u8], made: &mut [u8], terms: &[Term], sums: &[u8]) {
    assert!(rt; made.len() <= 16);
    mend_message(error, terms);
    syndromes::<Table>(error, made);
    assert!(rt; *made == *sums);
}

fn measures(rt: &impl Abort, word: &[u8], sums: &[u8], found: &mut [Term], terms: &[Term])
    requires fits { length word.now < 256 }
    requires places { Places (length word.now) (places_of found.old) }
    requires few { length found.old ≤ 8 }
    requires most { length sums.now ≤ 16 }
{
    received(word).error_values(sums, found);
    assert!(rt; *found == *terms);
    assert_eq!(rt; count_nonzero(found), terms.len());
    let pattern = Pattern::<Table> {
        field: PhantomData,
        word: word.len(),
        terms: found,
    };
    let mut spent = [0; 16];
    let spent = &mut spent[..sums.len()];
    spent.copy_from_slice(sums);
    assert!(rt; pattern.accounts_for(spent));
    assert!(rt; sums.len() > 1);
    spent.copy_from_slice(sums);
    assert!(rt; !pattern.accounts_for(&mut spent[1..]));
}

#[test]
fn errors(rt: HostRuntime) {
    gives_back(
        &rt,
        20,
        &[0x26, 0xb6, 0x48, 0xd8],
        &[0x8f, 0xa2, 0x12, 0x73, 0x86, 0xf6],
        &terms([8, 11, 19], [0xcc, 0xb1, 0xf2]),
    );
    gives_back(
        &rt,
        255,
        &[0xf9, 0xda, 0x44, 0x6e, 0x1f, 0xec, 0xb7, 0x18, 0x79],
        &[
            0xa8, 0x1f, 0x14, 0x62, 0xb8, 0xc4, 0x56, 0x47, 0x40, 0x19, 0xa6, 0x17, 0x54, 0xf7,
            0x2c, 0xf1,
        ],
        &terms(
            [7, 119, 135, 166, 189, 198, 215, 236],
            [0xf2, 0x40, 0xa7, 0x0e, 0xe7, 0x29, 0x1d, 0x60],
        ),
    );
    gives_back(
        &rt,
        255,
        &[0xf9, 0x62],
        &[
            0x40, 0x94, 0x5e, 0x44, 0xda, 0x3f, 0x07, 0xf4, 0x80, 0x35, 0xbc, 0x88, 0xa9, 0x7e,
            0x0e, 0xf5,
        ],
        &terms([222], [0x40]),
    );
    gives_back(
        &rt,
        12,
        &[0x26, 0xed, 0x04],
        &[0xd3, 0x2d, 0x8f, 0x82],
        &terms([1, 8], [0x93, 0x40]),
    );
    gives_back(&rt, 7, &[0xd2, 0x69], &[0x38, 0x70], &terms([5], [0x38]));
    gives_back(
        &rt,
        40,
        &[0xf4, 0x92, 0xa1, 0xda, 0x4b, 0x22],
        &[
            0x77, 0xef, 0xd1, 0xcd, 0x15, 0xe4, 0x63, 0x44, 0x95, 0x6d, 0xf9, 0x9c, 0x40, 0x4f,
            0x09, 0xf2,
        ],
        &terms([4, 10, 11, 17, 24], [0x24, 0x9f, 0x9f, 0x72, 0x21]),
    );
}

#[test]
fn mended_in_front(rt: HostRuntime) {
    let mut message = [0x10, 0x20, 0x30];
    mend_message(
        &mut message,
        &terms([2, 3, 0, 255], [0x01, 0x02, 0x13, 0xff]),
    );
    assert_eq!(rt; message, [0x03, 0x20, 0x31]);
}

#[test]
fn low_values(rt: HostRuntime) {
    // 02 + 03 x + x^2 has the roots 01 and 02
    let polynomial = [0x02, 0x03, 0x01];
    let rows = [(0x00, 0x02), (0x01, 0x00), (0x02, 0x00), (0x80, 0x8c)];
    for (x, value) in rows {
        assert_eq!(rt; low_value::<Table>(&polynomial, x), value);
    }
    assert_eq!(rt; low_value::<Table>(&[], 0x05), 0);
}

#[test]
fn counts(rt: HostRuntime) {
    assert_eq!(rt; count_nonzero(&[]), 0);
    assert_eq!(rt; count_nonzero(&terms([0; 2], [0, 0])), 0);
    assert_eq!(rt; count_nonzero(&terms([0; 5], [0, 7, 0, 255, 1])), 3);
}
