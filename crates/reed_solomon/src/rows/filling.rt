// The rows of products of one generator polynomial.
ghost use Rattle.std.specs.Prelude.{◌≡◌, ◌+◌, ◌*◌, ◌/◌, ◌^◌, ◌≤◌};
ghost use Rattle.field.specs.Binary.{octets};
ghost use Rattle.rs_algebra.specs.Polynomials.{scaled};
ghost use Rattle.reed_solomon.specs.Rows.{packed, RowsOf};

use crate::generator::generator_polynomial;
use field::{Field, Table};
use std::array;

// Moves the octets of a row down one place and puts another on top.
fn put_on_top(octet: u8, row: u128) -> u128
    ensures { result ≡ octet * 2 ^ 120 + row / 256 }
{
    (octet as u128) << 120 | row >> 8
}

// The products of a factor and the coefficients, packed from the highest octet down.
fn row(coefficients: &[u8], factor: u8) -> u128
    ensures { result ≡ packed 16 (scaled octets factor coefficients.now) }
{
    coefficients.iter().rev().fold(
        0,
        |row, coefficient| put_on_top(Table::times(factor, *coefficient), row),
    )
}

// The rows of the generator polynomial with `check` roots: its coefficients but the first.
pub(crate) fn all_rows(check: usize) -> [u128; 256]
    requires { check ≤ 16 }
    ensures { RowsOf check result }
{
    let room = generator_polynomial::<Table>(check);
    let polynomial = &room[..=check];
    let coefficients = &polynomial[1..];
    array::from_fn(|factor| row(coefficients, factor as u8))
}
