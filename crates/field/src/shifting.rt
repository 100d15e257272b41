// The octets as polynomials: multiply by shifting, reduce by x^8 + x^4 + x^3 + x^2 + 1. Slow, and plain to read.
ghost use Rattle.std.specs.Prelude.{◌≡◌};
ghost use Rattle.field.specs.Field.{power};
ghost use Rattle.field.specs.Binary.{octets, doubled, reduced_times, reduced_inverse};
ghost use Rattle.field.specs.Octets.{octet_laws};

use crate::field::{Field, OCTETS};

// x^4 + x^3 + x^2 + 1, which x^8 is reduced to
const REDUCED: u8 = 0x1d;

const ALPHA: u8 = 2;

pub struct Shifting;

// Stays with workers below: a trait's method has the trait's contract, and these have answers of their own, in which no edit may be refused.
impl Field for Shifting {
    ghost field = { octets };

    ghost laws = { octet_laws };

    fn size() -> usize {
        OCTETS
    }

    fn times(a: u8, b: u8) -> u8 {
        shift_and_add(a, b)
    }

    fn inverse(a: u8) -> u8 {
        next_to_last_power(a)
    }

    fn power(k: u8) -> u8 {
        repeated(k)
    }
}

// x times a.
#[tactic(auto, using(crate::specs::Products::doubled_low), unfolding(crate::specs::Binary::doubled))]
fn double(a: u8) -> u8
    ensures { result ≡ doubled 8 29 a }
{
    if a < 128 {
        a * 2
    } else {
        (a - 128) * 2 ^ REDUCED
    }
}

fn shift_and_add(a: u8, b: u8) -> u8
    ensures { result ≡ reduced_times 8 29 a b }
{
    let mut sum = 0;
    let mut shifted = a;
    let mut left = b;
    for _ in 0..8u8 {
        if left % 2 == 1 {
            sum ^= shifted;
        }
        shifted = double(shifted);
        left /= 2;
    }
    sum
}

// Power 254 of a: after turn i `power` is power 2^i - 1.
#[tactic(auto, unfolding(crate::specs::Field::raised))]
fn next_to_last_power(a: u8) -> u8
    ensures { result ≡ reduced_inverse 8 29 a }
{
    let mut power = 1;
    for _ in 0..7u8 {
        power = shift_and_add(a, shift_and_add(power, power));
    }
    shift_and_add(power, power)
}

#[tactic(auto, unfolding(crate::specs::Field::raised))]
fn repeated(k: u8) -> u8
    ensures { result ≡ power octets k }
{
    let mut power = 1;
    for _ in 0..k {
        power = shift_and_add(ALPHA, power);
    }
    power
}
