// The check octets of a message, by a shift register.
ghost use Rattle.std.specs.Prelude.{◌≡◌, ℕ, ◌<◌, ◌≤◌, List, [], ◌∷◌, ◌++◌, length};
ghost use Rattle.rs_algebra.specs.Words.{check_of, register_step};

use crate::bounds::MOST_COEFFICIENTS;
use crate::generator::generator_polynomial;
use field::Field;

// One octet of the message: the register moves up one place, and what moves out, with the octet added, is fed back. The
// last number lent is the 0 that moves into the last place.
fn feed<F: Field>(polynomial: &[u8], register: &mut [u8], octet: u8)
    requires { (length polynomial.now ≡ length register.old) × (0 < length register.old) }
    ensures { (reg : List ℕ) → register.old ≡ reg ++ 0 ∷ [] → register.new ≡ register_step F.Field.field polynomial.now reg octet ++ 0 ∷ [] }
{
    let feedback = register[0] ^ octet;
    // Stays by index: each octet is written where the one behind it is read.
    for k in 0..register.len() - 1 {
        register[k] = F::times(feedback, polynomial[k + 1]) ^ register[k + 1];
    }
}

// Writes the remainder of the message, with as many zeros behind it as there is room for, by the generator polynomial.
pub(crate) fn remainder<F: Field>(message: &[u8], out: &mut [u8])
    requires { length out.old ≤ 16 }
    ensures { out.new ≡ check_of F.Field.field (length out.old) message.now }
{
    let coefficients = generator_polynomial::<F>(out.len());
    let polynomial = &coefficients[..=out.len()];
    // Stays a room of fixed length: nothing here allocates, and no crate is used but std.
    let mut room = [0; MOST_COEFFICIENTS];
    let register = &mut room[..=out.len()];
    for octet in message {
        feed::<F>(polynomial, register, *octet);
    }
    out.copy_from_slice(&register[..out.len()]);
}
