// Decoding: the message whose word is near enough to the received one.
ghost use Rattle.std.specs.Prelude.{◌≡◌, ◌+◌, ◌%◌, ◌<◌, ◌≤◌, length};
ghost use Rattle.coder.specs.Codes.{Decoded};
ghost use Rattle.rs_algebra.specs.Polynomials.{Elements};
ghost use Rattle.rs_algebra.specs.Words.{check_difference};
ghost use Rattle.reed_solomon.specs.Constructed.{code_over};
ghost use Rattle.reed_solomon.specs.Decoding.{Answered};

use crate::bounds::MOST_UNKNOWNS;
use crate::checks::Checks;
use crate::difference::check_difference;
use crate::linear::is_zero;
use crate::locator::locator;
use crate::received::Received;
use crate::syndromes::syndromes;
use coder::Undecoded;
use coder::sizes::MOST_CHECK;
use field::{Field, OctetField};
use std::marker::PhantomData;

impl<F: Field> Received<'_, F> {
    // Decodes a word of elements by its check difference.
    fn decode_difference(&self, difference: &[u8], message: &mut [u8]) -> Option<usize>
        requires difference_len { (length difference.now % 2 ≡ 0) × (length difference.now ≤ 16) }
        requires received_len { length self.now.octets.now ≡ length message.old + length difference.now }
        requires difference_value { difference.now ≡ check_difference F.Field.field (length message.old) (length difference.now) self.now.octets.now }
        ensures { Elements F.Field.field self.now.octets.now → Answered F.Field.field (length message.old) (length difference.now) self.now.octets.now message.old message.new result }
    {
        if is_zero(difference) {
            message.copy_from_slice(&self.octets[..message.len()]);
            return Some(0);
        }
        let check = difference.len();
        // Stays two rooms of fixed length: nothing here allocates, and no crate is used but std.
        let mut found = [0; MOST_CHECK];
        let mut polynomial = [0; MOST_UNKNOWNS];
        let found = &mut found[..check];
        let polynomial = &mut polynomial[..check / 2 + 1];
        syndromes::<F>(difference, found);
        locator::<F>(found, polynomial);
        self.repair(found, polynomial, message)
    }
}

// A received word of elements of the coder's field.
pub(crate) fn decode_elements<C: Checks>(
    coder: &C,
    received: &[u8],
    message: &mut [u8],
) -> Option<usize>
    requires message_len { length message.old ≡ (C.numbers coder.now).sizes.frame }
    requires received_len { length received.now ≡ (C.numbers coder.now).sizes.word }
    requires short { length received.now < C.Over.Field.field.size }
    ensures { Elements C.Over.Field.field received.now → Answered C.Over.Field.field (length message.old) (C.numbers coder.now).check received.now message.old message.new result }
{
    // Stays a room of fixed length: nothing here allocates, and no crate is used but std.
    let mut difference = [0; MOST_CHECK];
    let difference = &mut difference[..coder.numbers().check];
    check_difference(coder, received, difference);
    let received = Received::<C::Over> {
        field: PhantomData,
        octets: received,
    };
    received.decode_difference(difference, message)
}

// A received word of octets, where all octets are elements.
#[tactic(auto, using(crate::proofs::Nearness::found, crate::proofs::Nearness::lost))]
pub(crate) fn decode<C: Checks>(
    coder: &C,
    received: &[u8],
    message: &mut [u8],
) -> Result<usize, Undecoded>
where
    C::Over: OctetField,
    ensures { Decoded (code_over C.Over.Field.field (C.numbers coder.now)) received.now message.old message.new result }
{
    coder.numbers().sizes.fits(message, received)?;
    decode_elements(coder, received, message).ok_or(Undecoded::Lost)
}
