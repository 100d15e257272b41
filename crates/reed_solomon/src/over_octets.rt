// A Reed-Solomon coder as a coder, over any field whose elements are all the octets.
ghost use Rattle.reed_solomon.specs.Constructed.{code_over};
ghost use Rattle.reed_solomon.specs.Codes;

use crate::coding::encode;
use crate::decoding::decode;
use crate::reed_solomon::ReedSolomon;
use coder::{Coder, Misfit, Sizes, Undecoded};
use field::OctetField;

impl<F: OctetField> Coder for ReedSolomon<F> {
    ghost code = { λ s. code_over F.Field.field s };

    ghost sound = { λ s. Codes.sound_by_sizes F.Field.field F.Field.laws F.OctetField.all_octets s.sizes.frame s.check s.sizes.word s.sizes.lengths s.word };

    fn sizes(&self) -> Sizes {
        self.sizes
    }

    fn encode(&self, message: &[u8], word: &mut [u8]) -> Result<(), Misfit> {
        encode(self, message, word)
    }

    fn decode(&self, received: &[u8], message: &mut [u8]) -> Result<usize, Undecoded> {
        decode(self, received, message)
    }
}
