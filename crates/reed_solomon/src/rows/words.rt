// The coder with rows as a coder.
ghost use Rattle.reed_solomon.specs.RowCoders.{code_of};
ghost use Rattle.std.specs.Prelude.{refl};
ghost use Rattle.field.specs.Binary.{octets};
ghost use Rattle.field.specs.Octets.{octet_laws};
ghost use Rattle.reed_solomon.specs.Codes;

use crate::coding::encode;
use crate::decoding::decode;
use crate::rows::row_coder::RowCoder;
use coder::{Coder, Misfit, Sizes, Undecoded};

// Stays beside the impl for ReedSolomon: `impl<C: Checks> Coder for C` would be one, but no impl of another crate's trait may stand for every type.
impl Coder for RowCoder {
    ghost code = { λ s. code_of s };

    ghost sound = { λ s. Codes.sound_by_sizes octets octet_laws refl s.plain.sizes.frame s.plain.check s.plain.sizes.word s.plain.sizes.lengths s.plain.word };

    fn sizes(&self) -> Sizes {
        self.plain.sizes
    }

    fn encode(&self, message: &[u8], word: &mut [u8]) -> Result<(), Misfit> {
        encode(self, message, word)
    }

    fn decode(&self, received: &[u8], message: &mut [u8]) -> Result<usize, Undecoded> {
        decode(self, received, message)
    }
}
