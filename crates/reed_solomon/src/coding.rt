// Words of messages.
ghost use Rattle.std.specs.Prelude.{◌≡◌, ◌+◌, length};
ghost use Rattle.coder.specs.Codes.{fitting, encoded};
ghost use Rattle.rs_algebra.specs.Words.{word_of};
ghost use Rattle.reed_solomon.specs.Constructed.{code_over};

use crate::checks::Checks;
use coder::Misfit;

// Writes the message and behind it its check octets.
fn write_word<C: Checks>(coder: &C, message: &[u8], word: &mut [u8])
    requires { length word.old ≡ length message.now + (C.numbers coder.now).check }
    ensures { word.new ≡ word_of C.Over.Field.field (C.numbers coder.now).check message.now }
{
    word[..message.len()].copy_from_slice(message);
    coder.check_octets(message, &mut word[message.len()..]);
}

// The same where the buffers are as long as the coder's messages and words.
pub(crate) fn encode<C: Checks>(coder: &C, message: &[u8], word: &mut [u8]) -> Result<(), Misfit>
    ensures answer { result ≡ fitting (code_over C.Over.Field.field (C.numbers coder.now)) message.now word.old }
    ensures word { word.new ≡ encoded (code_over C.Over.Field.field (C.numbers coder.now)) message.now word.old }
{
    coder.numbers().sizes.fits(message, word)?;
    write_word(coder, message, word);
    Ok(())
}
