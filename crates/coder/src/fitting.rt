// Whether the buffers that a coder is lent are as long as its messages and words.
ghost use Rattle.std.specs.Prelude.{◌≡◌};
ghost use Rattle.coder.specs.Codes.{of_sizes};
ghost use Rattle.coder.specs.Sizes.{parameters};

use crate::misfit::Misfit;
use crate::sizes::Sizes;

impl Sizes {
    // The message is asked about first.
    pub fn fits(&self, message: &[u8], word: &[u8]) -> Result<(), Misfit>
        ensures { result ≡ of_sizes (parameters self.now) message.now word.now }
    {
        if message.len() != self.frame {
            return Err(Misfit::Frame);
        }
        if word.len() != self.word {
            return Err(Misfit::Line);
        }
        Ok(())
    }
}
