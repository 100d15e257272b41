// What a coder is to the code above it. A coder is only lent, so its sizes and words never change.
ghost use Rattle.std.specs.Prelude.{◌≡◌};
ghost use Rattle.coder.specs.Sizes.{parameters};
ghost use Rattle.coder.specs.Codes.{Code, Sound, fitting, encoded, Decoded};

use crate::misfit::Misfit;
use crate::sizes::Sizes;
use crate::undecoded::Undecoded;

pub trait Coder: Sized {
    ghost code: { Self → Code };

    fn sizes(&self) -> Sizes
        ensures { parameters result ≡ (code self.now).sizes };

    // Writes the word of a message.
    fn encode(&self, message: &[u8], word: &mut [u8]) -> Result<(), Misfit>
        ensures answer { result ≡ fitting (code self.now) message.now word.old }
        ensures word { word.new ≡ encoded (code self.now) message.now word.old };

    // Writes the message whose word differs from the received one in at most t places, and answers in how many.
    fn decode(&self, received: &[u8], message: &mut [u8]) -> Result<usize, Undecoded>
        ensures { Decoded (code self.now) received.now message.old message.new result };

    ghost sound: { (s : Self) → Sound (code s) };
}
