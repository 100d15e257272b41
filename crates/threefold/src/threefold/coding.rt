// Words of messages, and messages of received words.
ghost use Rattle.threefold.specs.Threefold.{threefold_code};
ghost use Rattle.threefold.specs.Soundness.{threefold_sound};

use super::copies::write_thrice;
use super::{Thirds, Threefold};
use coder::{Coder, Misfit, Sizes, Undecoded};

impl Coder for Threefold {
    ghost code = { threefold_code };

    ghost sound = { threefold_sound };

    fn sizes(&self) -> Sizes {
        self.sizes
    }

    fn encode(&self, message: &[u8], word: &mut [u8]) -> Result<(), Misfit> {
        self.sizes.fits(message, word)?;
        write_thrice(message, word);
        Ok(())
    }

    fn decode(&self, received: &[u8], message: &mut [u8]) -> Result<usize, Undecoded> {
        self.sizes.fits(message, received)?;
        let copies = Thirds::of(*self, received);
        let faults = copies.faults();
        if faults > self.sizes.repairs {
            return Err(Undecoded::Lost);
        }
        copies.write_voted(message);
        Ok(faults)
    }
}
