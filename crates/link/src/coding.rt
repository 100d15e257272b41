// A frame becomes a word: it is scrambled, then coded.
ghost use Rattle.link.specs.Workers.{Coded, FitsCoder};
ghost use Rattle.scrambler.specs.States.{earlier_bits};

use coder::Coder;
use coder::sizes::LONGEST_WORD;
use scrambler::Earlier;

// Writes the word into the line buffer.
// Stays with the clause `FitsCoder`, as in reading.rt: the buffers are the host's, and lent to one call.
pub(crate) fn encode_frame<C: Coder>(
    coder: &C,
    earlier: &mut Earlier,
    frame: &[u8],
    line: &mut [u8],
)
    requires { FitsCoder (C.Coder.code coder.now) frame.now line.old }
    ensures { Coded (C.Coder.code coder.now) (earlier_bits earlier.old) (earlier_bits earlier.new) frame.now line.new }
{
    // Stays a room of fixed length: nothing here allocates, and no crate is used but std.
    let mut room = [0; LONGEST_WORD];
    let message = &mut room[..frame.len()];
    message.copy_from_slice(frame);
    earlier.scramble(message);
    coder.encode(message, line).unwrap();
}
