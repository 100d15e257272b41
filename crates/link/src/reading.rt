// A gathered word, decoded.
ghost use Rattle.std.specs.Prelude.{◌≡◌, ◌≤◌, map, length, take};
ghost use Rattle.coder.specs.Arrivals.{value_of};
ghost use Rattle.runs.specs.Receivers.{marks_in};
ghost use Rattle.link.specs.Reading.{Frames, Messages, descrambling};
ghost use Rattle.link.specs.Workers.{FitsCoder};

use crate::loss::Cause;
use coder::sizes::LONGEST_WORD;
use coder::{Arrival, Coder};
use scrambler::Earlier;

// The octets of a word, with zeros after them; a lost one is 00.
fn values(word: &[Arrival]) -> [u8; LONGEST_WORD]
    requires { length word.now ≤ 255 }
    ensures { take (length word.now) result ≡ map value_of word.now }
{
    // Stays a room of fixed length: nothing here allocates, and no crate is used but std.
    let mut octets = [0; LONGEST_WORD];
    // Stays by place: of what is written through a `zip` with `iter_mut` a proof knows the length alone; `array::from_fn` was tried, and what its closure gives stayed open.
    for (place, arrival) in word.iter().enumerate() {
        octets[place] = arrival.value();
    }
    octets
}

// How many arrivals of a word are marked lost.
#[tactic(auto, using(crate::proofs::Marks::marks_counted))]
fn marks(word: &[Arrival]) -> usize
    ensures { result ≡ marks_in word.now }
{
    word.iter()
        .filter(|arrival| **arrival == Arrival::Lost)
        .count()
}

// The message whose word is near. The lengths fit, so a coder that gives none has lost the word.
fn message_of<C: Coder>(coder: &C, word: &[Arrival], message: &mut [u8]) -> Result<usize, Cause>
    requires { FitsCoder (C.Coder.code coder.now) message.old word.now }
    ensures { Messages (C.Coder.code coder.now) word.now message.new result }
{
    let octets = values(word);
    let decoded = coder.decode(&octets[..word.len()], message);
    decoded.map_err(|_| Cause::Coder(marks(word)))
}

// The frame of a word. Where there are no earlier bits, since the coder lost the word before, the message only renews them.
pub(crate) fn read_word<C: Coder>(
    coder: &C,
    earlier: &mut Option<Earlier>,
    word: &[Arrival],
    frame: &mut [u8],
) -> Result<usize, Cause>
    requires { FitsCoder (C.Coder.code coder.now) frame.old word.now }
    ensures { Frames (C.Coder.code coder.now) (descrambling earlier.old) (descrambling earlier.new) word.now frame.old frame.new result }
{
    // Stays a room of fixed length: nothing here allocates, and no crate is used but std.
    let mut room = [0; LONGEST_WORD];
    let message = &mut room[..frame.len()];
    let before = earlier.take();
    let repaired = message_of(coder, word, message)?;
    let mut bits = before.unwrap_or(Earlier::ones());
    bits.descramble(message);
    *earlier = Some(bits);
    if before.is_none() {
        return Err(Cause::Scrambler);
    }
    frame.copy_from_slice(message);
    Ok(repaired)
}
