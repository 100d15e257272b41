// The three copies of a message in a word.
ghost use Rattle.std.specs.Prelude.{◌≡◌, ◌*◌, ◌≤◌, length};
ghost use Rattle.threefold.specs.Threefold.{thrice};
ghost use Rattle.threefold.specs.Votes.{Judged, majority_of, odd_of, odds_of, voted, whole};

use super::{Thirds, Threefold};

#[tactic(auto, using(crate::proofs::Copies::three_copies))]
pub(super) fn write_thrice(message: &[u8], word: &mut [u8])
    requires { length word.old ≡ 3 * length message.now }
    ensures { word.new ≡ thrice message.now }
{
    let frame = message.len();
    word[0..frame].copy_from_slice(message);
    word[frame..2 * frame].copy_from_slice(message);
    word[2 * frame..3 * frame].copy_from_slice(message);
}

// The octet that two of three are. Where all differ it is the first: any other is at least as far from the three.
fn majority(a: u8, b: u8, c: u8) -> u8
    ensures { result ≡ majority_of a b c }
{
    if b == c { b } else { a }
}

// How many of three octets are not their majority.
fn odd(a: u8, b: u8, c: u8) -> usize
    ensures { result ≡ odd_of a b c }
{
    let octet = majority(a, b, c);
    usize::from(a != octet) + usize::from(b != octet) + usize::from(c != octet)
}

// And of three copies of a message, which are of one length.
fn odds(first: &[u8], second: &[u8], third: &[u8]) -> usize
    requires lengths { (length second.now ≡ length first.now) × (length third.now ≡ length first.now) }
    requires short { length first.now ≤ 255 }
    ensures { result ≡ odds_of first.now second.now third.now }
{
    // Stays by place: through `zip` of the three it was half as much again for the processor.
    let mut odds = 0;
    for (place, octet) in first.iter().enumerate() {
        odds += odd(*octet, second[place], third[place]);
    }
    odds
}

impl<'a> Thirds<'a> {
    pub(super) fn of(coder: Threefold, received: &'a [u8]) -> Thirds<'a>
        requires { length received.now ≡ coder.sizes.word }
        ensures coder { result.coder ≡ coder }
        ensures whole { whole result ≡ received.now }
    {
        let (first, rest) = received.split_at(coder.sizes.frame);
        let (second, third) = rest.split_at(coder.sizes.frame);
        Thirds {
            coder,
            first,
            second,
            third,
        }
    }

    // How many received octets differ from the word of the voted message, to which no message's word is nearer.
    #[tactic(auto, using(crate::proofs::Nearest::odds_few, crate::proofs::Nearest::judged))]
    pub(super) fn faults(&self) -> usize
        ensures { Judged self.now.coder (whole self.now) result }
    {
        odds(self.first, self.second, self.third)
    }

    // Stays by place: of what is written through a `zip` with `iter_mut` a proof knows the length alone.
    pub(super) fn write_voted(&self, message: &mut [u8])
        requires { length message.old ≡ self.now.coder.sizes.frame }
        ensures { message.new ≡ voted self.now.coder.sizes.frame (whole self.now) }
    {
        for (place, octet) in message.iter_mut().enumerate() {
            *octet = majority(self.first[place], self.second[place], self.third[place]);
        }
    }
}
