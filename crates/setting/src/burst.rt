// Where a word's octets stand on the line, and how long a burst a word rides out.
ghost use Rattle.std.specs.Prelude.{◌≡◌, ℕ, ◌<◌, Decides};
ghost use Rattle.places.specs.Line.{place, Lies};
ghost use Rattle.places.specs.Limit.{Longest, BurstLimit, Sharp};
ghost use Rattle.setting.specs.Answers.{Placed};
ghost use Rattle.setting.specs.Settings.{plan};

use crate::setting::Setting;
use coder::sizes::LONGEST_WORD;

impl Setting {
    // The line place of an octet of word 0.
    #[tactic(auto, using(crate::proofs::Facts::placing))]
    fn place_of(&self, octet: usize) -> usize
        requires { octet < self.now.sizes.word }
        ensures value { result ≡ place (plan self.now) 0 octet }
        ensures bound { result < self.now.reach }
        ensures lies { Lies (plan self.now) }
    {
        let branch = octet % self.block;
        (octet / self.block + self.step * branch) * self.block + branch
    }

    // The line place of an octet of word 0, where a word has such an octet. Word c lies c×N places further on.
    pub fn line_place(&self, octet: usize) -> Option<usize>
        ensures { Placed (plan self.now) octet result }
    {
        (octet < self.sizes.word).then(|| self.place_of(octet))
    }

    // Whether an octet of word 0 stands at a line place.
    #[tactic(auto, using(crate::proofs::Facts::standing))]
    fn stands_at(&self, at: usize) -> bool
        ensures { Decides result ((n : ℕ) × (n < self.now.sizes.word) × (place (plan self.now) 0 n ≡ at)) }
    {
        let branch = at % self.block;
        let row = at / self.block;
        let first = self.step * branch;
        first <= row && row < first + self.parts
    }

    // Stays apart from `burst_limit`: the search is proved for any threshold.
    // The longest stretch of the line that never holds more than `most` octets of one word. Stretches that begin
    // with an octet of word 0 are looked at, and of each how many octets it holds is counted along.
    fn longest(&self, most: usize) -> usize
        requires { most < self.now.sizes.word }
        ensures longest { Longest (plan self.now) most result }
        ensures sharp { Sharp (plan self.now) most result }
    {
        // Stays a room of fixed length: nothing here allocates, and no crate is used but std.
        let mut counts = [0usize; LONGEST_WORD];
        let counts = &mut counts[..self.sizes.word];
        let mut longest = 0;
        'search: for length in 0..self.reach {
            for (octet, held) in counts.iter_mut().enumerate() {
                if self.stands_at(self.place_of(octet) + length) {
                    *held += 1;
                    if *held > most {
                        break 'search;
                    }
                }
            }
            longest = length + 1;
        }
        longest
    }

    // B: no burst of this length spoils more octets of a word than can be repaired, and each word has a stretch one place
    // longer that holds more.
    pub fn burst_limit(&self) -> usize
        ensures limit { BurstLimit (plan self.now) result }
        ensures sharp { Sharp (plan self.now) self.now.sizes.repairs result }
    {
        self.longest(self.sizes.repairs)
    }
}
