// The sizes of a coder. A value of this type exists only with numbers that some coder can have.
ghost use Rattle.std.specs.Prelude.{◌+◌, ◌*◌, ◌≤◌};

pub const LONGEST_WORD: usize = 255;

// The most check octets of a Reed-Solomon word.
pub const MOST_CHECK: usize = 16;

#[derive(Clone, Copy, PartialEq, Eq, Debug)]
pub struct Sizes {
    // K, the octets of a frame
    pub frame: usize,
    // N, the octets of a word
    pub word: usize,
    // t, the octets of a word that can be repaired
    pub repairs: usize,
    ghost lengths: { (3 ≤ frame) × (frame ≤ word) × (word ≤ 255) },
    ghost distance: { 2 * repairs + 1 ≤ word },
}
