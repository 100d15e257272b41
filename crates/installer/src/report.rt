// What is said of an accepted setting.
ghost use Rattle.std.specs.Prelude.{Ok, Some};
ghost use Rattle.installer.specs.Answers.{text};

use std::fmt;

#[derive(Clone, Copy, PartialEq, Eq, Debug)]
pub struct Report {
    // N, the octets of a word
    pub word: usize,
    // q, the blocks of a word
    pub parts: usize,
    // w, the words from one end to the other
    pub lag: usize,
    // B, the longest burst that every word rides out
    pub burst: usize,
    // Z, the line places from a word's first octet to its last
    pub reach: usize,
    // P, the elements of delay memory at each end
    pub memory: usize,
}

// N, q, w, B, Z and P with single spaces.
impl fmt::Display for Report {
    ghost output = { λ report. Some (text (Ok report)) };

    fn fmt<W: fmt::Write>(&self, f: &mut fmt::Formatter<W>) -> fmt::Result {
        let Report {
            word,
            parts,
            lag,
            burst,
            reach,
            memory,
        } = self;
        write!(f, "{word} {parts} {lag} {burst} {reach} {memory}")
    }
}
