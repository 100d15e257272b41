// What a call of a coder answered, or what a test case says that it answers.
use crate::hex::Hex;
use std::fmt;

pub type Answer = Result<Given, Refused>;

#[derive(PartialEq, Eq, Drop)]
pub struct Given {
    // how many octets were repaired, if it was a decoding
    pub repaired: Option<usize>,
    // the word of a message, or the message of a word
    pub octets: Vec<u8>,
}

// A refusal or a loss.
// Stays a number: a test case may say one that no refusal has, and such a line disagrees and is not malformed.
#[derive(Clone, Copy, PartialEq, Eq)]
pub enum Refused {
    Number(u8),
    // with a buffer written, which must stay as it was
    Written(u8),
}

impl fmt::Display for Given {
    fn fmt<W: fmt::Write>(&self, f: &mut fmt::Formatter<W>) -> fmt::Result {
        if let Some(octets) = self.repaired {
            write!(f, "repaired {octets} ")?;
        }
        let octets = Hex(self.octets.as_slice());
        write!(f, "{octets}")
    }
}

impl fmt::Display for Refused {
    fn fmt<W: fmt::Write>(&self, f: &mut fmt::Formatter<W>) -> fmt::Result {
        match self {
            Refused::Number(number) => write!(f, "number {number}"),
            Refused::Written(number) => write!(f, "number {number}, and wrote"),
        }
    }
}
