// Octets as pairs of lower-case hexadecimal digits run together; no octets at all as a dash.
use crate::fault::Fault;
use std::alloc::Global;
use std::fmt;

const NO_OCTETS: &str = "-";

// Stays by ranges: `to_digit(16)` takes capitals too.
fn digit(character: u8) -> Result<u8, Fault> {
    match character {
        b'0'..=b'9' => Ok(character - b'0'),
        b'a'..=b'f' => Ok(character - b'a' + 10),
        _ => Err(Fault::Malformed),
    }
}

fn octet(pair: &[u8]) -> Result<u8, Fault> {
    let [high, low] = pair else {
        return Err(Fault::Malformed);
    };
    Ok(digit(*high)? << 4 | digit(*low)?)
}

pub fn read_octets(heap: Global, text: &str) -> Result<Vec<u8>, Fault> {
    match text {
        NO_OCTETS => Ok(Vec::new(heap)),
        "" => Err(Fault::Malformed),
        _ => text.as_bytes().chunks(2).map(octet).try_collect(heap),
    }
}

// Octets to be printed.
#[derive(Drop)]
pub struct Hex<'a>(pub &'a [u8]);

impl fmt::Display for Hex<'_> {
    fn fmt<W: fmt::Write>(&self, f: &mut fmt::Formatter<W>) -> fmt::Result {
        if self.0.is_empty() {
            return f.write_str(NO_OCTETS);
        }
        for octet in self.0 {
            write!(f, "{octet:02x}")?;
        }
        Ok(())
    }
}
