// The fields of a line, with single spaces between them.
use crate::fault::Fault;
use crate::hex::read_octets;
use std::alloc::Global;

#[derive(Drop)]
pub struct Fields<'a> {
    // what is read is kept there
    pub heap: Global,
    // what is not read yet; none behind the last field
    rest: Option<&'a str>,
}

impl<'a> Fields<'a> {
    pub fn new(heap: Global, line: &'a str) -> Fields<'a> {
        Fields {
            heap,
            rest: Some(line),
        }
    }

    pub fn text(&mut self) -> Result<&'a str, Fault> {
        let rest = self.remainder()?;
        let Some((field, behind)) = rest.split_once(' ') else {
            return Ok(rest);
        };
        self.rest = Some(behind);
        Ok(field)
    }

    // A decimal number that 16 bits hold, so that it can be a buffer's length, and that the type asked for holds.
    pub fn number<N: TryFrom<u16>>(&mut self) -> Result<N, Fault>
    where
        N::Error: Drop,
    {
        let field = self.text()?;
        if field.starts_with('+') {
            return Err(Fault::Malformed);
        }
        let number = field.parse::<u16>().map_err(|_| Fault::Malformed)?;
        N::try_from(number).map_err(|_| Fault::Malformed)
    }

    pub fn octets(&mut self) -> Result<Vec<u8>, Fault> {
        read_octets(self.heap, self.text()?)
    }

    // All that is left, with its spaces.
    pub fn remainder(&mut self) -> Result<&'a str, Fault> {
        self.rest.take().ok_or(Fault::Malformed)
    }

    // Nothing may be left.
    pub fn end(&self) -> Result<(), Fault> {
        match self.rest {
            None => Ok(()),
            Some(_) => Err(Fault::Malformed),
        }
    }
}
