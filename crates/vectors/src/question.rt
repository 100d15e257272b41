// Questions to the coders, and their answers.
use crate::answer::{Answer, Given, Refused};
use coder::{Coder, Misfit, Refusal, Undecoded};
use std::alloc::{AllocError, Global};

// What a buffer holds before a call.
const FILLING: u8 = 0xa5;

// Stays an enum: a closure in its place would have to be generic in the coder that it calls, and no closure can be.
#[derive(Clone, Copy)]
pub enum Call {
    Encode,
    Decode,
}

#[derive(Drop)]
pub struct Question {
    pub call: Call,
    // a message, or a received word
    pub octets: Vec<u8>,
    // the length of the buffer that the call writes
    pub length: usize,
}

impl Question {
    // Makes the call. A decoding gives how many octets were repaired, a refusal or a loss its number.
    fn put<C: Coder>(&self, coder: &C, buffer: &mut [u8]) -> Result<Option<usize>, u8> {
        let octets = self.octets.as_slice();
        match self.call {
            Call::Encode => coder
                .encode(octets, buffer)
                .map(|()| None)
                .map_err(Misfit::number),
            Call::Decode => coder
                .decode(octets, buffer)
                .map(Some)
                .map_err(Undecoded::number),
        }
    }

    // The answer of a coder, if there is one: a coder that does not exist is lent no buffer. A refusal or a loss must leave
    // the buffer as it was.
    fn answer<C: Coder + Drop>(
        &self,
        heap: Global,
        coder: Result<C, Refusal>,
    ) -> Result<Answer, AllocError> {
        let coder = match coder {
            Ok(coder) => coder,
            Err(refusal) => return Ok(Err(Refused::Number(refusal.number()))),
        };
        let mut octets = vec![in heap; FILLING; self.length]?;
        Ok(match self.put(&coder, octets.as_mut_slice()) {
            Ok(repaired) => Ok(Given { repaired, octets }),
            Err(number) if octets.iter().all(|octet| *octet == FILLING) => {
                Err(Refused::Number(number))
            }
            Err(number) => Err(Refused::Written(number)),
        })
    }

    // The answer of a coder, if it is another than the one said.
    pub fn other_answer<C: Coder + Drop>(
        &self,
        heap: Global,
        coder: Result<C, Refusal>,
        said: &Answer,
    ) -> Result<Option<Answer>, AllocError> {
        let answer = self.answer(heap, coder)?;
        Ok((answer != *said).then_some(answer))
    }
}
