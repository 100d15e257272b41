// A receiver after its start: each receive completes a word.
ghost use Rattle.std.specs.Prelude.{◌≡◌, ◌+◌, ◌<◌, ◌≤◌, length};
ghost use Rattle.link.specs.Reading.{Accepts, Takes};
ghost use Rattle.link.specs.Receivers.{Receives};

use crate::fitting::{memory_fits, word_taken};
use crate::gathering::{memory_length, next_word};
use crate::loss::{Cause, Loss, Unreceived};
use crate::reading::read_word;
use crate::receiver::Running;
use coder::{Arrival, Coder};

impl Running {
    // Reads the word that the arrivals complete. Lost or not, it counts.
    // Stays with the four that `receive` is lent: a struct of them would be made there and taken apart here, and nowhere else.
    fn receive_word<C: Coder>(
        &mut self,
        coder: &C,
        memory: &mut [Arrival],
        line: &[Arrival],
        frame: &mut [u8],
    ) -> Result<usize, Cause>
        requires { Accepts (C.Coder.code coder.now) self.old memory.old line.now frame.old }
        ensures takes { Takes (C.Coder.code coder.now) self.old self.new memory.old memory.new line.now frame.old frame.new result }
        ensures setting { self.new.setting ≡ self.old.setting }
    {
        let calls = self.setting.lag + self.words;
        let room = next_word(&self.setting, calls, memory, line);
        self.words += 1;
        read_word(coder, &mut self.earlier, &room[..line.len()], frame)
    }

    // Takes the arrivals of a word's length, and hands out the frame of the word that they complete and how many of its octets were repaired.
    pub fn receive<C: Coder>(
        &mut self,
        coder: &C,
        memory: &mut [Arrival],
        line: &[Arrival],
        frame: &mut [u8],
    ) -> Result<usize, Unreceived>
        ensures { Receives (C.Coder.code coder.now) self.old self.new memory.old memory.new line.now frame.old frame.new result }
    {
        word_taken(&self.setting, coder, self.words, frame, line)?;
        memory_fits(memory, memory_length(&self.setting))?;
        let word = self.words;
        self.receive_word(coder, memory, line, frame)
            .map_err(|cause| Unreceived::Lost(Loss { cause, word }))
    }

    // Ends the receiver. What waits in its memory is let go.
    pub fn close(self) {}
}
