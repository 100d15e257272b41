// A receiver while it fills: what it hands to the delay line gives no word yet.
ghost use Rattle.link.specs.Receivers.{Opens, Fills, Starts};

use crate::fitting::{memory_fits, turn_taken};
use crate::gathering::{memory_length, next_word};
use crate::given_back::GivenBack;
use crate::receiver::{Filling, Running};
use crate::refused::Refused;
use coder::Arrival;
use scrambler::Earlier;
use setting::Setting;

impl Filling {
    // Opens a receiver and clears its memory.
    pub fn open(setting: Setting, memory: &mut [Arrival]) -> Result<Filling, Refused>
        ensures { Opens setting memory.old memory.new result }
    {
        memory_fits(memory, memory_length(&setting))?;
        memory.fill(Arrival::Octet(0));
        Ok(Filling { setting, filled: 0 })
    }

    // Takes the arrivals of a word's length that come before the first word is complete. What leaves the delay line is let
    // go, but for the first arrivals of the word after the last fill.
    pub fn fill(&mut self, memory: &mut [Arrival], line: &[Arrival]) -> Result<(), Refused>
        ensures { Fills self.old self.new memory.old memory.new line.now result }
    {
        let room = memory_length(&self.setting);
        turn_taken(&self.setting, self.filled, line, memory, room)?;
        next_word(&self.setting, self.filled, memory, line);
        self.filled += 1;
        Ok(())
    }

    // After the last fill the receiver runs.
    pub fn start(self) -> Result<Running, GivenBack<Filling>>
        ensures { Starts self result }
    {
        if self.filled < self.setting.lag {
            return Err(GivenBack::out_of_turn(self));
        }
        Ok(Running {
            setting: self.setting,
            earlier: Some(Earlier::ones()),
            words: 0,
        })
    }
}
