// A buffer or memory that a host lent and that has another length than it must have. docs/refusals.md has the list.
ghost use Rattle.std.specs.Prelude.{◌≡◌};
ghost use Rattle.coder.specs.Misfits.{misfit_number};

#[derive(Clone, Copy, PartialEq, Eq, Debug)]
pub enum Misfit {
    // the frame or message buffer is not K octets
    Frame = 5,
    // the line, block or word buffer is not as long as it must be
    Line = 6,
    // the delay memory is not of its stated size
    Memory = 7,
}

impl Misfit {
    pub fn number(self) -> u8
        ensures { result ≡ misfit_number self }
    {
        self as u8
    }
}
