// What computes the check octets of messages for a coder: a register over its field, or a table of rows.
ghost use Rattle.std.specs.Prelude.{◌≡◌, length};
ghost use Rattle.rs_algebra.specs.Words.{check_of};
ghost use Rattle.reed_solomon.specs.declared.reed_solomon.ReedSolomon.{ReedSolomon as Numbers};

use crate::reed_solomon::ReedSolomon;
use crate::register::remainder;
use field::Field;

pub(crate) trait Checks: Sized {
    type Over: Field;

    ghost numbers: { Self → Numbers Self.Over };

    // The coder's numbers.
    fn numbers(&self) -> &ReedSolomon<Self::Over>
        ensures { result.now ≡ numbers self.now };

    // Writes the check octets of a message.
    fn check_octets(&self, message: &[u8], out: &mut [u8])
        requires { length out.old ≡ (numbers self.now).check }
        ensures { out.new ≡ check_of Self.Over.field (length out.old) message.now };
}

impl<F: Field> Checks for ReedSolomon<F> {
    type Over = F;

    ghost numbers = { λ s. s };

    fn numbers(&self) -> &ReedSolomon<F> {
        self
    }

    fn check_octets(&self, message: &[u8], out: &mut [u8]) {
        remainder::<F>(message, out);
    }
}
