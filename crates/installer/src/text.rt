// An answer as text.
ghost use Rattle.std.specs.Prelude.{◌≡◌, IfOk, string_bytes};
ghost use Rattle.installer.specs.Answers.{Printed};

use crate::answer::answer;
use std::alloc::{AllocError, Global};

// The answer to a list of octets, without a line feed.
pub fn line(heap: Global, octets: &[u8]) -> Result<String, AllocError>
    ensures { IfOk result (λ s. Printed octets.now (string_bytes s)) }
{
    match answer(octets) {
        Ok(report) => format!(in heap; "{report}"),
        Err(refusal) => format!(in heap; "refused {refusal}"),
    }
}
