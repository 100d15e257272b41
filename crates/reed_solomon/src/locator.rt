// The locator polynomial of an error: t equations in t + 1 unknowns, by elimination.
ghost use Rattle.std.specs.Prelude.{◌+◌, ◌*◌, ◌≤◌, length};
ghost use Rattle.reed_solomon.specs.Locating.{Locating, held};

use crate::locator::vectors::Vectors;
use field::Field;

mod elimination;
#[cfg(test)]
mod tests;
mod vectors;

// Writes t + 1 coefficients, lowest power first, not all of them 0, that meet the first t equations of the syndromes.
pub(crate) fn locator<F: Field>(syndromes: &[u8], locator: &mut [u8])
    requires some { 1 ≤ length locator.old }
    requires most { length locator.old ≤ 9 }
    requires enough { 2 * length locator.old ≤ length syndromes.now + 2 }
    ensures { Locating F.Field.field (held syndromes.now) locator.new }
{
    let mut vectors = Vectors::units(locator.len());
    // Stays by number: an equation is the syndromes from its number on, and `windows` would give too many where there are more syndromes.
    for equation in 0..locator.len() - 1 {
        vectors.meet::<F>(syndromes, equation);
    }
    vectors.copy_first(locator);
}
