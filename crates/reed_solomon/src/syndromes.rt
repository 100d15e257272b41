// Syndromes: the values of a polynomial at the powers of alpha.
ghost use Rattle.std.specs.Prelude.{◌≡◌, ℕ, ◌<◌, ◌≤◌, length, slice_index};
ghost use Rattle.field.specs.Field.{power};
ghost use Rattle.field.specs.Polynomials.{value_at};
ghost use Rattle.rs_algebra.specs.Polynomials.{Elements};

use field::{Field, value_at};

// As many syndromes of a word, or of its check difference, as there is room for.
pub(crate) fn syndromes<F: Field>(octets: &[u8], out: &mut [u8])
    requires { length out.old ≤ 256 }
    ensures values { (j : ℕ) → j < length out.new → slice_index out.new j ≡ value_at F.Field.field octets.now (power F.Field.field j) }
    ensures elements { Elements F.Field.field out.new }
{
    for (j, syndrome) in out.iter_mut().enumerate() {
        *syndrome = value_at::<F>(octets, F::power(j as u8));
    }
}
