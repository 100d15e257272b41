// The elimination: each equation costs one vector. An equation is the syndromes from its number on.
ghost use Rattle.std.specs.Prelude.{◌≡◌, ℕ, ◌+◌, ◌<◌, ◌≤◌, length, slice_set, take};
ghost use Rattle.rs_algebra.specs.Polynomials.{weighed, zeros};
ghost use Rattle.reed_solomon.specs.Locating.{FirstOff, Solve, cleared, front, held, vector};

use crate::bounds::MOST_UNKNOWNS;
use crate::linear::{add_multiple, weighed_sum};
use crate::locator::vectors::Vectors;
use field::Field;
use std::array;

// The unit vector of a place.
fn unit(place: usize) -> [u8; MOST_UNKNOWNS]
    requires { place < 9 }
    ensures { result ≡ slice_set (zeros 9) place 1 }
{
    let mut vector = [0; MOST_UNKNOWNS];
    vector[place] = 1;
    vector
}

// Adds to the front of a row so much of the pivot that it meets the equation; `inverse` is that of what the equation gives at the pivot.
fn clear<F: Field>(row: &mut [u8], pivot: &[u8], inverse: u8, equation: &[u8])
    requires long { length pivot.now ≤ length row.old }
    requires inverse { inverse ≡ F.Field.field.inverse (weighed F.Field.field pivot.now (held equation.now) 0) }
    ensures { take (length pivot.now) row.new ≡ cleared F.Field.field (held equation.now) 0 pivot.now (take (length pivot.now) row.old) }
{
    let front = &mut row[..pivot.len()];
    let factor = F::times(weighed_sum::<F>(front, equation), inverse);
    add_multiple::<F>(front, factor, pivot);
}

// The same for each row.
fn eliminate<F: Field>(rows: &mut [[u8; MOST_UNKNOWNS]], pivot: &[u8], equation: &[u8])
    requires narrow { length pivot.now ≤ 9 }
    ensures { (k : ℕ) → k < length rows.old → front (length pivot.now) rows.new k ≡ cleared F.Field.field (held equation.now) 0 pivot.now (front (length pivot.now) rows.old k) }
{
    let inverse = F::inverse(weighed_sum::<F>(pivot, equation));
    for row in rows.iter_mut() {
        clear::<F>(row, pivot, inverse, equation);
    }
}

impl Vectors {
    // The unit vectors.
    pub(crate) fn units(width: usize) -> Vectors
        requires { width ≤ 9 }
        ensures width { result.width ≡ width }
        ensures kept { result.kept ≡ width }
        ensures units { (i : ℕ) → i < width → vector result i ≡ slice_set (zeros width) i 1 }
    {
        Vectors {
            rows: array::from_fn(unit),
            width,
            kept: width,
        }
    }

    // The first vector that does not meet the equation.
    fn pivot<F: Field>(&self, equation: &[u8]) -> Option<usize>
        ensures { FirstOff F.Field.field (held equation.now) 0 self.now result }
    {
        self.rows[..self.kept]
            .iter()
            .position(|row| weighed_sum::<F>(&row[..self.width], equation) != 0)
    }

    // Leaves one vector fewer, all of which meet the equation of this number too.
    pub(crate) fn meet<F: Field>(&mut self, syndromes: &[u8], number: usize)
        requires some { 0 < self.old.kept }
        requires inside { number ≤ length syndromes.now }
        requires met { Solve F.Field.field (held syndromes.now) number self.old }
        ensures width { self.new.width ≡ self.old.width }
        ensures kept { self.new.kept + 1 ≡ self.old.kept }
        ensures met { Solve F.Field.field (held syndromes.now) (number + 1) self.new }
    {
        let equation = &syndromes[number..];
        let found = self.pivot::<F>(equation);
        self.kept -= 1;
        let Some(p) = found else {
            return;
        };
        let last = self.kept;
        let pivot = self.rows[p];
        self.rows[p] = self.rows[last];
        eliminate::<F>(&mut self.rows[p..last], &pivot[..self.width], equation);
    }

    // Copies the first vector out.
    pub(crate) fn copy_first(&self, to: &mut [u8])
        requires { length to.old ≡ self.now.width }
        ensures { to.new ≡ vector self.now 0 }
    {
        to.copy_from_slice(&self.rows[0][..self.width]);
    }
}
