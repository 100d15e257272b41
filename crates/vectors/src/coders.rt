// The coders that a line can name, each in all its makes.
use crate::answer::Answer;
use crate::question::Question;
use coder::Kind;
use field::{Shifting, Table};
use reed_solomon::{ReedSolomon, RowCoder};
use std::alloc::{AllocError, Global};
use threefold::Threefold;

// The coder that a line names.
#[derive(Clone, Copy)]
pub struct Named {
    pub kind: Kind,
    // K and R
    pub frame: usize,
    pub check: usize,
}

impl Named {
    // An answer other than the one said, if a make of the coder gives one. The makes after that one are not asked.
    pub fn other_answer(
        self,
        heap: Global,
        question: &Question,
        said: &Answer,
    ) -> Result<Option<Answer>, AllocError> {
        let (frame, check) = (self.frame, self.check);
        match self.kind {
            Kind::ReedSolomon => {
                let table = ReedSolomon::<Table>::new(frame, check);
                let mut other = question.other_answer(heap, table, said)?;
                if other.is_none() {
                    let shifting = ReedSolomon::<Shifting>::new(frame, check);
                    other = question.other_answer(heap, shifting, said)?;
                }
                if other.is_none() {
                    other = question.other_answer(heap, RowCoder::new(frame, check), said)?;
                }
                Ok(other)
            }
            Kind::Threefold => question.other_answer(heap, Threefold::new(frame, check), said),
        }
    }
}
