// Which coders with rows there are.
ghost use Rattle.std.specs.Prelude.{◌≡◌};
ghost use Rattle.field.specs.Binary.{octets};
ghost use Rattle.reed_solomon.specs.Constructed.{sizes_over};
ghost use Rattle.reed_solomon.specs.RowCoders.{told_rows, MadeRows};

use crate::reed_solomon::ReedSolomon;
use crate::rows::filling::all_rows;
use crate::rows::row_coder::RowCoder;
use coder::Refusal;
use field::Table;

impl RowCoder {
    // A coder with `check` check octets behind each message of `frame` octets.
    pub fn new(frame: usize, check: usize) -> Result<Self, Refusal>
        ensures sizes { told_rows result ≡ sizes_over octets frame check }
        ensures words { MadeRows frame check result }
    {
        let plain = ReedSolomon::<Table>::new(frame, check)?;
        let rows = all_rows(plain.check);
        Ok(RowCoder { plain, rows })
    }
}
