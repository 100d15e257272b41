// A Reed-Solomon coder over octets that holds its products. A value of this type exists only with the rows that belong to its numbers.
ghost use Rattle.reed_solomon.specs.Rows.{RowsOf};

use crate::reed_solomon::ReedSolomon;
use field::Table;

#[derive(Drop)]
pub struct RowCoder {
    pub(crate) plain: ReedSolomon<Table>,
    // row f is f times the generator's coefficients below the first, from the highest octet down
    pub(crate) rows: [u128; 256],
    ghost products: { RowsOf plain.check rows },
}
