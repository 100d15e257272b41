// A field whose elements are all the octets.
ghost use Rattle.std.specs.Prelude.{◌≡◌, refl};

use crate::field::Field;
use crate::shifting::Shifting;
use crate::table::Table;

pub trait OctetField: Field {
    ghost all_octets: { Self.field.size ≡ 256 };
}

impl OctetField for Table {
    ghost all_octets = { refl };
}

impl OctetField for Shifting {
    ghost all_octets = { refl };
}
