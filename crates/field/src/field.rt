// What a field is to the code above it. Its elements are the octets below `size`; their sum is exclusive-or, `^`.
// An octet that is no element stands for its remainder by `size`.
ghost use Rattle.std.specs.Prelude.{◌≡◌};
ghost use Rattle.field.specs.Field.{Field as Arithmetic, Laws, power};

// The elements of a field of octets.
pub(crate) const OCTETS: usize = 256;

pub trait Field: Sized {
    ghost field: { Arithmetic };

    // n, the number of elements
    fn size() -> usize
        ensures { result ≡ field.size };

    fn times(a: u8, b: u8) -> u8
        ensures { result ≡ field.times a b };

    // The inverse of an element; 0 for 0, which has none.
    fn inverse(a: u8) -> u8
        ensures { result ≡ field.inverse a };

    // Power k of alpha.
    fn power(k: u8) -> u8
        ensures { result ≡ power field k };

    ghost laws: { Laws field };
}
