// A received word over a field.
ghost use Rattle.std.specs.Prelude.{◌<◌, length};

use field::Field;
use std::marker::PhantomData;

// The octets of a received word. It is shorter than the field has elements, so each place has a locator of its own.
#[derive(Drop)]
pub(crate) struct Received<'a, F: Field> {
    pub(crate) field: PhantomData<F>,
    pub(crate) octets: &'a [u8],
    ghost fits: { length octets.now < F.Field.field.size },
}
