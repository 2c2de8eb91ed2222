//! Rows of a table that are each written as one field.
ghost use Rattle.std.specs.Prelude.{◌≡◌};
ghost use Rattle.wire.specs.Fields.{WireField};
ghost use Rattle.wire.specs.One.{one_field};

use crate::encode::{FieldOf, Message, OneField};

/// How one row of a table is written as a field that it holds.
pub trait RowField<T> {
    ghost field: { T → WireField };

    fn field_of(row: &T) -> OneField<'_>
        ensures { one_field result ≡ field row.now };
}

/// Such rows, as `Each` writes them.
#[derive(Clone, Copy)]
pub struct ByField<F>(pub F);

impl<T, F: RowField<T>> FieldOf<T> for ByField<F> {
    ghost field = { F.RowField.field };

    fn field_len(row: &T) -> usize {
        F::field_of(row).encoded_len()
    }

    fn put_field(row: &T, out: &mut [u8]) {
        F::field_of(row).encode(out)
    }
}
