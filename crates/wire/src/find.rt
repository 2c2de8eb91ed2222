//! One field of a message, by its tag.
ghost use Rattle.std.specs.Prelude.{◌≡◌, ℕ, List, []};
ghost use Rattle.wire.specs.Fields.{WireField};
ghost use Rattle.wire.specs.Find.{pick_part, pick_number, found};
ghost use Rattle.wire.specs.Read.{wire};

use crate::field::Field;
use crate::fields::Fields;

/// What the value of a field can be read as: a part, or a varint.
pub trait Wanted<'a>: Copy {
    /// What the value is to a contract.
    ghost View: { Type 0 };

    ghost view: { Self → View };

    ghost absent: { View };

    ghost pick: { ℕ → View → WireField → View };

    /// What stands for a field that is absent.
    fn absent() -> Self
        ensures { view result ≡ absent };

    /// The value of the field, where it has that tag and holds such a value, and else this one.
    fn or(self, field: Field<'a>, tag: u32) -> Self
        ensures { view result ≡ pick tag (view self) (wire field.entry) };
}

/// The last value of that tag: what stands for an absent one where there is none, or where the message has a fault.
pub fn find<'a, V: Wanted<'a>>(input: &'a [u8], tag: u32) -> V
    ensures { V.view result ≡ found V.pick V.absent tag input.now }
{
    let mut value = V::absent();
    for field in Fields::of(input) {
        let Ok(field) = field else {
            return V::absent();
        };
        value = value.or(field, tag);
    }
    value
}

/// A part. An absent one has no octets.
impl<'a> Wanted<'a> for &'a [u8] {
    ghost View = { List ℕ };

    ghost view = { λ s. s.now };

    ghost absent = { [] };

    ghost pick = { pick_part };

    fn absent() -> &'a [u8] {
        &[]
    }

    fn or(self, field: Field<'a>, tag: u32) -> &'a [u8] {
        match field {
            Field::Part {
                tag: found,
                bytes,
                ..
            } if found == tag => bytes,
            _ => self,
        }
    }
}

/// A varint. An absent one is 0.
impl<'a> Wanted<'a> for u64 {
    ghost View = { ℕ };

    ghost view = { λ n. n };

    ghost absent = { 0 };

    ghost pick = { pick_number };

    fn absent() -> u64 {
        0
    }

    fn or(self, field: Field<'a>, tag: u32) -> u64 {
        match field {
            Field::Varint {
                tag: found,
                value,
                ..
            } if found == tag => value,
            _ => self,
        }
    }
}
