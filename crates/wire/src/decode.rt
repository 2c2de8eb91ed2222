//! A message, field by field.
ghost use Rattle.std.specs.Prelude.{◌≡◌, ℕ, ◌+◌, ◌^◌, ◌<◌, ◌≤◌, length, IfOk, Result};
ghost use Rattle.wire.specs.Fields.{WireField};
ghost use Rattle.wire.specs.Read.{wire, weight, decoded};
ghost use Rattle.wire.specs.declared.field.Fault.{Fault};

use crate::field::{DecodeError, Fault, Field};
use crate::fields::Fields;

/// What is read of a message: begun with nothing, and joined with each field in turn.
pub trait Merge: Sized {
    /// A message without fields.
    ghost none: { Self };

    /// What a field makes of what was read before it.
    ghost merges: { Self → WireField → Result Self Fault };

    /// A count that rises by at most a field's octets, so that no counter passes its width.
    ghost size: { Self → ℕ };

    fn empty() -> Self
        ensures { result ≡ none };

    fn merge_field(self, field: Field<'_>) -> Result<Self, Fault>
        requires { size self + weight (wire field) < 2 ^ 64 }
        ensures value { result ≡ merges self (wire field.entry) }
        ensures bound { IfOk result (λ s. size s ≤ size self + weight (wire field.entry)) };

    ghost starts: { size none ≡ 0 };
}

/// Reads a whole message. A fault comes with the place of the field that has it.
pub fn decode<M: Merge + Drop>(input: &[u8]) -> Result<M, DecodeError>
    ensures { result ≡ decoded M.Merge.merges M.Merge.none input.now }
{
    let mut message = M::empty();
    for field in Fields::of(input) {
        let field = field?;
        let place = field.place();
        message = message
            .merge_field(field)
            .map_err(|fault| DecodeError { place, fault })?;
    }
    Ok(message)
}
