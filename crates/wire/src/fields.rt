//! The fields of a message, one after another.
ghost use Rattle.std.specs.Prelude.{◌≡◌, ◌-◌, length};
ghost use Rattle.std.specs.Iterator.{at_most};
ghost use Rattle.wire.specs.Each.{NextField};

use crate::field::{DecodeError, Field, read_field};

/// The fields from a place of a message on, up to its end. Behind a fault nothing more comes.
#[derive(Clone, Copy, Drop)]
pub struct Fields<'a> {
    input: &'a [u8],
    at: usize,
}

impl<'a> Fields<'a> {
    /// All fields of a message.
    pub fn of(input: &'a [u8]) -> Fields<'a>
        ensures message { result.input.now ≡ input.now }
        ensures start { result.at ≡ 0 }
    {
        Fields { input, at: 0 }
    }
}

impl<'a> Iterator for Fields<'a> {
    type Item = Result<Field<'a>, DecodeError>;

    ghost next_gives = { λ s r t. (t.input.now ≡ s.input.now) × NextField s.input.now s.at r t.at };

    ghost remaining = { λ s. at_most (length s.input.now - s.at) };

    fn next(&mut self) -> Option<Result<Field<'a>, DecodeError>> {
        let place = self.at;
        if place >= self.input.len() {
            return None;
        }
        match read_field(self.input, place) {
            Ok((field, next)) => {
                self.at = next;
                Some(Ok(field))
            }
            Err(fault) => {
                self.at = self.input.len();
                Some(Err(DecodeError { place, fault }))
            }
        }
    }
}
