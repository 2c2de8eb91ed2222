//! The block token that a namenode gives, which every request shows to the datanodes.
ghost use Rattle.std.specs.Prelude.{◌≡◌, true, false, [], Some, None};
ghost use Rattle.proto.specs.Messages.{octets_in};
ghost use Rattle.proto.specs.Rules.{is_token};

use crate::fixed::Fixed;
use crate::form::conforms;
use crate::rules::TOKEN;

/// A `TokenProto` in form, of at most 1,024 octets, or none.
#[derive(Clone, Copy)]
pub struct Token {
    message: Fixed<1024>,
}

impl Token {
    /// No token: that of a writer which never opened, and shows it to nobody.
    pub fn none() -> Token
        ensures { octets_in result.message ≡ [] }
    {
        Token {
            message: Fixed::empty(),
        }
    }

    /// The token that these octets are, where they are one in form.
    pub fn new(message: &[u8]) -> Option<Token>
        ensures { elim result [
          | Some t ↦ (is_token message.now ≡ true) × (octets_in t.message ≡ message.now)
          | None ↦ is_token message.now ≡ false
        ] }
    {
        if !conforms(&TOKEN, message) {
            return None;
        }
        Some(Token {
            message: Fixed::try_from(message).ok()?,
        })
    }

    pub fn as_bytes(&self) -> &[u8]
        ensures { result.now ≡ octets_in self.now.message }
    {
        self.message.as_slice()
    }
}
