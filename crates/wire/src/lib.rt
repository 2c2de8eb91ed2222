//! Protocol buffers on the wire: varints, fields that borrow from the message, and messages field by field.
#![tactic(auto)]

ghost use Rattle.wire.specs.Laws.{ReadBack, DecodeBack};

use decode::Merge;

pub mod decode;
pub mod encode;
pub mod field;
pub mod fields;
pub mod find;
pub mod row;
pub mod varint;

/// A field is read back as it was written, wherever it stands.
pub fn fields_read_back()
    ensures { ReadBack }
{}

/// A message is read back as the fields it was written from, whatever a reader of type `M` makes of these.
pub fn messages_read_back<M: Merge>()
    ensures { DecodeBack M }
{}
