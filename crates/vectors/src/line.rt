//! One line of the table.
use crate::error::LineError;
use crate::tally::Kind;
use crate::{answers, frames, transfer, write};
use std::alloc::Global;

/// The kind of a line that our octets or our verdict agree with.
pub fn run(heap: Global, line: &str) -> Result<Kind, LineError> {
    let words: Vec<&str> = line.split(' ').collect(heap)?;
    let (kind, rest) = words.as_slice().split_first().ok_or(LineError::Form)?;
    let kind = kind.parse()?;
    let agrees = match kind {
        Kind::Frame => frames::agrees(heap, rest)?,
        Kind::Write => write::agrees(heap, rest)?,
        Kind::Transfer => transfer::agrees(heap, rest)?,
        Kind::Answer => answers::agrees(heap, rest)?,
        Kind::Response => answers::response_agrees(heap, rest)?,
    };
    if !agrees {
        return Err(LineError::Differs(kind));
    }
    Ok(kind)
}
