//! Why a line of the table does not agree.
use crate::tally::Kind;
use proto::fixed::TooLong;
use std::alloc::{AllocError, AllocFailed};
use std::fmt;
use std::num::ParseIntError;

/// Why a line does not agree: it differs, or it cannot be run.
#[derive(Clone, Copy, Debug)]
pub enum LineError {
    /// Our octets or our verdict differ from those of a line of this kind.
    Differs(Kind),
    /// It has none of the forms of the table.
    Form,
    /// No memory was left for it.
    Memory,
}

impl fmt::Display for LineError {
    fn fmt<W: fmt::Write>(&self, f: &mut fmt::Formatter<W>) -> fmt::Result {
        match self {
            Self::Differs(kind) => write!(f, "differs: {kind:?}"),
            Self::Form | Self::Memory => write!(f, "cannot be run: {self:?}"),
        }
    }
}

impl From<ParseIntError> for LineError {
    fn from(_: ParseIntError) -> LineError {
        LineError::Form
    }
}

impl From<TooLong> for LineError {
    fn from(_: TooLong) -> LineError {
        LineError::Form
    }
}

impl From<AllocError> for LineError {
    fn from(_: AllocError) -> LineError {
        LineError::Memory
    }
}

impl<T: Drop> From<AllocFailed<T>> for LineError {
    fn from(_: AllocFailed<T>) -> LineError {
        LineError::Memory
    }
}
