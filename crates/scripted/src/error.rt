//! Why a script cannot be read.
use hex::FromHexError;
use std::alloc::{AllocError, AllocFailed};
use std::error::Error;
use std::fmt;
use std::num::ParseIntError;

/// Why a line of a script cannot be read.
#[derive(Clone, Copy, Debug, PartialEq, Eq)]
pub enum ScriptError {
    /// It has none of the forms of a script's lines.
    Form,
    /// No memory was left for it.
    Memory,
}

impl fmt::Display for ScriptError {
    fn fmt<W: fmt::Write>(&self, f: &mut fmt::Formatter<W>) -> fmt::Result {
        match self {
            Self::Form => write!(f, "no line of a script"),
            Self::Memory => write!(f, "no memory is left"),
        }
    }
}

impl Error for ScriptError {}

impl From<ParseIntError> for ScriptError {
    fn from(_: ParseIntError) -> ScriptError {
        ScriptError::Form
    }
}

impl From<FromHexError> for ScriptError {
    fn from(_: FromHexError) -> ScriptError {
        ScriptError::Form
    }
}

impl From<AllocError> for ScriptError {
    fn from(_: AllocError) -> ScriptError {
        ScriptError::Memory
    }
}

impl<T: Drop> From<AllocFailed<T>> for ScriptError {
    fn from(_: AllocFailed<T>) -> ScriptError {
        ScriptError::Memory
    }
}
