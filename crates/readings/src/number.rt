//! The parts of a line: numbers, each with the mark behind it.
ghost use Rattle.std.specs.Prelude.{◌≡◌, ◌+◌, ◌^◌, ◌<◌, ◌≤◌, length, IfOk};
ghost use Rattle.readings.specs.Line.{number_at, mark_at, slot_at};

use std::fmt;

/// What stands behind a number.
#[derive(Clone, Copy, Debug, PartialEq, Eq)]
pub enum Mark {
    Comma,
    Semicolon,
    /// The end of the line.
    End,
}

/// What is wrong with a line.
#[derive(Clone, Copy, Debug, PartialEq, Eq)]
pub enum LineFault {
    /// A number was expected, and there is no digit.
    DigitExpected,
    /// The number that begins here is above its limit.
    AboveLimit(u64),
    /// The number has ended, and what has to follow it does not.
    MarkExpected(Mark),
}

/// A fault, and the column where it is, from 1.
#[derive(Clone, Copy, Debug, PartialEq, Eq)]
pub struct LineError {
    pub column: usize,
    pub fault: LineFault,
}

impl LineError {
    // The fault at a place, which is a column from 1.
    fn at(place: usize, fault: LineFault) -> LineError
        requires { place + 1 < 2 ^ 64 }
        ensures { result ≡ record { column = place + 1; fault = fault } }
    {
        LineError {
            column: place + 1,
            fault,
        }
    }
}

/// A number of a line: its limit, and what stands behind it.
#[derive(Clone, Copy, Debug, PartialEq, Eq)]
pub struct Slot {
    pub limit: u64,
    pub then: Mark,
}

impl fmt::Display for Mark {
    fn fmt<W: fmt::Write>(&self, f: &mut fmt::Formatter<W>) -> fmt::Result {
        match self {
            Mark::Comma => write!(f, "a comma"),
            Mark::Semicolon => write!(f, "a semicolon"),
            Mark::End => write!(f, "the end of the line"),
        }
    }
}

impl fmt::Display for LineFault {
    fn fmt<W: fmt::Write>(&self, f: &mut fmt::Formatter<W>) -> fmt::Result {
        match self {
            LineFault::DigitExpected => write!(f, "a digit was expected"),
            LineFault::AboveLimit(limit) => write!(f, "the number is above {limit}"),
            LineFault::MarkExpected(mark) => write!(f, "{mark} was expected"),
        }
    }
}

impl fmt::Display for LineError {
    fn fmt<W: fmt::Write>(&self, f: &mut fmt::Formatter<W>) -> fmt::Result {
        let column = self.column;
        let fault = self.fault;
        write!(f, "column {column}: {fault}")
    }
}

/// The number whose digits begin at `at`, and the place past them.
// It takes and answers places, as the two below: a fault is told by its column.
pub(crate) fn number(line: &[u8], at: usize, limit: u64) -> Result<(u64, usize), LineError>
    requires { at ≤ length line.now }
    ensures value { result ≡ number_at limit at line.now }
    ensures within { IfOk result (λ x. x.1 ≤ length line.now) }
{
    let mut value = 0u64;
    let mut next = at;
    while next < line.len() && line[next].is_ascii_digit() {
        let digit = u64::from(line[next] - b'0');
        if value > limit / 10 || digit > limit - 10 * value {
            return Err(LineError::at(at, LineFault::AboveLimit(limit)));
        }
        value = 10 * value + digit;
        next += 1;
    }
    if next == at {
        return Err(LineError::at(at, LineFault::DigitExpected));
    }
    Ok((value, next))
}

/// The place past the mark at `at`.
pub(crate) fn past_mark(line: &[u8], at: usize, mark: Mark) -> Result<usize, LineError>
    requires { at ≤ length line.now }
    ensures value { result ≡ mark_at mark at line.now }
    ensures within { IfOk result (λ x. x ≤ length line.now) }
{
    match (mark, line.get(at)) {
        (Mark::Comma, Some(b',')) | (Mark::Semicolon, Some(b';')) => Ok(at + 1),
        (Mark::End, None) => Ok(at),
        _ => Err(LineError::at(at, LineFault::MarkExpected(mark))),
    }
}

/// The number at `at` and the place past the mark behind it.
pub(crate) fn read_slot(line: &[u8], at: usize, slot: Slot) -> Result<(u64, usize), LineError>
    requires { at ≤ length line.now }
    ensures value { result ≡ slot_at slot at line.now }
    ensures within { IfOk result (λ x. x.1 ≤ length line.now) }
{
    let (value, end) = number(line, at, slot.limit)?;
    let next = past_mark(line, end, slot.then)?;
    Ok((value, next))
}
