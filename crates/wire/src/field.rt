//! The fields of a message: a number, or a part of the message, each with its place.
ghost use Rattle.std.specs.Prelude.{◌≡◌, ◌+◌, ◌/◌, ◌<◌, ◌≤◌, length, IfOk, if◌then◌else◌, Ok, Err};
ghost use Rattle.wire.specs.declared.field.Fault.TheVariants.{Key};
ghost use Rattle.wire.specs.Fields.{tag_of};
ghost use Rattle.wire.specs.Read.{is_tag, fixed_at, read_field, and_then, seen, wire, place_of, weight};
ghost use Rattle.wire.specs.Octets.{from_little};

use crate::varint::read_varint;
use std::error::Error;
use std::fmt;

/// What can be wrong with a field. Of several, the first of this list is told.
#[derive(Clone, Copy, Debug, PartialEq, Eq)]
pub enum Fault {
    /// A varint of more than ten octets, or above 2^64 - 1.
    Varint,
    /// The message ends inside the field.
    End,
    /// A tag of 0, or above 2^29 - 1.
    Key,
    /// A wire type that the tag does not take, a group, 6 or 7.
    WireType,
}

/// A fault, and the place of the first octet of the field that has it.
#[derive(Clone, Copy, Debug, PartialEq, Eq)]
pub struct DecodeError {
    pub place: usize,
    pub fault: Fault,
}

impl fmt::Display for Fault {
    fn fmt<W: fmt::Write>(&self, f: &mut fmt::Formatter<W>) -> fmt::Result {
        match self {
            Fault::Varint => write!(f, "a varint is too long"),
            Fault::End => write!(f, "the message ends inside a field"),
            Fault::Key => write!(f, "a tag is out of range"),
            Fault::WireType => write!(f, "a wire type does not fit"),
        }
    }
}

impl Error for Fault {}

impl fmt::Display for DecodeError {
    fn fmt<W: fmt::Write>(&self, f: &mut fmt::Formatter<W>) -> fmt::Result {
        let place = self.place;
        let fault = self.fault;
        write!(f, "octet {place}: {fault}")
    }
}

impl Error for DecodeError {}

/// A field of a message. `place` is where its key begins.
#[derive(Clone, Copy)]
pub enum Field<'a> {
    Varint {
        tag: u32,
        place: usize,
        value: u64,
    },
    Fixed64 {
        tag: u32,
        place: usize,
        value: u64,
    },
    Part {
        tag: u32,
        place: usize,
        bytes: &'a [u8],
    },
    Fixed32 {
        tag: u32,
        place: usize,
        value: u32,
    },
}

impl Field<'_> {
    pub fn tag(&self) -> u32
        ensures { result ≡ tag_of (wire self.now) }
    {
        match self {
            Field::Varint { tag, .. }
            | Field::Fixed64 { tag, .. }
            | Field::Part { tag, .. }
            | Field::Fixed32 { tag, .. } => *tag,
        }
    }

    /// Where its key begins.
    pub fn place(&self) -> usize
        ensures { result ≡ place_of self.now }
    {
        match self {
            Field::Varint { place, .. }
            | Field::Fixed64 { place, .. }
            | Field::Part { place, .. }
            | Field::Fixed32 { place, .. } => *place,
        }
    }
}

// The `N` octets at `at`, if there are so many, and the place past them.
fn fixed<const N: usize>(input: &[u8], at: usize) -> Result<([u8; N], usize), Fault>
    ensures value { and_then result (λ x. Ok (from_little x.0, x.1)) ≡ fixed_at N at input.now }
    ensures within { IfOk result (λ x. (at + N ≡ x.1) × (x.1 ≤ length input.now)) }
{
    let rest = input.get(at..).ok_or(Fault::End)?;
    let bytes = rest.first_chunk::<N>().ok_or(Fault::End)?;
    Ok((*bytes, at + N))
}

// The tag of a key: 1 to 2^29 - 1.
fn tag_of(key: u64) -> Result<u32, Fault>
    ensures { result ≡ (if is_tag (key / 8) then Ok (key / 8) else Err Key) }
{
    let tag = key / 8;
    if tag == 0 || tag >= 0x2000_0000 {
        return Err(Fault::Key);
    }
    Ok(tag as u32)
}

/// The field whose key stands at `at`, and the place past it. First the value is read, then the tag is looked at, then the wire type.
#[tactic(auto, using(crate::proofs::Words::word_four, crate::proofs::Words::word_eight), unfolding(crate::specs::Read::read_field))]
pub fn read_field(input: &[u8], at: usize) -> Result<(Field<'_>, usize), Fault>
    ensures value { seen result ≡ read_field at input.now }
    ensures within { IfOk result
        (λ x. (place_of x.0 ≡ at)
        × (at < x.1)
        × (at + weight (wire x.0) ≤ x.1)
        × (x.1 ≤ length input.now)) }
{
    let (key, here) = read_varint(input, at)?;
    match key % 8 {
        0 => {
            let (value, next) = read_varint(input, here)?;
            let tag = tag_of(key)?;
            Ok((
                Field::Varint {
                    tag,
                    place: at,
                    value,
                },
                next,
            ))
        }
        1 => {
            let (bytes, next) = fixed::<8>(input, here)?;
            let tag = tag_of(key)?;
            Ok((
                Field::Fixed64 {
                    tag,
                    place: at,
                    value: u64::from_le_bytes(bytes),
                },
                next,
            ))
        }
        2 => {
            let (size, from) = read_varint(input, here)?;
            if size > (input.len() - from) as u64 {
                return Err(Fault::End);
            }
            let next = from + size as usize;
            let tag = tag_of(key)?;
            Ok((
                Field::Part {
                    tag,
                    place: at,
                    bytes: &input[from..next],
                },
                next,
            ))
        }
        5 => {
            let (bytes, next) = fixed::<4>(input, here)?;
            let tag = tag_of(key)?;
            Ok((
                Field::Fixed32 {
                    tag,
                    place: at,
                    value: u32::from_le_bytes(bytes),
                },
                next,
            ))
        }
        _ => {
            tag_of(key)?;
            Err(Fault::WireType)
        }
    }
}
