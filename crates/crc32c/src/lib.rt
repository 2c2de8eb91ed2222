//! CRC-32C, the sum of RFC 3720: the reflected check over the polynomial of Castagnoli, 0x82F63B78.
#![tactic(auto)]

ghost use Rattle.std.specs.Prelude.{◌≡◌, ℕ, List, ◌++◌};
ghost use Rattle.crc32c.specs.Vectors.{Vectors};
ghost use Rattle.crc.specs.Crc.{sum_of};

use crc::Polynomial;

mod rows;

/// The polynomial of Castagnoli.
pub struct Castagnoli;

impl Polynomial for Castagnoli {
    ghost poly = { 0x82F63B78 };

    fn table() -> &'static [u32; 4096] {
        &rows::ROWS
    }
}

// The two below are names for the generic check at this polynomial, so that callers name CRC-32C and no type.

/// The CRC-32C of `bytes`.
pub fn checksum(bytes: &[u8]) -> u32
    ensures { result ≡ sum_of 0x82F63B78 bytes.now }
{
    crc::checksum::<Castagnoli>(bytes)
}

/// A sum continued over a second part: where `sum` is the CRC-32C of a first part, whichever that was,
/// the CRC-32C of that part and `bytes` joined.
pub fn append(sum: u32, bytes: &[u8]) -> u32
    ensures { (bs : List ℕ) → sum ≡ sum_of 0x82F63B78 bs
        → result ≡ sum_of 0x82F63B78 (bs ++ bytes.now) }
{
    crc::append::<Castagnoli>(sum, bytes)
}

/// The definition, computed bit by bit, gives the sums that RFC 3720 has as examples.
pub fn vectors_stand()
    ensures { Vectors }
{}
