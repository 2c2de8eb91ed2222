//! A reading in a block: 52 octets, each number with its highest octet first.
ghost use Rattle.std.specs.Prelude.{◌≡◌, ◌+◌, ◌^◌, ◌<◌, ◌≤◌, take, drop, Some};
ghost use Rattle.wire.specs.Octets.{big};
ghost use Rattle.readings.specs.Record.{octets_of, reading_of};

use crate::reading::{RECORD_LEN, Reading};
use std::array;

// The octets from `at` on, as many as the type says.
fn array_at<const N: usize>(octets: &[u8; RECORD_LEN], at: usize) -> &[u8; N]
    requires { at + N ≤ 52 }
    ensures { result.now ≡ take N (drop at octets.now) }
{
    octets[at..].first_chunk().unwrap()
}

// These two say besides that a number is within its type, which its reading back needs.
fn four_octets(value: u32) -> [u8; 4]
    ensures written { result ≡ big 4 value }
    ensures fits { value < 2 ^ 32 }
{
    value.to_be_bytes()
}

fn two_octets(value: u16) -> [u8; 2]
    ensures written { result ≡ big 2 value }
    ensures fits { value < 2 ^ 16 }
{
    value.to_be_bytes()
}

impl Reading {
    /// Writes the reading as octets: the time in eight, each weight in four, each burner and crown in two.
    pub fn write_to(&self, out: &mut [u8; RECORD_LEN])
        ensures written { out.new ≡ octets_of self.now }
        ensures back { reading_of out.new ≡ Some self.now }
    {
        let time = self.time;
        out[0..8].copy_from_slice(&time.to_be_bytes());
        out[8..24].copy_from_slice(self.weights.map(four_octets).as_flattened());
        out[24..36].copy_from_slice(self.burners.map(two_octets).as_flattened());
        out[36..52].copy_from_slice(self.crowns.map(two_octets).as_flattened());
    }

    /// The reading in 52 octets, and none in fewer or more.
    // Any 52 octets are a reading.
    pub fn from_record(bytes: &[u8]) -> Option<Reading>
        ensures { result ≡ reading_of bytes.now }
    {
        let octets: &[u8; RECORD_LEN] = bytes.as_array()?;
        Some(Reading {
            time: u64::from_be_bytes(*array_at(octets, 0)),
            weights: array::from_fn(|i| u32::from_be_bytes(*array_at(octets, 8 + 4 * i))),
            burners: array::from_fn(|i| u16::from_be_bytes(*array_at(octets, 24 + 2 * i))),
            crowns: array::from_fn(|i| u16::from_be_bytes(*array_at(octets, 36 + 2 * i))),
        })
    }
}
