//! A line of readings: `TIME;W,W,W,W;B,B,B,B,B,B;T,T,T,T,T,T,T,T`, in decimal digits without blanks.
ghost use Rattle.std.specs.Prelude.{◌≡◌};
ghost use Rattle.readings.specs.Line.{parsed, slots_at, table};

use crate::number::{LineError, Mark, Slot, read_slot};
use crate::reading::Reading;
use std::array;

// A table of numbers, each with a limit and a mark of its own.
const TIME: Slot = Slot {
    limit: 0xffff_ffff_ffff_ffff,
    then: Mark::Semicolon,
};

const WEIGHT: Slot = Slot {
    limit: 0xffff_ffff,
    then: Mark::Comma,
};

const LAST_WEIGHT: Slot = Slot {
    limit: 0xffff_ffff,
    then: Mark::Semicolon,
};

const BURNER: Slot = Slot {
    limit: 1000,
    then: Mark::Comma,
};

const LAST_BURNER: Slot = Slot {
    limit: 1000,
    then: Mark::Semicolon,
};

const CROWN: Slot = Slot {
    limit: 20_000,
    then: Mark::Comma,
};

const LAST_CROWN: Slot = Slot {
    limit: 20_000,
    then: Mark::End,
};

/// The nineteen numbers of a line, from its front.
static SLOTS: [Slot; 19] = [
    TIME,
    WEIGHT,
    WEIGHT,
    WEIGHT,
    LAST_WEIGHT,
    BURNER,
    BURNER,
    BURNER,
    BURNER,
    BURNER,
    LAST_BURNER,
    CROWN,
    CROWN,
    CROWN,
    CROWN,
    CROWN,
    CROWN,
    CROWN,
    LAST_CROWN,
];

// The numbers of a line.
fn numbers(line: &[u8]) -> Result<[u64; 19], LineError>
    ensures { result ≡ slots_at table 0 line.now }
{
    let mut values = [0u64; 19];
    let mut at = 0;
    // By places: of what is written through `iter_mut` beside another iterator a proof knows the length alone.
    for (i, slot) in SLOTS.iter().enumerate() {
        let (value, next) = read_slot(line, at, *slot)?;
        values[i] = value;
        at = next;
    }
    Ok(values)
}

impl Reading {
    /// The reading that a line says, or the first place where the line is none.
    pub fn parse(line: &[u8]) -> Result<Reading, LineError>
        ensures { result ≡ parsed line.now }
    {
        let values = numbers(line)?;
        Ok(Reading {
            time: values[0],
            weights: array::from_fn(|i| values[1 + i] as u32),
            burners: array::from_fn(|i| values[5 + i] as u16),
            crowns: array::from_fn(|i| values[11 + i] as u16),
        })
    }
}
