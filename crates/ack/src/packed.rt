//! A repeated number, packed: its varints stand one after another in one part of the message.
ghost use Rattle.std.specs.Prelude.{◌≡◌, ℕ, ◌+◌, ◌^◌, ◌<◌, ◌≤◌, length, IfOk};
ghost use Rattle.ack.specs.Packed.{numbers_of, walked};

use wire::field::Fault;
use wire::varint::VarintReader;

/// What is kept of a repeated number, whose values are pushed one by one.
pub trait Repeated: Sized {
    /// What a further value makes of what was kept before it.
    ghost pushed: { Self → ℕ → Self };

    /// A count that rises by at most one with each value.
    ghost size: { Self → ℕ };

    fn push(self, value: u64) -> Self
        requires { size self + 1 < 2 ^ 64 }
        ensures value { result ≡ pushed self value }
        ensures bound { size result ≤ size self + 1 };
}

// Pushes the numbers of one part to what was kept before it.
pub(crate) fn push_packed<R: Repeated + Drop>(part: &[u8], start: R) -> Result<R, Fault>
    requires { R.Repeated.size start + length part.now < 2 ^ 64 }
    ensures value { result ≡ walked R.Repeated.pushed start (numbers_of part.now) }
    ensures bound { IfOk result (λ s. R.Repeated.size s ≤ R.Repeated.size start + length part.now) }
{
    let mut values = start;
    let mut varint = VarintReader::new();
    for b in part {
        if let Some(value) = varint.feed(*b)? {
            values = values.push(value);
        }
    }
    if varint.is_inside() {
        return Err(Fault::End);
    }
    Ok(values)
}

/// A repeated number of which nothing is kept: its part is read for its faults alone.
#[derive(Clone, Copy)]
pub struct Skipped;

impl Repeated for Skipped {
    ghost pushed = { λ s _. s };

    ghost size = { λ _. 0 };

    fn push(self, _value: u64) -> Skipped {
        self
    }
}
