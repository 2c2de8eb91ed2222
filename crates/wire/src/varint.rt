//! Base-128 varints: seven bits to an octet, the lowest first.
ghost use Rattle.std.specs.Prelude.{◌≡◌, ◌*◌, ◌^◌, ◌<◌, ◌≤◌, length, take, not, nat_eq, IfOk, IfErr, IfSome};
ghost use Rattle.wire.specs.Fields.{varint_bytes};
ghost use Rattle.wire.specs.Read.{varint_at};
ghost use Rattle.wire.specs.Steps.{step_of, step_told, Sound};

use crate::field::Fault;

/// A varint that is read octet by octet: `turn` octets of it have given `low`. It has at most ten, and is below 2^64.
#[derive(Clone, Copy)]
pub struct VarintReader {
    low: u64,
    turn: u32,
    ghost small: { low < 2 ^ (7 * turn) },
    ghost few: { turn < 10 },
}

impl VarintReader {
    /// No octet yet.
    pub fn new() -> VarintReader
        ensures low { result.low ≡ 0 }
        ensures turn { result.turn ≡ 0 }
    {
        VarintReader { low: 0, turn: 0 }
    }

    /// Takes one octet more, and gives the value where the varint is whole with it. The next octet then begins another varint.
    pub fn feed(&mut self, b: u8) -> Result<Option<u64>, Fault>
        ensures step { step_told self.new.low self.new.turn result
            ≡ step_of self.old.low self.old.turn b }
        ensures sound { IfOk (step_told self.new.low self.new.turn result) Sound }
        ensures anew { IfOk result
            (λ whole. IfSome whole (λ _. (self.new.low ≡ 0) × (self.new.turn ≡ 0))) }
        ensures kept { IfErr result (λ _. self.new ≡ self.old) }
    {
        if self.turn == 9 && b > 1 {
            return Err(Fault::Varint);
        }
        let low = self.low | (u64::from(b & 0x7f) << (7 * self.turn));
        if b < 0x80 {
            *self = VarintReader::new();
            return Ok(Some(low));
        }
        *self = VarintReader {
            low,
            turn: self.turn + 1,
        };
        Ok(None)
    }

    /// Whether a varint has begun and is not whole.
    pub fn is_inside(&self) -> bool
        ensures { result ≡ not (nat_eq self.now.turn 0) }
    {
        self.turn != 0
    }
}

/// The varint at `at`, of at most ten octets and below 2^64, and the place past it.
#[tactic(auto, unfolding(crate::specs::Read::varint_at))]
pub fn read_varint(input: &[u8], at: usize) -> Result<(u64, usize), Fault>
    ensures value { result ≡ varint_at at input.now }
    ensures within { IfOk result (λ x. (at < x.1) × (x.1 ≤ length input.now)) }
{
    let octets = input.get(at..).ok_or(Fault::End)?;
    let mut varint = VarintReader::new();
    for (i, b) in octets.iter().enumerate() {
        if let Some(value) = varint.feed(*b)? {
            return Ok((value, at + i + 1));
        }
    }
    Err(Fault::End)
}

/// A varint as it is written: the first `len` of `octets`.
// A buffer with its length: nothing is allocated, and contracts name its length and its octets.
#[derive(Clone, Copy)]
pub struct EncodedVarint {
    octets: [u8; 10],
    len: usize,
    ghost some: { len ≤ 10 },
}

impl EncodedVarint {
    /// The shortest varint of a value.
    pub fn of(value: u64) -> EncodedVarint
        ensures value { take result.len result.octets ≡ varint_bytes value }
        ensures size { result.len ≡ length (varint_bytes value) }
    {
        let mut octets = [0u8; 10];
        let mut rest = value;
        let mut len = 0;
        while rest >= 0x80 {
            octets[len] = (rest & 0x7f) as u8 | 0x80;
            rest >>= 7;
            len += 1;
        }
        octets[len] = rest as u8;
        EncodedVarint {
            octets,
            len: len + 1,
        }
    }

    pub fn len(&self) -> usize
        ensures { result ≡ self.now.len }
    {
        self.len
    }

    pub fn as_slice(&self) -> &[u8]
        ensures value { result.now ≡ take self.now.len self.now.octets }
        ensures size { length result.now ≡ self.now.len }
    {
        &self.octets[0..self.len]
    }
}
