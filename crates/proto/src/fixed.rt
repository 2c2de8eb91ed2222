//! Octets in a memory of their own, of a length that is bounded: what the writer keeps of texts and messages without allocating.
ghost use Rattle.std.specs.Prelude.{◌≡◌, ◌<◌, ◌≤◌, length, take, MatchResult};

use std::error::Error;
use std::fmt;

/// At most `N` octets: the first `len` of `octets`. It is copied freely, and nothing is allocated.
#[derive(Clone, Copy)]
pub struct Fixed<const N: usize> {
    octets: [u8; N],
    len: usize,
    ghost within: { len ≤ N },
}

impl<const N: usize> Fixed<N> {
    /// No octets.
    pub fn empty() -> Fixed<N>
        ensures { result.len ≡ 0 }
    {
        Fixed {
            octets: [0u8; N],
            len: 0,
        }
    }

    pub fn as_slice(&self) -> &[u8]
        ensures value { result.now ≡ take self.now.len self.now.octets }
        ensures within { length result.now ≤ N }
    {
        &self.octets[..self.len]
    }
}

/// More octets than there is memory for.
#[derive(Clone, Copy, Debug, PartialEq, Eq)]
pub struct TooLong;

impl fmt::Display for TooLong {
    fn fmt<W: fmt::Write>(&self, f: &mut fmt::Formatter<W>) -> fmt::Result {
        write!(f, "there are more octets than there is memory for")
    }
}

impl Error for TooLong {}

/// A copy of some octets, where they are at most `N`.
impl<const N: usize> TryFrom<&[u8]> for Fixed<N> {
    type Error = TooLong;

    ghost try_from_gives = { λ bytes r. MatchResult r
        (λ f. (take f.len f.octets ≡ bytes.now) × (length bytes.now ≤ N))
        (λ _. N < length bytes.now) };

    fn try_from(bytes: &[u8]) -> Result<Fixed<N>, TooLong> {
        let len = bytes.len();
        if len > N {
            return Err(TooLong);
        }
        let mut octets = [0u8; N];
        octets[..len].copy_from_slice(bytes);
        Ok(Fixed { octets, len })
    }
}
