//! Octets in hexadecimal.
ghost use Rattle.std.specs.Prelude.{◌≡◌, ◌<◌, Some, None};
ghost use Rattle.vectors.specs.Hex.{digit_of, octet_of};

use crate::error::LineError;
use std::alloc::Global;

// The value of a digit, 0 to 9 or a to f. Capital letters, which `to_digit` takes too, are none.
fn digit(b: u8) -> Option<u8>
    ensures value { result ≡ digit_of b }
    ensures bound { elim result [ Some d ↦ d < 16 | None ↦ Unit {0} ] }
{
    match b {
        b'0'..=b'9' => Some(b - b'0'),
        b'a'..=b'f' => Some(b - b'a' + 10),
        _ => None,
    }
}

// The octet of two digits.
fn octet(high: u8, low: u8) -> Result<u8, LineError>
    ensures { result ≡ octet_of high low }
{
    let high = digit(high).ok_or(LineError::Form)?;
    let low = digit(low).ok_or(LineError::Form)?;
    Ok(16 * high + low)
}

/// The octets of a text of two digits each. A dash stands for none.
pub fn octets(heap: Global, text: &str) -> Result<Vec<u8>, LineError> {
    let mut out = Vec::new(heap);
    if text == "-" {
        return Ok(out);
    }
    let (pairs, rest) = text.as_bytes().as_chunks::<2>();
    if !rest.is_empty() {
        return Err(LineError::Form);
    }
    for [high, low] in pairs {
        out.push(octet(*high, *low)?)?;
    }
    Ok(out)
}
