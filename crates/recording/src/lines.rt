//! Lines out of a text.
ghost use Rattle.std.specs.Prelude.{◌≡◌, ◌+◌, ◌≤◌, ◌==◌, length, drop, position};
ghost use Rattle.recording.specs.Lines.{line_of};

// Where the first newline stands.
fn newline(text: &[u8]) -> Option<usize>
    ensures { result ≡ position (λ x. x == 10) text.now }
{
    text.iter().position(|b| *b == b'\n')
}

/// The line that begins at `at`, without the newline that ends it. The last line may have none.
pub fn line_at(text: &[u8], at: usize) -> &[u8]
    ensures value { result.now ≡ line_of (drop at text.now) }
    ensures within { at ≤ length text.now → at + length result.now ≤ length text.now }
{
    let rest = text.get(at..).unwrap_or_default();
    &rest[..newline(rest).unwrap_or(rest.len())]
}
