//! A link with the two buffers of a request and its response.
ghost use Rattle.std.specs.Prelude.{◌≡◌, ◌≤◌, length};

/// A link, a buffer that every request fits, and one for the response.
#[derive(Drop)]
// Each method says that it leaves the same loans (`SameLoans`): else whoever lent them would not know what they hold afterwards.
// Each response is judged at once, by the length that the link tells.
pub struct Channel<'a, L> {
    pub link: &'a mut L,
    pub request: &'a mut [u8],
    pub answer: &'a mut [u8],
    ghost room: { 4096 ≤ length request.now },
}
