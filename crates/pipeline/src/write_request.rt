//! A request written to the front of a buffer that has room for every request.
ghost use Rattle.std.specs.Prelude.{◌≤◌, length, Some};
ghost use Rattle.wire.specs.Fields.{encode_all};
ghost use Rattle.request.specs.Requests.{framed, sent};

use request::send::{Request, send};

/// The octets that every request fits.
pub const REQUEST_ROOM: usize = 4096;

// Writes a request and answers where it ends.
// A place beside the buffer: nothing is allocated, and the contract speaks of the whole buffer, in which the request ends there.
pub(crate) fn write_request<R: Request>(message: &R, out: &mut [u8]) -> usize
    requires { 4096 ≤ length out.old }
    ensures { sent (framed R.Request.code (encode_all (R.Message.fields message.now)))
        out.old out.new (Some result) }
{
    send(message, out).unwrap()
}
