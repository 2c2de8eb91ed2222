//! A packet framed and put.
ghost use Rattle.std.specs.Prelude.{◌≡◌, true, is_ok};
ghost use Rattle.packet.specs.Frame.{summed, octets_of, fits_in, over};

use chain::link::{Link, LinkLost};
use packet::frame::{WritePacket, write_frame};

/// Writes the packet's frame, which fits, to the front of `frame` and puts it on the link.
pub fn put_packet<L: Link>(
    link: &mut L,
    packet: WritePacket<'_>,
    chunk_size: u32,
    frame: &mut [u8],
) -> Result<(), LinkLost>
    requires { fits_in (summed chunk_size packet) frame.old ≡ true }
    ensures put { L.Link.puts link.old (octets_of (summed chunk_size packet.entry))
        (is_ok result) link.new }
    ensures frame { frame.new ≡ over (summed chunk_size packet.entry) frame.old }
{
    let end = write_frame(frame, packet, chunk_size).unwrap();
    link.put(&frame[0..end])
}
