//! The header of a packet: `PacketHeaderProto`, of datatransfer.proto.
ghost use Rattle.std.specs.Prelude.{◌≡◌, ◌≤◌, length};
ghost use Rattle.packet.specs.Header.{header_of, header_length, plain_octets};

/// The number of a heartbeat packet: -1, as the 64 bits that an sfixed64 carries.
pub const HEART_BEAT_SEQNO: u64 = 0xffff_ffff_ffff_ffff;

/// The octets of a header's first four fields.
pub(crate) const PLAIN_LEN: usize = 25;

/// The header of a packet. The offset and the number are signed numbers, held as the 64 bits that carry them.
#[derive(Clone, Copy, Debug, PartialEq, Eq)]
pub struct PacketHeader {
    /// Where the data begins in the block.
    pub offset: u64,
    /// The number of the packet.
    pub seqno: u64,
    /// Whether the packet is the block's last.
    pub last: bool,
    /// How many bytes of data the packet has.
    pub data_len: u32,
}

impl PacketHeader {
    /// How many octets the header is written as.
    pub fn encoded_len(&self) -> usize
        ensures { result ≡ length (header_of self.now) }
    {
        header_len(self.last)
    }
}

/// How many octets a header is written as: that of the last packet has one field more.
pub(crate) fn header_len(last: bool) -> usize
    ensures value { result ≡ header_length last }
    ensures within { result ≤ 27 }
{
    if last { 27 } else { PLAIN_LEN }
}

// Fills `out` with the fields that every header has.
fn put_plain_fields(out: &mut [u8], header: PacketHeader)
    requires { length out.old ≡ 25 }
    ensures { out.new ≡ plain_octets header.offset header.seqno header.last header.data_len }
{
    out[0] = 0x09;
    out[1..9].copy_from_slice(&header.offset.to_le_bytes());
    out[9] = 0x11;
    out[10..18].copy_from_slice(&header.seqno.to_le_bytes());
    out[18] = 0x18;
    out[19] = u8::from(header.last);
    out[20] = 0x25;
    out[21..25].copy_from_slice(&header.data_len.to_le_bytes());
}

/// Fills `out` with the header. That of the last packet asks for a sync.
pub(crate) fn put_header(out: &mut [u8], header: PacketHeader)
    requires { length out.old ≡ header_length header.last }
    ensures { out.new ≡ header_of header }
{
    put_plain_fields(&mut out[0..PLAIN_LEN], header);
    if !header.last {
        return;
    }
    out[25] = 0x28;
    out[26] = 1;
}
