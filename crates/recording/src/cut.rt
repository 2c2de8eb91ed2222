//! A block's bytes cut into the data of packets.
ghost use Rattle.std.specs.Prelude.{◌≡◌, ◌<◌, length};
ghost use Rattle.recording.specs.Cut.{packet_count, packet_at, packets_joined};

/// How many packets of at most `capacity` bytes carry the block: their data joined are the block's bytes.
/// With a capacity of 0 there are none.
pub fn packet_count(block: &[u8], capacity: usize) -> usize
    ensures value { result ≡ packet_count capacity (length block.now) }
    ensures whole { 0 < capacity → packets_joined capacity result block.now ≡ block.now }
{
    if capacity == 0 {
        return 0;
    }
    block.len().div_ceil(capacity)
}

/// The data of packet `k`: the `capacity` bytes from `k * capacity` on, or what there is of them.
pub fn packet_data(block: &[u8], capacity: usize, k: usize) -> &[u8]
    ensures { result.now ≡ packet_at capacity block.now k }
{
    let rest = block.get(k.saturating_mul(capacity)..).unwrap_or_default();
    &rest[..capacity.min(rest.len())]
}
