//! A block's packets, and behind them the empty last one.
use packet::frame::WritePacket;
use recording::cut::{packet_count, packet_data};

// By number, not by `chunks`: what `packet_count` promises speaks of packet `k`, and the empty last one is packet `packet_count`.
/// Packet `k` of the block, whose packets have `capacity` bytes each. The one behind them all is the last, and has none.
pub fn packet_at(block: &[u8], capacity: usize, k: usize) -> WritePacket<'_> {
    WritePacket {
        offset: k.saturating_mul(capacity).min(block.len()) as u64,
        seqno: k as u64,
        last: k == packet_count(block, capacity),
        data: packet_data(block, capacity, k),
    }
}
