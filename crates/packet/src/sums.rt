//! The sums of a packet's chunks.
ghost use Rattle.std.specs.Prelude.{◌≡◌, ◌*◌, ◌^◌, length, if◌then◌else◌, Some, None, nat_lt};
ghost use Rattle.std.specs.Str.{bytes_eq};
ghost use Rattle.packet.specs.Sums.{chunk_count, sums_of};

/// How many octets the sums of `data_len` bytes take, if a `usize` holds it.
/// No data has none, and there are none where the chunk size is 0.
pub fn sums_len(data_len: usize, chunk_size: u32) -> Option<usize>
    ensures { let sums = 4 * chunk_count chunk_size data_len in
        result ≡ (if nat_lt sums (2 ^ 64) then Some sums else None) }
{
    if data_len == 0 || chunk_size == 0 {
        return Some(0);
    }
    data_len.div_ceil(chunk_size as usize).checked_mul(4)
}

/// Fills `out` with the sums of the data.
pub(crate) fn put_sums(out: &mut [u8], data: &[u8], chunk_size: u32)
    requires { length out.old ≡ 4 * chunk_count chunk_size (length «data».now) }
    ensures { out.new ≡ sums_of chunk_size «data».now }
{
    if chunk_size == 0 {
        return;
    }
    // By places in `out`: of what is written through `chunks_exact_mut` a proof knows the length alone.
    for (k, chunk) in data.chunks(chunk_size as usize).enumerate() {
        let sum = crc32c::checksum(chunk);
        out[4 * k..4 * k + 4].copy_from_slice(&sum.to_be_bytes());
    }
}

/// Whether `sums` are the sums of the data.
pub fn sums_match(sums: &[u8], data: &[u8], chunk_size: u32) -> bool
    ensures { result ≡ bytes_eq sums.now (sums_of chunk_size «data».now) }
{
    if sums_len(data.len(), chunk_size) != Some(sums.len()) {
        return false;
    }
    if data.is_empty() || chunk_size == 0 {
        return true;
    }
    for (chunk, sum) in data.chunks(chunk_size as usize).zip(sums.chunks_exact(4)) {
        if sum != crc32c::checksum(chunk).to_be_bytes().as_slice() {
            return false;
        }
    }
    true
}
