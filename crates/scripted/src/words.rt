//! What the words of a line stand for.
use crate::error::ScriptError;
use std::alloc::{AllocError, Global};
use wire::find::find;
use wire::varint::read_varint;

/// The octets of a text.
pub fn text(heap: Global, word: &str) -> Result<Vec<u8>, AllocError> {
    Vec::from_slice(heap, word.as_bytes())
}

/// The octets of hexadecimal digits. A dash stands for none.
pub fn octets(heap: Global, word: &str) -> Result<Vec<u8>, ScriptError> {
    if word == "-" {
        return Ok(Vec::new(heap));
    }
    Ok(hex::decode(heap, word)?)
}

/// The message of a wire's octets, which have its length before it and nothing behind it.
pub fn framed(octets: &[u8]) -> Option<&[u8]> {
    let (len, from) = read_varint(octets, 0).ok()?;
    let message = octets.get(from..)?;
    (message.len() as u64 == len).then_some(message)
}

/// The bytes that a seed gives: each is the high octet of the next number of a linear congruence.
pub fn generated(heap: Global, seed: u32, count: usize) -> Result<Vec<u8>, AllocError> {
    let mut bytes = Vec::with_capacity(heap, count)?;
    let mut number = seed;
    for _ in 0..count {
        number = number.wrapping_mul(1_664_525).wrapping_add(1_013_904_223);
        bytes.push((number >> 24) as u8)?;
    }
    Ok(bytes)
}

/// The address in a `DatanodeInfoProto`, which may be out of form: the ip, and the port for the transfer of data.
pub fn address_in(heap: Global, info: &[u8]) -> Result<String, AllocError> {
    let id: &[u8] = find(info, 1);
    let ip = str::from_utf8(find(id, 1)).unwrap_or("");
    let port: u64 = find(id, 4);
    format!(in heap; "{ip}:{port}")
}
