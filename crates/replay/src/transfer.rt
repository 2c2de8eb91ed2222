//! Which datanodes of the namenode's list a transfer goes between.
use scripted::plans::OfferedList;
use scripted::words::address_in;
use std::alloc::{AllocError, Global};
use wire::find::find;
use wire::varint::read_varint;

// The `DatanodeInfoProto` of the target that a transfer request names.
fn target_of(request: &[u8]) -> &[u8] {
    match read_varint(request, 3) {
        Ok((_, from)) => find(request.get(from..).unwrap_or(&[]), 2),
        Err(_) => &[],
    }
}

// The position of the datanode at that address.
fn position_at(
    heap: Global,
    list: &OfferedList,
    address: &str,
) -> Result<Option<usize>, AllocError> {
    for (i, row) in list.rows.iter().enumerate() {
        if address_in(heap, row.info.as_slice())?.as_str() == address {
            return Ok(Some(i));
        }
    }
    Ok(None)
}

/// The positions of the target of a transfer request, and of the source at that address, where both are of the list.
pub fn choice_of(
    heap: Global,
    list: &OfferedList,
    address: &str,
    request: &[u8],
) -> Result<Option<(usize, usize)>, AllocError> {
    let target = target_of(request);
    let new = list
        .rows
        .iter()
        .position(|row| row.info.as_slice() == target);
    let source = position_at(heap, list, address)?;
    Ok(new.zip(source))
}
