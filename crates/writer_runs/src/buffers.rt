//! Buffers of any lengths, copied and compared.
use std::alloc::{AllocError, Global};
use writer::admit::Lengths;
use writer::buffers::Buffers;

/// The least of each, for packets of one chunk of four bytes.
pub const LEAST: Lengths = Lengths {
    store: 12,
    frame: 41,
    request: 4096,
    answer: 4096,
};

/// The same with a store of seven packets.
pub const SEVEN_SLOTS: Lengths = Lengths { store: 28, ..LEAST };

// What stands in a buffer that nothing was written to: what a call writes can be told from what it leaves.
const UNWRITTEN: u8 = 0x77;

// The same octets, cut to this length or continued up to it.
fn resized(octets: &Vec<u8>, len: usize) -> Result<Vec<u8>, AllocError> {
    let mut copy = octets.clone()?;
    copy.resize(len, UNWRITTEN)?;
    Ok(copy)
}

/// Buffers of these lengths, with nothing written to them.
pub fn unwritten(heap: Global, lengths: Lengths) -> Result<Buffers, AllocError> {
    let none = Buffers {
        store: Vec::new(heap),
        frame: Vec::new(heap),
        request: Vec::new(heap),
        answer: Vec::new(heap),
    };
    with_lengths(&none, lengths)
}

/// A copy of these buffers, cut or continued to these lengths.
pub fn with_lengths(buffers: &Buffers, lengths: Lengths) -> Result<Buffers, AllocError> {
    Ok(Buffers {
        store: resized(&buffers.store, lengths.store)?,
        frame: resized(&buffers.frame, lengths.frame)?,
        request: resized(&buffers.request, lengths.request)?,
        answer: resized(&buffers.answer, lengths.answer)?,
    })
}

/// A copy of these buffers, to compare them with later.
pub fn copy_of(buffers: &Buffers) -> Result<Buffers, AllocError> {
    Ok(Buffers {
        store: buffers.store.clone()?,
        frame: buffers.frame.clone()?,
        request: buffers.request.clone()?,
        answer: buffers.answer.clone()?,
    })
}

/// Whether each buffer is as that of the others.
pub fn are_same(buffers: &Buffers, others: &Buffers) -> bool {
    buffers.store.as_slice() == others.store.as_slice()
        && buffers.frame.as_slice() == others.frame.as_slice()
        && buffers.request.as_slice() == others.request.as_slice()
        && buffers.answer.as_slice() == others.answer.as_slice()
}
