//! What the faulty pipelines' answers are made of.

/// So many octets hold an answer with eight replies.
pub(crate) const ANSWER_LEN: usize = 32;

/// A pipeline has so many datanodes at most.
pub(crate) const NODES: usize = 8;

/// `SUCCESS` and `ERROR` of datatransfer.proto.
pub(crate) const SUCCESS: u8 = 0;

pub(crate) const ERROR: u8 = 1;

/// The number -2: the datanodes do not know what they answer.
pub(crate) const UNKNOWN_SEQNO: u64 = 0xffff_ffff_ffff_fffe;
