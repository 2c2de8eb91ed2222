//! The spool itself.
ghost use Rattle.std.specs.Prelude.{◌≡◌, ◌+◌, ◌≤◌, true, vec_len, vec_capacity};
ghost use Rattle.std.specs.VecDeque.{deque_capacity};
ghost use Rattle.spool.specs.Counts.{total, numbered};

use crate::pending::Pending;
use std::collections::VecDeque;

/// How many packets may wait: as many as a writer holds.
pub const PENDING: usize = 128;

/// How many nodes a chain may have, this one among them.
pub const NODES: u64 = 8;

/// One node, alone or the first of at most `most`. `bytes` holds the kept bytes and then those of the pending packets, in their order; it never grows past `limit`.
#[derive(Drop)]
pub struct Spool {
    pub(crate) bytes: Vec<u8>,
    pub(crate) pending: VecDeque<Pending>,
    // How many of `bytes` are confirmed: a confirmation copies nothing.
    pub(crate) kept: usize,
    pub(crate) limit: usize,
    pub(crate) most: u64,
    pub(crate) nodes: u64,
    pub(crate) chunk: u32,
    ghost adds: { kept + total pending.items ≡ vec_len bytes },
    ghost room: { limit ≤ vec_capacity bytes },
    ghost places: { 128 ≤ deque_capacity pending },
    ghost few: { most ≤ 8 },
    ghost fewer: { nodes ≤ 8 },
    ghost widths: { numbered pending.items ≡ true },
}
