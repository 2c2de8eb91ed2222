//! The writer itself.
ghost use Rattle.std.specs.Prelude.{◌≡◌, ℕ, ◌+◌, ◌*◌, ◌^◌, ◌<◌, ◌≤◌, true, vec_len, vec_capacity, slice_index};
ghost use Rattle.held.specs.Slots.{sizes_of, total};
ghost use Rattle.writer.specs.Sizes.{capacity, room_at};
ghost use Rattle.ack.specs.Failures.{IsTallied};
ghost use Rattle.writer.specs.States.{ended, last_ones, failed_on};

use crate::cause::Cause;
use crate::terms::Terms;
use held::table::HeldTable;
use pipeline::nodes::NodeTable;
use proto::token::Token;

pub mod kind;

use kind::State;

/// The writer of one block. `held` has a record for each slot; the packets held have the numbers from `first` on, `count` of them, with
/// `waiting` bytes in all, and the packet being filled is the one behind them. The other tables of datanodes are room for a recovery.
#[derive(Drop)]
// A packet's number says by one remainder which record and which slot it has.
pub struct Writer {
    pub(crate) terms: Terms,
    pub(crate) held: HeldTable,
    pub(crate) nodes: NodeTable,
    pub(crate) chosen: NodeTable,
    pub(crate) gone: NodeTable,
    pub(crate) offered: NodeTable,
    pub(crate) state: State,
    pub(crate) stamp: u64,
    pub(crate) token: Token,
    /// How many bytes the block has, with those that are held and being filled.
    pub(crate) len: u64,
    pub(crate) first: u64,
    pub(crate) count: usize,
    pub(crate) waiting: u64,
    pub(crate) filling: usize,
    /// When the pipeline was last set up or a heartbeat put.
    pub(crate) beaten: u64,
    ghost shape: { (3 ≤ terms.slots) × (terms.slots ≤ 101)
        × (terms.slots * capacity terms ≤ terms.store_len) },
    ghost room: { count < terms.slots },
    ghost fits: { filling ≤ room_at terms (first + count) },
    ghost small: { (i : ℕ) → slice_index (sizes_of held.records.items) i ≤ capacity terms },
    ghost sums: { waiting ≡ total terms.slots (sizes_of held.records.items) count first },
    ghost numbers: { first + count + filling + terms.initial_len ≤ len + last_ones state },
    ghost ends: { waiting + filling ≤ len },
    ghost limit: { (len ≤ terms.block_size) × (terms.block_size < 2 ^ 63) },
    ghost done: { ended state ≡ true → filling ≡ 0 },
    ghost tallied: { IsTallied (failed_on state) },
    ghost few: { (vec_len nodes.rows ≤ 8) × (vec_len chosen.rows ≤ 8) },
    ghost widths: { (stamp < 2 ^ 64) × (terms.block_id < 2 ^ 64) },
}

impl Writer {
    ghost use Rattle.writer.specs.Views.{view_of};

    /// What the writer is in the midst of, and what broke its pipeline. Nothing is done.
    pub fn state(&self) -> State
        ensures { result ≡ (view_of self.now).state }
    {
        self.state
    }
}
