//! What is read of an opening, looked at in the order of the refusals, and settled.
ghost use Rattle.std.specs.Prelude.{◌≡◌, ◌+◌, ◌*◌, ◌/◌, ◌^◌, ◌<◌, ◌≤◌, min, length, None, vec_capacity, MatchResult};
ghost use Rattle.proto.specs.Messages.{octets_in};
ghost use Rattle.packet.specs.Sizes.{capacity_of};
ghost use Rattle.writer.specs.Admits.{lengths_of};
ghost use Rattle.writer.specs.Opening.{size_refusal, by_length, by_buffers, capacity_in, open_refusal, stage_for, TermsFor, Fresh, Shut, Started, Starts, Opens};
ghost use Rattle.writer.specs.Settling.{Formed, Settled, SettledSized, Fits};
ghost use Rattle.writer.specs.Views.{view_of};

use crate::admit::Lengths;
use crate::opening::Opening;
use crate::refusal::Refusal;
use crate::state::Writer;
use crate::state::kind::State;
use crate::tables::Tables;
use crate::terms::Terms;
use chain::link::Link;
use held::table::SLOTS;
use packet::size::PacketSize;
use packet::size::settings::SizeError;
use pipeline::nodes::NodeTable;
use pipeline::set_up::SetupRequest;
use proto::block::{ClientOperationHeader, ExtendedBlock};
use proto::fixed::Fixed;
use proto::token::Token;
use replace::datanode::{Policy, ReplaceDatanodeOnFailure};
use request::stage::Stage;
use std::alloc::{AllocError, Global};

/// What was read of an opening besides its datanodes.
#[derive(Clone, Copy)]
pub struct Forms {
    pub(crate) token: Token,
    pub(crate) pool_id: Fixed<64>,
    pub(crate) client_name: Fixed<64>,
}

impl From<SizeError> for Refusal {
    ghost from_gives = { λ error refusal. refusal ≡ size_refusal error };

    fn from(error: SizeError) -> Refusal {
        match error {
            SizeError::Chunk => Refusal::ChunkSize,
            SizeError::Packet => Refusal::PacketSize,
        }
    }
}

// How many slots the store has: as many packets as it holds, and no more than the table has records.
fn slots_in(store_len: usize, capacity: usize) -> usize
    requires { (0 < capacity) × (3 * capacity ≤ store_len) }
    ensures value { result ≡ min 101 (store_len / capacity) }
    ensures bounds { (3 ≤ result) × (result ≤ 101) × (result * capacity ≤ store_len) }
{
    SLOTS.min(store_len / capacity)
}

// What stays of an opening that is not refused.
// The opening has passed each look.
fn terms_for(opening: Opening<'_>, size: PacketSize, forms: Forms, lengths: Lengths) -> Terms
    requires chunk_value { (size.chunk ≡ opening.chunk_size) × (size.packet ≡ opening.packet_size) }
    requires opening_value { (by_length opening ≡ None) × (by_buffers opening lengths ≡ None) }
    requires pool_id_value { (octets_in forms.pool_id ≡ opening.pool_id.now)
        × (octets_in forms.client_name ≡ opening.client_name.now) }
    ensures terms { TermsFor opening.entry lengths result }
    ensures fits { Fits result }
{
    Terms {
        size,
        slots: slots_in(lengths.store, size.capacity()),
        store_len: lengths.store,
        block_size: opening.block_size,
        initial_len: opening.initial_len,
        replication: opening.replication,
        replace: opening.replace,
        pool_id: forms.pool_id,
        block_id: opening.block_id,
        client_name: forms.client_name,
    }
}

impl Tables {
    // Reads the datanodes into their table, and the token and the names; nothing where one of them or the path is not in form.
    // Whatever of these is out of form, there is one refusal for it (`Refusal::Form`).
    fn read_forms(&mut self, opening: Opening<'_>) -> Option<Forms>
        requires { (length opening.infos.now ≤ 8)
            × (length opening.storage_ids.now ≡ length opening.infos.now)
            × (length opening.storage_types.now ≡ length opening.infos.now) }
        ensures { Formed opening.entry self.new.nodes.rows.items result }
    {
        opening.read_nodes(&mut self.nodes)?;
        let token = Token::new(opening.token)?;
        if !opening.has_texts() {
            return None;
        }
        Some(Forms {
            token,
            pool_id: Fixed::try_from(opening.pool_id).ok()?,
            client_name: Fixed::try_from(opening.client_name).ok()?,
        })
    }

    // Looks at the opening in the order of the refusals, and settles what stays.
    pub(crate) fn settle(
        &mut self,
        opening: Opening<'_>,
        lengths: Lengths,
    ) -> Result<(Terms, Token), Refusal>
        ensures { Settled opening.entry lengths self.new.nodes.rows.items result }
    {
        let size = PacketSize::new(opening.chunk_size, opening.packet_size)?;
        self.settle_sized(opening, size, lengths)
    }

    // The sizes stand beside the opening that they were accepted of: a struct of both would be made for this one step.
    fn settle_sized(
        &mut self,
        opening: Opening<'_>,
        size: PacketSize,
        lengths: Lengths,
    ) -> Result<(Terms, Token), Refusal>
        requires { (size.chunk ≡ opening.chunk_size) × (size.packet ≡ opening.packet_size) }
        ensures { SettledSized opening.entry lengths self.new.nodes.rows.items result }
    {
        opening.by_length()?;
        opening.by_count()?;
        let forms = self.read_forms(opening).ok_or(Refusal::Form)?;
        opening.by_buffers(size, lengths)?;
        Ok((terms_for(opening, size, forms, lengths), forms.token))
    }
}
