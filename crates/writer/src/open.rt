//! A block opened: its pipeline set up, and its writer made.
ghost use Rattle.std.specs.Prelude.{◌≡◌, ◌≤◌, false, length, replicate, Ok, Err, IfOk, is_ok};
ghost use Rattle.std.specs.Result.{result_err};
ghost use Rattle.pipeline.specs.Channels.{channel_over, channel_view, SameLoans};
ghost use Rattle.writer.specs.declared.state.kind.State.TheVariants.{Closed};
ghost use Rattle.writer.specs.declared.admit.Lengths.{Lengths};
ghost use Rattle.writer.specs.Admits.{lengths_of};
ghost use Rattle.writer.specs.Opening.{open_refusal, stage_for, TermsFor, Fresh, Shut, Opens, SetsUpFor};
ghost use Rattle.ack.specs.Failures.{IsTallied};
ghost use Rattle.writer.specs.Settling.{Fits};
ghost use Rattle.writer.specs.States.{failed_on};
ghost use Rattle.writer.specs.Views.{view_of};

use crate::admit::Lengths;
use crate::opening::Opening;
use crate::refusal::Refusal;
use crate::state::Writer;
use crate::state::kind::State;
use crate::tables::Tables;
use crate::terms::Terms;
use chain::link::Link;
use packet::size::PacketSize;
use pipeline::channel::Channel;
use pipeline::reply::ReplyError;
use pipeline::set_up::SetupRequest;
use proto::block::{ClientOperationHeader, ExtendedBlock};
use proto::fixed::Fixed;
use proto::token::Token;
use replace::datanode::{Policy, ReplaceDatanodeOnFailure};
use request::stage::Stage;
use std::alloc::{AllocError, Global};

/// What an opening came to: a writer, which is closed where the opening was refused.
#[derive(Drop)]
// A refused opening has a closed writer too, so that each later call has its number.
pub struct Opened {
    pub writer: Writer,
    pub outcome: Result<(), Refusal>,
}

impl Terms {
    // The terms of a block that was never opened: the least there are.
    fn none() -> Terms
        ensures fits { Fits result }
        ensures empty { result.initial_len ≡ 0 }
    {
        Terms {
            size: PacketSize::least(),
            slots: 3,
            store_len: 3,
            block_size: 0,
            initial_len: 0,
            replication: 0,
            replace: ReplaceDatanodeOnFailure::new(Policy::Never, false),
            pool_id: Fixed::empty(),
            block_id: 0,
            client_name: Fixed::empty(),
        }
    }
}

impl Tables {
    // A writer that has taken nothing, on these tables and the datanodes in them.
    // At most eight datanodes: a table has room for eight at the least, and says no more of its rows.
    fn into_writer(self, terms: Terms, token: Token, state: State, stamp: u64, time: u64) -> Writer
        requires fits { Fits terms }
        requires few { length self.nodes.rows.items ≤ 8 }
        requires tallied { IsTallied (failed_on state) }
        ensures { view_of result ≡ record {
          terms = terms;
          state = state;
          stamp = stamp;
          token = token;
          len = terms.initial_len;
          first = 0;
          count = 0;
          filling = 0;
          beaten = time;
          sizes = replicate 101 0;
          nodes = self.nodes.rows.items;
        } }
    {
        let Tables {
            held,
            nodes,
            chosen,
            gone,
            offered,
        } = self;
        Writer {
            terms,
            held,
            nodes,
            chosen,
            gone,
            offered,
            state,
            stamp,
            token,
            len: terms.initial_len,
            first: 0,
            count: 0,
            waiting: 0,
            filling: 0,
            beaten: time,
        }
    }

    // What a refused opening comes to: a writer that is closed, of no block.
    fn refused(self, refusal: Refusal) -> Opened
        ensures closed { Shut (view_of result.writer) }
        ensures why { result.outcome ≡ Err refusal }
    {
        let mut tables = self;
        tables.nodes.clear();
        Opened {
            writer: tables.into_writer(Terms::none(), Token::none(), State::Closed, 0, 0),
            outcome: Err(refusal),
        }
    }

    // What an opening comes to whose pipeline is set up.
    fn accepted(self, opening: Opening<'_>, terms: Terms, token: Token) -> Opened
        requires fits { Fits terms }
        requires few { length self.nodes.rows.items ≤ 8 }
        ensures opened { (lengths : Lengths) → TermsFor opening.entry lengths terms
            → Fresh opening.entry lengths token self.nodes.rows.items (view_of result.writer) }
        ensures well { result.outcome ≡ Ok tt }
    {
        Opened {
            writer: self.into_writer(terms, token, State::Streaming, opening.stamp, opening.time),
            outcome: Ok(()),
        }
    }

    // Sets up the pipeline of the datanodes that were read, with minimum and maximum the bytes that the block has.
    fn set_up<'a, L: Link>(
        &'a self,
        channel: &mut Channel<'_, L>,
        opening: Opening<'_>,
        terms: &'a Terms,
        token: &'a Token,
    ) -> Result<(), ReplyError>
        requires { (1 ≤ length self.now.nodes.rows.items) × (length self.now.nodes.rows.items ≤ 8) }
        ensures same { SameLoans channel.old channel.new }
        ensures acts { SetsUpFor L.Link opening.entry terms.now token.now self.now.nodes.rows.items
            (channel_view channel.old) result (channel_view channel.new) }
    {
        let wanted = SetupRequest {
            header: ClientOperationHeader {
                block: ExtendedBlock {
                    pool_id: terms.pool_id,
                    block_id: opening.block_id,
                    generation_stamp: opening.stamp,
                    num_bytes: opening.initial_len,
                },
                token,
                client_name: &terms.client_name,
            },
            stage: stage_for(opening.initial_len),
            min_bytes: opening.initial_len,
            max_bytes: opening.initial_len,
            latest_stamp: opening.stamp,
            chunk_size: opening.chunk_size,
        };
        channel.set_up(self.nodes.as_slice(), wanted)
    }
}

// A block that has bytes is appended.
fn stage_for(initial_len: u64) -> Stage
    ensures { result ≡ stage_for initial_len }
{
    if initial_len == 0 {
        Stage::SetupCreate
    } else {
        Stage::SetupAppend
    }
}

impl Writer {
    /// Opens a block: looks at what it is opened with, in the order of the refusals, sets the pipeline up, and takes all memory that the
    /// writer ever has. Where that is refused, the writer is closed; where there is no memory, nothing was done.
    pub fn open<L: Link>(
        heap: Global,
        opening: Opening<'_>,
        link: &mut L,
        store: &[u8],
        frame: &[u8],
        request: &mut [u8],
        answer: &mut [u8],
    ) -> Result<Opened, AllocError>
        ensures opened { let lengths = lengths_of store.now frame.now request.old answer.old in
            IfOk result (λ x.
            Opens L.Link (open_refusal opening.entry lengths) opening.entry lengths
            (channel_over link.entry.now request.old answer.old)
            (result_err x.outcome) (view_of x.writer)
            (channel_over link.exit.now request.new answer.new)) }
        ensures unmade { is_ok result ≡ false → channel_over link.exit.now request.new answer.new
            ≡ channel_over link.entry.now request.old answer.old }
    {
        let mut tables = Tables::new(heap)?;
        // A refused opening is no `Err` here, since the tables go into the closed writer that is answered with it.
        let (terms, token) = match tables.settle(
            opening,
            Lengths::of(store, frame, request, answer),
        ) {
            Ok(settled) => settled,
            Err(refusal) => return Ok(tables.refused(refusal)),
        };
        let mut channel = Channel {
            link,
            request,
            answer,
        };
        match tables.set_up(&mut channel, opening, &terms, &token) {
            Ok(()) => Ok(tables.accepted(opening, terms, token)),
            Err(why) => Ok(tables.refused(Refusal::SetUp(why))),
        }
    }
}
