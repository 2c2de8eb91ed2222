//! What every call looks at first: the writer's state, and the lengths of the four buffers.
ghost use Rattle.std.specs.Prelude.{◌≡◌, ◌&&◌, nat_le};
ghost use Rattle.packet.specs.Sizes.{frame_capacity_of};
ghost use Rattle.std.specs.Result.{result_err};
ghost use Rattle.writer.specs.Views.{view_of};
ghost use Rattle.writer.specs.Admits.{by_state, by_room, refusal_for, lengths_of};

use crate::refusal::Refusal;
use crate::state::Writer;
use crate::state::kind::State;
use crate::terms::Terms;
use packet::size::PacketSize;
use pipeline::write_request::REQUEST_ROOM;

/// The calls that act on an open writer. No function is chosen by it: it says which refusals there are.
#[derive(Clone, Copy)]
pub enum Call {
    Write,
    Heed,
    Beat,
    Finish,
    Recover,
}

/// The lengths of the four buffers.
#[derive(Clone, Copy)]
pub struct Lengths {
    pub store: usize,
    pub frame: usize,
    pub request: usize,
    pub answer: usize,
}

impl Lengths {
    pub(crate) fn of(store: &[u8], frame: &[u8], request: &[u8], answer: &[u8]) -> Lengths
        ensures { result ≡ lengths_of store.now frame.now request.now answer.now }
    {
        Lengths {
            store: store.len(),
            frame: frame.len(),
            request: request.len(),
            answer: answer.len(),
        }
    }

    /// Whether the frame's buffer holds every frame, and the two others every message.
    pub(crate) fn suffices(self, size: PacketSize) -> bool
        ensures { result ≡ nat_le (frame_capacity_of 4 size.chunk size.packet) self.frame
            && (nat_le 4096 self.request && nat_le 4096 self.answer) }
    {
        self.frame >= size.frame_capacity()
            && self.request >= MESSAGE_LEN
            && self.answer >= MESSAGE_LEN
    }
}

/// So many octets hold every request and every response that is asked for.
pub const MESSAGE_LEN: usize = REQUEST_ROOM;

// Whether the call fits the writer's state.
fn by_state(state: State, call: Call) -> Result<(), Refusal>
    ensures { result_err result ≡ by_state state call }
{
    match (state, call) {
        (State::Closed, _) => Err(Refusal::Closed),
        (State::Complete, _) => Err(Refusal::Complete),
        (State::Streaming | State::Finishing, Call::Recover) => Err(Refusal::Whole),
        (State::Broken { .. }, Call::Recover) => Ok(()),
        (State::Broken { .. }, _) => Err(Refusal::Broken),
        (State::Finishing, Call::Heed) => Ok(()),
        (State::Finishing, _) => Err(Refusal::Finished),
        (State::Streaming, _) => Ok(()),
    }
}

impl Terms {
    // Whether the store is the one that the block was opened with, and the other buffers suffice.
    fn by_room(&self, lengths: Lengths) -> Result<(), Refusal>
        ensures { result_err result ≡ by_room self.now lengths }
    {
        if lengths.store != self.store_len {
            return Err(Refusal::Store);
        }
        if !lengths.suffices(self.size) {
            return Err(Refusal::Buffer);
        }
        Ok(())
    }
}

impl Writer {
    /// Whether a call is to be acted on.
    pub(crate) fn admit(&self, call: Call, lengths: Lengths) -> Result<(), Refusal>
        ensures { result_err result ≡ refusal_for (view_of self.now) call lengths }
    {
        by_state(self.state, call)?;
        self.terms.by_room(lengths)
    }
}
