//! A link over another one, which notes what it is sent and fails where a test wants it to.
ghost use Rattle.std.specs.Prelude.{◌≡◌, Ok, Err};
ghost use Rattle.chain.specs.Acts.{Front, Replied};

use chain::link::{Link, LinkLost};
use packet::read::read_frame;
use proto::datanode::Datanode;
use request::setup::Setup;
use std::alloc::Global;

/// A frame that was put: its packet, by its data's length, and whether it was taken.
#[derive(Clone, Copy, Debug, PartialEq, Eq)]
pub struct Put {
    pub offset: u64,
    pub seqno: u64,
    pub len: usize,
    pub last: bool,
    pub taken: bool,
}

/// A packet with data, which was taken. A test writes its places and its length over these.
pub const DATA: Put = Put {
    offset: 0,
    seqno: 0,
    len: 0,
    last: false,
    taken: true,
};

/// The block's empty last packet, which was taken.
pub const LAST: Put = Put { last: true, ..DATA };

/// What comes in place of a response or an answer.
#[derive(Clone, Copy)]
pub enum Instead {
    Lost,
    Octets(&'static [u8]),
}

/// A link that goes on to `inner`, but where something is to come instead. It means nothing of its own, so its acts say nothing: a test looks
/// at what came.
#[derive(Drop)]
pub struct TestLink<L> {
    pub inner: L,
    /// The frames since a test last cleared them.
    pub puts: Vec<Put>,
    /// The last set up that was asked for.
    pub setup: Option<Setup>,
    /// The ips of the datanodes that set ups and transfers were sent to, in turn.
    pub asked: Vec<u8>,
    /// So many frames are put before one is lost.
    lost_put: Option<usize>,
    set_up: Option<Instead>,
    next: Option<Instead>,
    transfer: Option<Instead>,
}

// Octets at the front of `answer`, where they fit.
fn place(octets: &[u8], answer: &mut [u8]) -> Result<usize, LinkLost>
    ensures { elim result [
      | Ok n ↦ Front octets.now answer.old answer.new n
      | Err _ ↦ answer.new ≡ answer.old
    ] }
{
    let len = octets.len();
    if len > answer.len() {
        return Err(LinkLost);
    }
    answer[0..len].copy_from_slice(octets);
    Ok(len)
}

impl Instead {
    // Comes in place of a response.
    fn place(self, answer: &mut [u8]) -> Result<usize, LinkLost>
        ensures { Replied (λ _. Unit {0}) answer.old answer.new result }
    {
        match self {
            Instead::Lost => Err(LinkLost),
            Instead::Octets(octets) => place(octets, answer),
        }
    }
}

impl<L: Link> TestLink<L> {
    /// Over `inner`, with what the first set up comes to, if it is to come instead.
    pub fn over(heap: Global, inner: L, set_up: Option<Instead>) -> TestLink<L> {
        TestLink {
            inner,
            puts: Vec::new(heap),
            setup: None,
            asked: Vec::new(heap),
            lost_put: None,
            set_up,
            next: None,
            transfer: None,
        }
    }

    /// One frame is lost, after so many more.
    pub fn lose_put_after(&mut self, frames: usize) {
        self.lost_put = Some(frames);
    }

    /// What the next set up comes to.
    pub fn on_set_up(&mut self, instead: Instead) {
        self.set_up = Some(instead);
    }

    /// What comes when the next answer is asked for.
    pub fn on_next(&mut self, instead: Instead) {
        self.next = Some(instead);
    }

    /// What the next transfer comes to.
    pub fn on_transfer(&mut self, instead: Instead) {
        self.transfer = Some(instead);
    }

    // Whether the frame that is put now is lost.
    fn loses_put(&mut self) -> bool {
        let lost = self.lost_put == Some(0);
        self.lost_put = self.lost_put.and_then(|left| left.checked_sub(1));
        lost
    }

    // Notes a frame.
    fn note(&mut self, frame: &[u8], taken: bool) {
        if let Some(read) = read_frame(frame) {
            let _ = self.puts.push(Put {
                offset: read.packet.offset,
                seqno: read.packet.seqno,
                len: read.packet.data.len(),
                last: read.packet.last,
                taken,
            });
        }
    }
}

impl<L: Link> Link for TestLink<L> {
    ghost sets = { λ _ _ _ _ _ _. Unit {0} };

    ghost puts = { λ _ _ _ _. Unit {0} };

    ghost nexts = { λ _ _ _. Unit {0} };

    ghost transfers = { λ _ _ _ _ _. Unit {0} };

    fn set_up(
        &mut self,
        node: &Datanode,
        request: &[u8],
        least: u64,
        answer: &mut [u8],
    ) -> Result<usize, LinkLost> {
        self.setup = Setup::read(request);
        let _ = self.asked.extend_from_slice(node.ip_addr());
        match self.set_up.take() {
            Some(instead) => instead.place(answer),
            None => self.inner.set_up(node, request, least, answer),
        }
    }

    fn put(&mut self, frame: &[u8]) -> Result<(), LinkLost> {
        let put = if self.loses_put() {
            Err(LinkLost)
        } else {
            self.inner.put(frame)
        };
        self.note(frame, put.is_ok());
        put
    }

    fn next(&mut self, answer: &mut [u8]) -> Result<Option<usize>, LinkLost> {
        match self.next.take() {
            Some(instead) => Ok(Some(instead.place(answer)?)),
            None => self.inner.next(answer),
        }
    }

    fn transfer(
        &mut self,
        node: &Datanode,
        request: &[u8],
        answer: &mut [u8],
    ) -> Result<usize, LinkLost> {
        let _ = self.asked.extend_from_slice(node.ip_addr());
        match self.transfer.take() {
            Some(instead) => instead.place(answer),
            None => self.inner.transfer(node, request, answer),
        }
    }
}
