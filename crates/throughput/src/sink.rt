//! A link that takes every frame, answers for each in turn, and keeps nothing.
use ack::write::write_ack;
use chain::link::{Link, LinkLost};
use proto::datanode::Datanode;

/// A link whose set ups and copies are those of `inner`, and which takes every frame and answers for each in turn.
#[derive(Drop)]
pub struct Sink<C> {
    inner: C,
    taken: u64,
    answered: u64,
}

impl<C> Sink<C> {
    pub fn over(inner: C) -> Sink<C> {
        Sink {
            inner,
            taken: 0,
            answered: 0,
        }
    }
}

// Nothing is said of what it puts and answers: what is measured makes no promise.
impl<C: Link> Link for Sink<C> {
    ghost sets = { λ a node request least came b.
        C.Link.sets a.inner node request least came b.inner };

    ghost puts = { λ a frame taken b. Unit {0} };

    ghost nexts = { λ a came b. Unit {0} };

    ghost transfers = { λ a node request came b.
        C.Link.transfers a.inner node request came b.inner };

    fn set_up(
        &mut self,
        node: &Datanode,
        request: &[u8],
        least: u64,
        answer: &mut [u8],
    ) -> Result<usize, LinkLost> {
        self.inner.set_up(node, request, least, answer)
    }

    fn put(&mut self, _frame: &[u8]) -> Result<(), LinkLost> {
        self.taken = self.taken.saturating_add(1);
        Ok(())
    }

    fn next(&mut self, answer: &mut [u8]) -> Result<Option<usize>, LinkLost> {
        if self.answered >= self.taken {
            return Ok(None);
        }
        let len = write_ack(answer, self.answered, &[0, 0, 0]).ok_or(LinkLost)?;
        self.answered = self.answered.saturating_add(1);
        Ok(Some(len))
    }

    fn transfer(
        &mut self,
        node: &Datanode,
        request: &[u8],
        answer: &mut [u8],
    ) -> Result<usize, LinkLost> {
        self.inner.transfer(node, request, answer)
    }
}
