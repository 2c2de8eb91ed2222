//! What a test looks at between two calls.
use crate::action::Look;
use crate::agree::{ActionNumber, agree};
use crate::buffers::are_same;
use crate::end::is_on;
use crate::nodes::Nodes;
use crate::run::Run;
use crate::test_namenode::HasEntry;
use std::process::Abort;

impl<C: Nodes> Run<C> {
    /// What is looked at is as it has to be.
    pub fn look<N: HasEntry>(
        &self,
        rt: &impl Abort,
        namenode: &N,
        number: ActionNumber,
        look: Look,
    ) {
        let link = &self.link;
        match look {
            Look::Stage(stage, least, most) => {
                let stages = link.setup.map(|s| (s.stage, s.min_bytes, s.max_bytes));
                agree(rt, number, &stages, &Some((stage, least, most)));
            }
            Look::SetUp(setup) => agree(rt, number, &link.setup, &Some(setup)),
            Look::Asked(ips) => agree(rt, number, &link.asked.as_slice(), &ips),
            Look::Puts(puts) => agree(rt, number, &link.puts.as_slice(), &puts),
            Look::PutCount(count) => agree(rt, number, &link.puts.len(), &count),
            Look::Pending(count) => agree(rt, number, &link.inner.pending(), &count),
            Look::Kept(bytes) => agree(rt, number, &link.inner.kept(), &bytes),
            Look::On(ips) => agree(rt, number, &is_on(namenode.entry(), ips), &true),
            Look::Entry(stamp, size) => {
                let entry = namenode.entry();
                agree(rt, number, &(entry.stamp, entry.size), &(stamp, size));
            }
            Look::State(state) => agree(rt, number, &self.writer.state(), &state),
            buffers => agree(rt, number, &self.has(buffers), &true),
        }
    }

    // Whether the buffers are as that look wants them.
    fn has(&self, look: Look) -> bool {
        let (buffers, marked) = (&self.buffers, &self.marked);
        match look {
            Look::Same => are_same(buffers, marked),
            Look::SameStore => buffers.store.as_slice() == marked.store.as_slice(),
            Look::SameFrame => buffers.frame.as_slice() == marked.frame.as_slice(),
            Look::Store(front) => buffers.store.starts_with(front),
            Look::Request(front) => buffers.request.starts_with(front),
            Look::Answer(front) => buffers.answer.starts_with(front),
            _ => false,
        }
    }
}
