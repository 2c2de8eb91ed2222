//! A whole run as data, and its performance.
use crate::action::Action;
use crate::agree::{ActionNumber, agree};
use crate::buffers::{LEAST, unwritten};
use crate::end::End;
use crate::field::{Field, with_fields};
use crate::link::{Instead, TestLink};
use crate::nodes::Nodes;
use crate::run::Run;
use crate::sample::{B, D, node, opening, token};
use crate::test_namenode::{HasEntry, TestNamenode};
use bench::state::Bench;
use pool::memory::{House, Pool};
use spool::state::Spool;
use std::alloc::{AllocError, Global};
use std::process::Abort;
use std::test::Fail;
use writer::admit::Lengths;
use writer::refusal::Refusal;

/// A run: what the block is opened with, the actions one after another, and what they come to.
#[derive(Clone, Copy)]
pub struct Case<'a> {
    /// How many datanodes the block has, of the five that there are.
    pub nodes: usize,
    /// What else the opening is given.
    pub fields: &'a [Field],
    /// The bytes that the datanodes keep of the block before.
    pub kept: &'static [u8],
    pub lengths: Lengths,
    pub namenode: Namenodes,
    /// What the opening's set up comes to, where it is not what the chain answers.
    pub set_up: Option<Instead>,
    /// The number that the opening is refused with, or 0; and the refusal, where the case says more than its number.
    pub opened: u8,
    pub why: Option<Refusal>,
    pub actions: &'a [Action],
    pub end: End,
}

/// A namenode at a stamp, whose token is in form or not; or one that has one datanode to offer, whoever is left.
#[derive(Clone, Copy)]
pub enum Namenodes {
    House(u64, bool),
    /// With b and d to spare.
    Pool(bool),
    Test(TestNamenode),
}

/// A new block on two datanodes, with a store of five packets of four bytes each, and no action.
pub const CASE: Case<'static> = Case {
    nodes: 2,
    fields: &[],
    kept: b"",
    lengths: Lengths { store: 20, ..LEAST },
    namenode: Namenodes::House(1001, true),
    set_up: None,
    opened: 0,
    why: None,
    actions: &[],
    end: End::Open,
};

// These bytes, with room for 1024 in all.
fn roomy(heap: Global, kept: &[u8]) -> Result<Vec<u8>, AllocError> {
    let mut bytes = Vec::with_capacity(heap, 1024)?;
    bytes.extend_from_slice(kept)?;
    Ok(bytes)
}

fn house(heap: Global, stamp: u64, in_form: bool) -> Result<House, Fail> {
    Ok(House::new(heap, stamp, 0, &[], token(in_form)?)?)
}

fn pool(heap: Global, in_form: bool) -> Result<Pool, Fail> {
    let spares = [node(B)?, node(D)?];
    Ok(Pool::new(heap, 1001, 0, &[], token(in_form)?, &spares)?)
}

// Opens the block over a chain, plays the actions, and looks at the end.
fn perform<C: Nodes + Drop, N: HasEntry>(
    rt: &impl Abort,
    heap: Global,
    i: usize,
    case: &Case<'_>,
    chain: C,
    namenode: &mut N,
) -> Result<(), Fail> {
    let link = TestLink::over(heap, chain, case.set_up);
    let block = with_fields(opening(case.nodes), case.fields);
    let (mut run, opened) = Run::open(heap, block, link, unwritten(heap, case.lengths)?)?;
    case.is_opened(rt, i, opened.err());
    run.play(rt, namenode, i, case.actions)?;
    case.end.comes(rt, run, namenode)
}

impl Case<'_> {
    // The opening came to what it had to. It has no number among the actions, so it is told as the first.
    fn is_opened(&self, rt: &impl Abort, i: usize, refusal: Option<Refusal>) {
        let number = ActionNumber { case: i, action: 0 };
        agree(rt, number, &refusal.map_or(0, u8::from), &self.opened);
        if self.why.is_some() {
            agree(rt, number, &refusal, &self.why);
        }
    }

    // Performs the run, which is that one of its test, over a bench.
    fn performs_as(&self, rt: &impl Abort, heap: Global, i: usize) -> Result<(), Fail> {
        let bench = Bench::over(heap, roomy(heap, self.kept)?)?;
        match self.namenode {
            Namenodes::House(stamp, in_form) => {
                let mut house = house(heap, stamp, in_form)?;
                perform(rt, heap, i, self, bench, &mut house)
            }
            Namenodes::Pool(in_form) => {
                let mut pool = pool(heap, in_form)?;
                perform(rt, heap, i, self, bench, &mut pool)
            }
            Namenodes::Test(namenode) => {
                let mut namenode = namenode;
                perform(rt, heap, i, self, bench, &mut namenode)
            }
        }
    }

    /// Performs the run over a bench.
    pub fn performs(&self, rt: &impl Abort, heap: Global) -> Result<(), Fail> {
        self.performs_as(rt, heap, 0)
    }

    /// Performs the run over a spool, with a house.
    pub fn performs_on_spool(&self, rt: &impl Abort, heap: Global) -> Result<(), Fail> {
        let spool = Spool::over(heap, roomy(heap, self.kept)?, 1)?;
        let mut house = house(heap, 1001, true)?;
        perform(rt, heap, 0, self, spool, &mut house)
    }
}

/// Performs these runs over benches, one after another.
pub fn perform_all(rt: &impl Abort, heap: Global, cases: &[Case<'_>]) -> Result<(), Fail> {
    for (i, case) in cases.iter().enumerate() {
        case.performs_as(rt, heap, i)?;
    }
    Ok(())
}
