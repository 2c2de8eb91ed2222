//! The datanodes of a pipeline, each by its letter, in order.
use crate::cluster::letter;
use ack::tally::FailedNodes;
use namenode::protocol::NamenodeProtocol;
use proto::datanode::Datanode;

const PLACES: usize = 8;

#[derive(Clone, Copy, PartialEq, Eq)]
pub struct Nodes {
    letters: [u8; PLACES],
    len: usize,
}

impl Nodes {
    fn none() -> Nodes {
        Nodes {
            letters: [0; PLACES],
            len: 0,
        }
    }

    /// The first ones, from a on.
    pub fn first(count: usize) -> Nodes {
        let mut nodes = Nodes::none();
        for letter in (b'a'..).take(count) {
            nodes.push(letter);
        }
        nodes
    }

    fn push(&mut self, letter: u8) {
        if let Some(place) = self.letters.get_mut(self.len) {
            *place = letter;
            self.len = self.len.saturating_add(1);
        }
    }

    pub fn len(&self) -> usize {
        self.len
    }

    pub fn at(&self, position: usize) -> Option<u8> {
        self.letters
            .get(position)
            .copied()
            .filter(|_| position < self.len)
    }

    pub fn has(&self, letter: u8) -> bool {
        self.letters.iter().take(self.len).any(|own| *own == letter)
    }

    /// Those that are left.
    pub fn without(&self, failed: FailedNodes) -> Nodes {
        let mut left = Nodes::none();
        let nodes = self
            .letters
            .iter()
            .take(self.len)
            .zip(failed.positions.iter());
        for (letter, failed) in nodes {
            if !*failed {
                left.push(*letter);
            }
        }
        left
    }

    /// The datanodes of the list that a namenode offered last.
    pub fn offered<N: NamenodeProtocol>(namenode: &N) -> Nodes {
        let mut nodes = Nodes::none();
        for position in 0..namenode.offered_len().min(PLACES) {
            if let Some(letter) = namenode.offered(position).and_then(|row| letter(row.info)) {
                nodes.push(letter);
            }
        }
        nodes
    }

    /// The datanodes of a namenode's entry.
    pub fn of(entry: &[Datanode]) -> Nodes {
        let mut nodes = Nodes::none();
        for node in entry {
            if let Some(letter) = letter(node.info()) {
                nodes.push(letter);
            }
        }
        nodes
    }
}
