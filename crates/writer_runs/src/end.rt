//! What a run comes to.
use crate::nodes::Nodes;
use crate::run::Run;
use crate::test_namenode::HasEntry;
use pool::entry::BlockEntry;
use proto::block::ExtendedBlock;
use std::process::Abort;
use std::test::Fail;
use writer::refusal::Refusal;

/// What is to be so when the actions are done, and the writer is given up.
#[derive(Clone, Copy)]
pub enum End {
    /// Nothing more.
    Open,
    /// The block is complete: the first datanode keeps these bytes, and the record has the block's names, their number and this stamp.
    Record(&'static [u8], u64),
    /// The block is complete, and each datanode keeps these bytes; the namenode has it at the record's stamp, on the datanodes of these ips.
    Complete(&'static [u8], &'static [u8]),
    /// There is no record, and so many packets are held.
    Incomplete(usize),
}

/// Whether the namenode has the block on the datanodes of these ips, in this order.
pub fn is_on(entry: BlockEntry<'_>, ips: &[u8]) -> bool {
    let mut nodes = entry.nodes.iter().zip(ips);
    entry.nodes.len() == ips.len() && nodes.all(|(node, ip)| node.ip_addr() == [*ip].as_slice())
}

// The record has the block's names, this stamp and the number of these bytes, and the first datanode keeps them.
fn is_record<C: Nodes>(
    rt: &impl Abort,
    record: ExtendedBlock,
    chain: &C,
    bytes: &[u8],
    stamp: u64,
) {
    assert!(rt; record.pool_id.as_slice() == b"BP-1".as_slice());
    assert_eq!(rt;
        (record.block_id, record.generation_stamp, record.num_bytes),
        (7, stamp, bytes.len() as u64)
    );
    assert_eq!(rt; chain.kept(), bytes);
    assert_eq!(rt; chain.pending(), 0);
}

// There is a datanode for each of these ips, and the namenode has the block on them; those behind the first one keep these bytes too.
fn is_everywhere<C: Nodes>(
    rt: &impl Abort,
    chain: &C,
    entry: BlockEntry<'_>,
    bytes: &[u8],
    ips: &[u8],
) {
    assert!(rt;
        is_on(entry, ips),
        "the namenode's datanodes are not these {}",
        ips.len()
    );
    let replicas = chain.replicas();
    assert_eq!(rt; replicas, ips.len().saturating_sub(1));
    for i in 0..replicas {
        assert!(rt; chain.replica(i) == Some(bytes), "replica {i}");
    }
}

impl End {
    /// Gives the writer up, and looks at what there is then.
    pub fn comes<C: Nodes + Drop, N: HasEntry>(
        self,
        rt: &impl Abort,
        run: Run<C>,
        namenode: &N,
    ) -> Result<(), Fail> {
        let (closed, chain) = run.close();
        match self {
            End::Open => {}
            End::Record(bytes, stamp) => is_record(rt, closed?, &chain, bytes, stamp),
            End::Complete(bytes, ips) => {
                let entry = namenode.entry();
                is_record(rt, closed?, &chain, bytes, entry.stamp);
                is_everywhere(rt, &chain, entry, bytes, ips);
            }
            End::Incomplete(held) => {
                let refusal = Refusal::Incomplete(held);
                assert_eq!(rt; closed.err(), Some(refusal));
                assert_eq!(rt; u8::from(refusal), 27);
            }
        }
        Ok(())
    }
}
