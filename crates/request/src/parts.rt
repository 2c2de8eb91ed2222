//! The two requests' messages, part by part.
ghost use Rattle.std.specs.Prelude.{◌≡◌};
ghost use Rattle.request.specs.Requests.{construction_fields, construction_of, storage_fields, write_fields, transfer_fields};

use crate::stage::Stage;
use crate::targets::{TargetInfo, TargetStorageId, TargetStorageType};
use crate::transfer_block::TransferBlock;
use crate::write_block::WriteBlock;
use proto::datanode::Datanode;
use wire::encode::{Bytes, Each, Message, Nested, Then, Uint};
use wire::row::ByField;

/// `CHECKSUM_CRC32C` of `ChecksumTypeProto`.
const CHECKSUM_CRC32C: u64 = 2;

// `stage` to `requestedChecksum` of a pipeline to be set up.
#[derive(Clone, Copy)]
struct Construction {
    stage: Stage,
    pipeline_size: u64,
    min_bytes: u64,
    max_bytes: u64,
    latest_stamp: u64,
}

// A macro, as those below: a function that answers `impl Trait` gets no proof, and the type of the parts by its name is as long as they are.
macro_rules! construction_parts {
    ($it:expr) => {
        Then(
            Uint { tag: 4, value: u64::from($it.stage) },
            Then(
                Uint { tag: 5, value: $it.pipeline_size },
                Then(
                    Uint { tag: 6, value: $it.min_bytes },
                    Then(Uint { tag: 7, value: $it.max_bytes }, Uint { tag: 8, value: $it.latest_stamp }),
                ),
            ),
        )
    };
}

impl Message for Construction {
    ghost fields = { construction_fields };

    fn encoded_len(&self) -> usize {
        construction_parts!(self).encoded_len()
    }

    fn encode(&self, out: &mut [u8]) {
        construction_parts!(self).encode(out)
    }
}

// The storages of a pipeline's datanodes.
#[derive(Clone, Copy)]
struct Storages<'a> {
    first: &'a Datanode,
    targets: &'a [Datanode],
}

macro_rules! storage_parts {
    ($it:expr) => {
        Then(
            Uint { tag: 11, value: u64::from($it.first.storage_type()) },
            Then(
                Each { rows: $it.targets, by: ByField(TargetStorageType) },
                Then(
                    Bytes { tag: 16, bytes: $it.first.storage_id() },
                    Each { rows: $it.targets, by: ByField(TargetStorageId) },
                ),
            ),
        )
    };
}

impl<'a> Message for Storages<'a> {
    ghost fields = { storage_fields };

    fn encoded_len(&self) -> usize {
        storage_parts!(self).encoded_len()
    }

    fn encode(&self, out: &mut [u8]) {
        storage_parts!(self).encode(out)
    }
}

impl<'a> WriteBlock<'a> {
    fn construction(&self) -> Construction
        ensures { result ≡ construction_of self.now }
    {
        Construction {
            stage: self.stage,
            pipeline_size: self.targets.len() as u64 + 1,
            min_bytes: self.min_bytes,
            max_bytes: self.max_bytes,
            latest_stamp: self.latest_stamp,
        }
    }
}

macro_rules! write_parts {
    ($request:expr) => {
        Then(
            Nested { tag: 1, message: $request.header },
            Then(
                Each { rows: $request.targets, by: ByField(TargetInfo) },
                Then(
                    $request.construction(),
                    Then(
                        Nested {
                            tag: 9,
                            message: Then(
                                Uint { tag: 1, value: CHECKSUM_CRC32C },
                                Uint { tag: 2, value: u64::from($request.chunk_size) },
                            ),
                        },
                        Storages { first: $request.first, targets: $request.targets },
                    ),
                ),
            ),
        )
    };
}

impl<'a> Message for WriteBlock<'a> {
    ghost fields = { write_fields };

    fn encoded_len(&self) -> usize {
        write_parts!(self).encoded_len()
    }

    fn encode(&self, out: &mut [u8]) {
        write_parts!(self).encode(out)
    }
}

macro_rules! transfer_parts {
    ($request:expr) => {
        Then(
            Nested { tag: 1, message: $request.header },
            Then(
                Bytes { tag: 2, bytes: $request.target.info() },
                Uint { tag: 3, value: u64::from($request.target.storage_type()) },
            ),
        )
    };
}

impl<'a> Message for TransferBlock<'a> {
    ghost fields = { transfer_fields };

    fn encoded_len(&self) -> usize {
        transfer_parts!(self).encoded_len()
    }

    fn encode(&self, out: &mut [u8]) {
        transfer_parts!(self).encode(out)
    }
}
