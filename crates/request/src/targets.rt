//! The datanodes after the first of a pipeline, as repeated fields of a request.
ghost use Rattle.std.specs.Prelude.{ℕ};
ghost use Rattle.wire.specs.Fields.{varint, part};
ghost use Rattle.proto.specs.Messages.{octets_in, info_of};

use proto::datanode::Datanode;
use wire::encode::{Bytes, OneField, Uint};
use wire::row::RowField;

/// `targets`: each datanode.
#[derive(Clone, Copy)]
pub struct TargetInfo;

impl RowField<Datanode> for TargetInfo {
    ghost field = { λ d. part 2 (info_of d) };

    fn field_of(row: &Datanode) -> OneField<'_> {
        OneField::Bytes(Bytes {
            tag: 2,
            bytes: row.info(),
        })
    }
}

/// `targetStorageTypes`: the type of each datanode's storage.
#[derive(Clone, Copy)]
pub struct TargetStorageType;

impl RowField<Datanode> for TargetStorageType {
    ghost field = { λ d. varint 12 d.storage_type };

    fn field_of(row: &Datanode) -> OneField<'_> {
        OneField::Uint(Uint {
            tag: 12,
            value: u64::from(row.storage_type()),
        })
    }
}

/// `targetStorageIds`: the name of each datanode's storage.
#[derive(Clone, Copy)]
pub struct TargetStorageId;

impl RowField<Datanode> for TargetStorageId {
    ghost field = { λ d. part 17 (octets_in d.storage_id) };

    fn field_of(row: &Datanode) -> OneField<'_> {
        OneField::Bytes(Bytes {
            tag: 17,
            bytes: row.storage_id(),
        })
    }
}
