//! The fields of the messages that come from outside.
use crate::form::{Kind, Rule};

// Tables of constants: each row is a field of its own, with its tag, its kind and whether it has to be there.

/// `DatanodeIDProto`: ipAddr, hostName, datanodeUuid, xferPort, infoPort, ipcPort, infoSecurePort.
pub(crate) const DATANODE_ID: [Rule; 7] = [
    Rule {
        tag: 1,
        kind: Kind::Text,
        required: true,
    },
    Rule {
        tag: 2,
        kind: Kind::Text,
        required: true,
    },
    Rule {
        tag: 3,
        kind: Kind::Text,
        required: true,
    },
    Rule {
        tag: 4,
        kind: Kind::Uint32,
        required: true,
    },
    Rule {
        tag: 5,
        kind: Kind::Uint32,
        required: true,
    },
    Rule {
        tag: 6,
        kind: Kind::Uint32,
        required: true,
    },
    Rule {
        tag: 7,
        kind: Kind::Uint32,
        required: false,
    },
];

/// `DatanodeInfoProto`: id, capacity, dfsUsed, remaining, blockPoolUsed, lastUpdate, xceiverCount, location, nonDfsUsed, adminState,
/// cacheCapacity, cacheUsed, lastUpdateMonotonic, upgradeDomain, lastBlockReportTime, lastBlockReportMonotonic, numBlocks.
pub(crate) const DATANODE_INFO: [Rule; 17] = [
    Rule {
        tag: 1,
        kind: Kind::Bytes,
        required: true,
    },
    Rule {
        tag: 2,
        kind: Kind::Uint64,
        required: false,
    },
    Rule {
        tag: 3,
        kind: Kind::Uint64,
        required: false,
    },
    Rule {
        tag: 4,
        kind: Kind::Uint64,
        required: false,
    },
    Rule {
        tag: 5,
        kind: Kind::Uint64,
        required: false,
    },
    Rule {
        tag: 6,
        kind: Kind::Uint64,
        required: false,
    },
    Rule {
        tag: 7,
        kind: Kind::Uint32,
        required: false,
    },
    Rule {
        tag: 8,
        kind: Kind::Text,
        required: false,
    },
    Rule {
        tag: 9,
        kind: Kind::Uint64,
        required: false,
    },
    Rule {
        tag: 10,
        kind: Kind::Int32,
        required: false,
    },
    Rule {
        tag: 11,
        kind: Kind::Uint64,
        required: false,
    },
    Rule {
        tag: 12,
        kind: Kind::Uint64,
        required: false,
    },
    Rule {
        tag: 13,
        kind: Kind::Uint64,
        required: false,
    },
    Rule {
        tag: 14,
        kind: Kind::Text,
        required: false,
    },
    Rule {
        tag: 15,
        kind: Kind::Uint64,
        required: false,
    },
    Rule {
        tag: 16,
        kind: Kind::Uint64,
        required: false,
    },
    Rule {
        tag: 17,
        kind: Kind::Uint32,
        required: false,
    },
];

/// `TokenProto`: identifier, password, kind, service.
pub(crate) const TOKEN: [Rule; 4] = [
    Rule {
        tag: 1,
        kind: Kind::Bytes,
        required: true,
    },
    Rule {
        tag: 2,
        kind: Kind::Bytes,
        required: true,
    },
    Rule {
        tag: 3,
        kind: Kind::Text,
        required: true,
    },
    Rule {
        tag: 4,
        kind: Kind::Text,
        required: true,
    },
];
