//! Requests that set up a pipeline: written by us, and read by us as the far end does.
use crate::error::LineError;
use crate::hex::octets;
use crate::requests::{block_of, is_sent_as, node_of, nodes_of, text_of, token_of};
use proto::block::ClientOperationHeader;
use proto::datanode::Datanode;
use request::setup::Setup;
use request::stage::Stage;
use request::write_block::WriteBlock;
use std::alloc::Global;

// Where a line has what.
const STAGE: usize = 6;

const CHUNK: usize = 10;

const FIRST: usize = 11;

// The number of CRC-32C among the types of checksums.
const CRC32C: u64 = 2;

/// The numbers of a line: `STAGE MIN MAX LATEST CHUNK`.
#[derive(Clone, Copy)]
struct Numbers {
    stage: Stage,
    min_bytes: u64,
    max_bytes: u64,
    latest_stamp: u64,
    chunk_size: u32,
}

fn stage_of(word: &str) -> Result<Stage, LineError> {
    match word {
        "append" => Ok(Stage::SetupAppend),
        "recovery" => Ok(Stage::SetupStreamingRecovery),
        "create" => Ok(Stage::SetupCreate),
        _ => Err(LineError::Form),
    }
}

impl TryFrom<&[&str]> for Numbers {
    type Error = LineError;

    fn try_from(words: &[&str]) -> Result<Numbers, LineError> {
        let [stage, min, max, latest, chunk] = words else {
            return Err(LineError::Form);
        };
        Ok(Numbers {
            stage: stage_of(stage)?,
            min_bytes: min.parse()?,
            max_bytes: max.parse()?,
            latest_stamp: latest.parse()?,
            chunk_size: chunk.parse()?,
        })
    }
}

// Whether the octets are read as a set up by the numbers of the request.
fn reads(request: &[u8], write: &WriteBlock<'_>) -> bool {
    let expected = Setup {
        stage: u64::from(write.stage),
        pipeline_size: write.targets.len() as u64 + 1,
        min_bytes: write.min_bytes,
        max_bytes: write.max_bytes,
        latest_stamp: write.latest_stamp,
        stamp: write.header.block.generation_stamp,
        checksum_type: CRC32C,
        chunk_size: u64::from(write.chunk_size),
    };
    Setup::read(request) == Some(expected)
}

// Whether the set up of that pipeline, of at most eight datanodes, is requested by these octets.
fn both_ways<'a>(
    header: ClientOperationHeader<'a>,
    numbers: Numbers,
    first: &'a Datanode,
    targets: &'a [Datanode],
    request: &[u8],
) -> bool {
    if targets.len() > 7 {
        return false;
    }
    let write = WriteBlock {
        header,
        stage: numbers.stage,
        first,
        targets,
        min_bytes: numbers.min_bytes,
        max_bytes: numbers.max_bytes,
        latest_stamp: numbers.latest_stamp,
        chunk_size: numbers.chunk_size,
    };
    is_sent_as(&write, request) && reads(request, &write)
}

/// `POOL ID STAMP BYTES TOKEN CLIENT STAGE MIN MAX LATEST CHUNK NODE .. REQUEST`: whether that is the request, both ways.
pub fn agrees(heap: Global, words: &[&str]) -> Result<bool, LineError> {
    if words.len() < FIRST + 2 {
        return Err(LineError::Form);
    }
    let last = words.len() - 1;
    let token = token_of(heap, words[4])?;
    let client_name = text_of(words[5])?;
    let header = ClientOperationHeader {
        block: block_of(&words[0..4])?,
        token: &token,
        client_name: &client_name,
    };
    let numbers = Numbers::try_from(&words[STAGE..CHUNK + 1])?;
    let first = node_of(heap, words[FIRST])?;
    let targets = nodes_of(heap, &words[FIRST + 1..last])?;
    let request = octets(heap, words[last])?;
    Ok(both_ways(
        header,
        numbers,
        &first,
        targets.as_slice(),
        request.as_slice(),
    ))
}
