//! Answers that confirm nothing.
ghost use Rattle.std.specs.Prelude.{◌≡◌};
ghost use Rattle.ack.specs.Verdicts.{passes};
ghost use Rattle.chain.specs.Acts.{Answered};
ghost use Rattle.faults.specs.Faults.{is_stray, Stray};

use crate::answer::{ANSWER_LEN, ERROR, NODES, SUCCESS, UNKNOWN_SEQNO};
use crate::chance::Chance;
use ack::ack::passing;
use ack::write::write_ack;
use chain::link::LinkLost;
use packet::header::HEART_BEAT_SEQNO;

// Whether an answer confirms nothing where that number is awaited.
fn is_stray(message: &[u8], awaited: Option<u64>) -> bool
    ensures { result ≡ is_stray (passes message.now) awaited }
{
    match (passing(message), awaited) {
        (Some(seqno), Some(awaited)) => seqno != awaited,
        _ => true,
    }
}

// An answer in which one or two of the nodes say that they failed. Now and then it has more replies than there are nodes.
fn make_failure(
    chance: &mut Chance,
    out: &mut [u8; ANSWER_LEN],
    seqno: u64,
    nodes: usize,
) -> Option<usize> {
    let nodes = if chance.one_in(32) { NODES } else { nodes };
    let mut replies = [SUCCESS; NODES];
    let at = chance.below(nodes as u64) as usize;
    *replies.get_mut(at)? = ERROR;
    if chance.one_in(4) {
        let other = chance.below(nodes as u64) as usize;
        *replies.get_mut(other)? = ERROR;
    }
    write_ack(out, seqno, replies.get(0..nodes)?)
}

// Octets of any kind.
fn make_octets(chance: &mut Chance, out: &mut [u8; ANSWER_LEN]) -> usize {
    for octet in out.iter_mut() {
        *octet = chance.below(256) as u8;
    }
    chance.below(ANSWER_LEN as u64) as usize
}

// An answer of one of several kinds, of which none should confirm anything, and how long it is.
fn make(
    chance: &mut Chance,
    out: &mut [u8; ANSWER_LEN],
    awaited: Option<u64>,
    nodes: usize,
) -> Option<usize> {
    let good = [SUCCESS; NODES];
    let seqno = awaited.unwrap_or(0);
    match chance.below(16) {
        0 => write_ack(out, UNKNOWN_SEQNO, good.get(0..nodes)?),
        1 => write_ack(out, seqno.wrapping_add(1), good.get(0..nodes)?),
        2 => Some(make_octets(chance, out)),
        3..=7 => write_ack(out, HEART_BEAT_SEQNO, good.get(0..nodes)?),
        _ => make_failure(chance, out, seqno, nodes),
    }
}

/// What comes in the place of an answer: none yet, the link's loss, or an answer that confirms nothing where that number is awaited.
pub fn stray(
    chance: &mut Chance,
    awaited: Option<u64>,
    nodes: usize,
    answer: &mut [u8],
) -> Result<Option<usize>, LinkLost>
    ensures { Answered (Stray awaited) answer.old answer.new result }
{
    if chance.one_in(3) {
        return Ok(None);
    }
    let mut out = [0u8; ANSWER_LEN];
    let len = make(chance, &mut out, awaited, nodes).ok_or(LinkLost)?;
    let message = out.get(0..len).ok_or(LinkLost)?;
    if !is_stray(message, awaited) || answer.len() < len || chance.one_in(4) {
        return Err(LinkLost);
    }
    answer[0..len].copy_from_slice(message);
    Ok(Some(len))
}
