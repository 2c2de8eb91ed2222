//! Answers of a pipeline, and responses of a datanode.
use crate::error::LineError;
use crate::hex::octets;
use ack::ack::{Verdict, judge};
use ack::response::BlockOpResponse;
use std::alloc::{AllocError, Global};

// What we make of an answer, in the words of the table.
fn verdict_text(heap: Global, answer: &[u8]) -> Result<String, AllocError> {
    match judge(answer) {
        Ok(Verdict::Failed(failed)) => format!(in heap; "failed:{failed}"),
        Ok(Verdict::HeartBeat) => String::from_str(heap, "heartbeat"),
        Ok(Verdict::UnknownSeqno) => String::from_str(heap, "unknown"),
        Ok(Verdict::Packet(seqno)) => format!(in heap; "packet:{seqno}"),
        Err(_) => String::from_str(heap, "fault"),
    }
}

/// `ANSWER VERDICT`: whether that is our verdict on the answer.
pub fn agrees(heap: Global, words: &[&str]) -> Result<bool, LineError> {
    let [answer, verdict] = words else {
        return Err(LineError::Form);
    };
    let answer = octets(heap, answer)?;
    let text = verdict_text(heap, answer.as_slice())?;
    Ok(text.as_str() == *verdict)
}

// What we make of a response, in the words of the table.
fn response_word(response: &[u8]) -> &'static str {
    match BlockOpResponse::read(response) {
        Ok(response) => { if response.is_good() { "good" } else { "bad" } }
        Err(_) => "fault",
    }
}

/// `RESPONSE good|bad|fault`: whether we take the response so.
pub fn response_agrees(heap: Global, words: &[&str]) -> Result<bool, LineError> {
    let [response, word] = words else {
        return Err(LineError::Form);
    };
    let response = octets(heap, response)?;
    Ok(response_word(response.as_slice()) == *word)
}
