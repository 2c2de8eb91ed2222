//! Random calls.
use crate::model::Model;
use faults::chance::Chance;
use runs::command::Command;

/// Fills a buffer with bytes of any kind.
pub fn fill(chance: &mut Chance, bytes: &mut [u8]) {
    for byte in bytes.iter_mut() {
        *byte = chance.below(256) as u8;
    }
}

/// The next call: mostly one that is acted on, and each one now and then. `time` goes on, and sometimes back.
pub fn command<'a>(chance: &mut Chance, model: &Model, bytes: &'a [u8], time: u64) -> Command<'a> {
    if model.is_broken() && !chance.one_in(8) {
        return Command::Recover(time);
    }
    match chance.below(48) {
        0 => Command::Recover(time),
        1 => Command::Finish,
        2..=7 => Command::Beat(time),
        8..=24 => {
            let len = chance.below(bytes.len() as u64) as usize;
            Command::Write(bytes.get(0..len).unwrap_or(&[]))
        }
        _ => Command::Heed,
    }
}
