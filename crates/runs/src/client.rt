//! A client that makes calls from a list.
ghost use Rattle.runs.specs.History.{History};
ghost use Rattle.runs.specs.Made.{Made};
ghost use Rattle.runs.specs.Runs.{point_of, Step};

use crate::command::{Command, Outcome};
use chain::link::Link;
use chain::meaning::Chain;
use namenode::meaning::Namenode;
use namenode::protocol::NamenodeProtocol;
use writer::state::Writer;

/// Makes one call.
pub fn call<C: Chain, N: Namenode>(
    writer: &mut Writer,
    link: &mut C,
    namenode: &mut N,
    store: &mut [u8],
    frame: &mut [u8],
    request: &mut [u8],
    answer: &mut [u8],
    command: Command<'_>,
) -> Outcome
    ensures { (h : History) → (k : History)
        × Step C.Link N.NamenodeProtocol C.Chain.seen command.entry
        (point_of h writer.old store.old link.old namenode.old) result
        (point_of k writer.new store.new link.new namenode.new) }
{
    match command {
        Command::Write(bytes) => {
            Outcome::Wrote(writer.write(link, store, frame, request, answer, bytes))
        }
        Command::Heed => Outcome::Heard(writer.heed(link, store, frame, request, answer)),
        Command::Beat(time) => {
            Outcome::Beaten(writer.beat(link, store, frame, request, answer, time))
        }
        Command::Finish => Outcome::Ended(writer.finish(link, store, frame, request, answer)),
        Command::Recover(time) => Outcome::Recovered(writer.recover(
            link, namenode, store, frame, request, answer, time,
        )),
    }
}

/// Makes the calls of a list, one after another, as far as `outcomes` has places for what they answer. A call that is refused is no reason to
/// stop: what it answers is told, and the next one is made.
pub fn run<C: Chain, N: Namenode>(
    writer: &mut Writer,
    link: &mut C,
    namenode: &mut N,
    store: &mut [u8],
    frame: &mut [u8],
    request: &mut [u8],
    answer: &mut [u8],
    commands: &[Command<'_>],
    outcomes: &mut [Option<Outcome>],
)
    ensures { (h : History) → Made C.Link N.NamenodeProtocol C.Chain.seen N.Namenode.entry
        (point_of h writer.old store.old link.old namenode.old) commands.now outcomes.old
        (λ k. point_of k writer.new store.new link.new namenode.new) outcomes.new }
{
    // By place: of what is written through an iterator a proof knows the length alone.
    'calls: for i in 0..commands.len().min(outcomes.len()) {
        let command = commands[i];
        let outcome = call(
            writer, link, namenode, store, frame, request, answer, command,
        );
        outcomes[i] = Some(outcome);
    }
}
