//! A list of actions played, one after another.
use crate::action::Action;
use crate::agree::{ActionNumber, agree};
use crate::nodes::Nodes;
use crate::run::Run;
use crate::test_namenode::HasEntry;
use chain::link::Link;
use runs::command::{Command, Outcome};
use std::process::Abort;
use std::test::Fail;
use writer::heed::Heeded;

impl<C: Nodes> Run<C> {
    /// Plays the actions of that run. Where something differs, the test ends with the action's number and both values.
    pub fn play<N: HasEntry>(
        &mut self,
        rt: &impl Abort,
        namenode: &mut N,
        case: usize,
        actions: &[Action],
    ) -> Result<(), Fail> {
        for (i, action) in actions.iter().enumerate() {
            self.act(rt, namenode, ActionNumber { case, action: i }, *action)?;
        }
        Ok(())
    }

    fn act<N: HasEntry>(
        &mut self,
        rt: &impl Abort,
        namenode: &mut N,
        number: ActionNumber,
        action: Action,
    ) -> Result<(), Fail> {
        match action {
            Action::LosePut(frames) => self.link.lose_put_after(frames),
            Action::OnSetUp(instead) => self.link.on_set_up(instead),
            Action::OnNext(instead) => self.link.on_next(instead),
            Action::OnTransfer(instead) => self.link.on_transfer(instead),
            Action::Unheard(len) => {
                let came = self.link.next(&mut [0; 64]);
                agree(rt, number, &came, &Ok(Some(len)));
            }
            Action::Mark => self.mark()?,
            Action::Lend(store, frame, answer) => self.lend(store, frame, answer)?,
            Action::Own => agree(rt, number, &self.take_back(), &true),
            Action::Look(look) => self.look(rt, namenode, number, look),
            call => self.make(rt, namenode, number, call)?,
        }
        Ok(())
    }

    // Makes the calls of an action, which have to come to what it says.
    fn make<N: HasEntry>(
        &mut self,
        rt: &impl Abort,
        namenode: &mut N,
        number: ActionNumber,
        action: Action,
    ) -> Result<(), Fail> {
        match action {
            Action::HeedAll(heeded) => {
                let heard = self.heed_all(namenode);
                agree(rt, number, &heard, &Outcome::Heard(Ok(heeded)));
            }
            Action::Breaks => {
                let heard = self.call(namenode, Command::Heed);
                let is_broken = matches!(heard, Outcome::Heard(Ok(Heeded::Broken(_))));
                agree(rt, number, &is_broken, &true);
            }
            Action::Refused(command, wanted, refusal) => {
                let came = self.call(namenode, command).refusal();
                agree(rt, number, &came, &Some(refusal));
                agree(rt, number, &u8::from(refusal), &wanted);
            }
            Action::Numbers(numbers) => agree(rt, number, &self.numbers(namenode), &numbers),
            call => {
                let (command, wanted) = call.call().ok_or("an action that is no call")?;
                agree(rt, number, &self.call(namenode, command), &wanted);
            }
        }
        Ok(())
    }

    // The numbers that the calls are refused with, or 0 for one that is not.
    fn numbers<N: HasEntry>(&mut self, namenode: &mut N) -> [u8; 5] {
        [
            self.number(namenode, Command::Write(b"abcd")),
            self.number(namenode, Command::Heed),
            self.number(namenode, Command::Beat(1_000_000)),
            self.number(namenode, Command::Recover(0)),
            self.number(namenode, Command::Finish),
        ]
    }

    fn number<N: HasEntry>(&mut self, namenode: &mut N, command: Command<'_>) -> u8 {
        self.call(namenode, command).refusal().map_or(0, u8::from)
    }
}
