//! A block copied to a new datanode: the request written and sent to the datanode that has it, and the response judged.
ghost use Rattle.std.specs.Prelude.{◌≤◌, length};
ghost use Rattle.pipeline.specs.Channels.{channel_over};
ghost use Rattle.pipeline.specs.Transfers.{Transfers};

use crate::channel::Channel;
use crate::reply::{ReplyError, judge_reply};
use crate::write_request::write_request;
use chain::link::Link;
use proto::block::ClientOperationHeader;
use proto::datanode::Datanode;
use request::transfer_block::TransferBlock;

// Writes the request to the front of `request`, sends it once, and judges the response. A function of the parts: of a method that lends its
// `&mut` fields twice a proof does not know what they hold in the end.
fn send_transfer<'a, L: Link>(
    link: &mut L,
    header: ClientOperationHeader<'a>,
    source: &Datanode,
    target: &'a Datanode,
    request: &mut [u8],
    answer: &mut [u8],
) -> Result<(), ReplyError>
    requires { 4096 ≤ length request.old }
    ensures { Transfers L.Link header.entry source.now target.now
        (channel_over link.old request.old answer.old) result
        (channel_over link.new request.new answer.new) }
{
    let message = TransferBlock { header, target };
    let end = write_request(&message, request);
    let came = link.transfer(source, &request[0..end], answer);
    judge_reply(came, answer)
}

impl<'a, L: Link> Channel<'a, L> {
    ghost use Rattle.pipeline.specs.Channels.{channel_view, SameLoans};

    /// Has `source` copy the block to `target`: writes the request and sends it once, to `source`. The response stands at the front of the
    /// answer's buffer, which stays as it was where none came.
    pub fn transfer<'b>(
        &mut self,
        header: ClientOperationHeader<'b>,
        source: &Datanode,
        target: &'b Datanode,
    ) -> Result<(), ReplyError>
        ensures acts { Transfers L.Link header.entry source.now target.now
            (channel_view self.old) result (channel_view self.new) }
        ensures same { SameLoans self.old self.new }
    {
        send_transfer(self.link, header, source, target, self.request, self.answer)
    }
}
