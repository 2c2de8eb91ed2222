//! A pipeline set up: the request written and sent to the first datanode, and the response judged.
ghost use Rattle.std.specs.Prelude.{◌≤◌, length};
ghost use Rattle.pipeline.specs.Channels.{channel_over};
ghost use Rattle.pipeline.specs.SetUps.{Requests, SetsUp};

use crate::channel::Channel;
use crate::reply::{ReplyError, judge_reply};
use crate::write_request::write_request;
use chain::link::Link;
use proto::block::ClientOperationHeader;
use proto::datanode::Datanode;
use request::stage::Stage;
use request::write_block::WriteBlock;

/// What a pipeline is set up with, but for its datanodes.
#[derive(Clone, Copy)]
pub struct SetupRequest<'a> {
    pub header: ClientOperationHeader<'a>,
    pub stage: Stage,
    pub min_bytes: u64,
    pub max_bytes: u64,
    pub latest_stamp: u64,
    pub chunk_size: u32,
}

// The request for these datanodes, one to eight, which is sent to the first of them.
fn request_for<'a>(wanted: SetupRequest<'a>, nodes: &'a [Datanode]) -> WriteBlock<'a>
    requires { (1 ≤ length nodes.now) × (length nodes.now ≤ 8) }
    ensures { Requests wanted.entry nodes.now result }
{
    WriteBlock {
        header: wanted.header,
        stage: wanted.stage,
        first: &nodes[0],
        targets: &nodes[1..],
        min_bytes: wanted.min_bytes,
        max_bytes: wanted.max_bytes,
        latest_stamp: wanted.latest_stamp,
        chunk_size: wanted.chunk_size,
    }
}

// Writes the request to the front of `request`, sends it once, and judges the response. A function of the parts: of a method that lends its
// `&mut` fields twice a proof does not know what they hold in the end.
fn send_set_up<'a, L: Link>(
    link: &mut L,
    nodes: &'a [Datanode],
    wanted: SetupRequest<'a>,
    request: &mut [u8],
    answer: &mut [u8],
) -> Result<(), ReplyError>
    requires { (1 ≤ length nodes.now) × ((length nodes.now ≤ 8) × (4096 ≤ length request.old)) }
    ensures { SetsUp L.Link wanted.entry nodes.now
        (channel_over link.old request.old answer.old) result
        (channel_over link.new request.new answer.new) }
{
    let message = request_for(wanted, nodes);
    let end = write_request(&message, request);
    let came = link.set_up(message.first, &request[0..end], wanted.min_bytes, answer);
    judge_reply(came, answer)
}

impl<'a, L: Link> Channel<'a, L> {
    ghost use Rattle.pipeline.specs.Channels.{channel_view, SameLoans};

    /// Sets up a pipeline of these datanodes: writes the request and sends it once, to the first datanode. The response stands at the front
    /// of the answer's buffer, which stays as it was where none came.
    pub fn set_up<'b>(
        &mut self,
        nodes: &'b [Datanode],
        wanted: SetupRequest<'b>,
    ) -> Result<(), ReplyError>
        requires { (1 ≤ length nodes.now) × (length nodes.now ≤ 8) }
        ensures acts { SetsUp L.Link wanted.entry nodes.now (channel_view self.old) result
            (channel_view self.new) }
        ensures same { SameLoans self.old self.new }
    {
        send_set_up(self.link, nodes, wanted, self.request, self.answer)
    }
}
