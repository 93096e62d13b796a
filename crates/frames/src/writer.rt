// Requests and replies written as lines.
ghost use Rattle.std.specs.Prelude.{◌≡◌};
ghost use Rattle.frames.specs.Lines.{typed};
ghost use Rattle.frames.specs.Requests.{RequestFits};
ghost use Rattle.frames.specs.Replies.{ReplyFits};
ghost use Rattle.frames.specs.Exact.{written_line, request_line, reply_line};

use crate::frame::Frame;
use crate::line::{Line, write_line};
use crate::message::Message;
use crate::reply::Reply;
use crate::request::Request;
use grades::Wire;

fn write<M: Message>(message: &M) -> Line
    ensures value { result ≡ typed (written_line M.bytes message.now) }
    ensures ranged { M.Fits message.now }
{
    let row = Frame {
        bytes: message.row(),
        len: M::length(message.kind()),
    };
    write_line(&row.sealed())
}

pub fn write_request<G: Wire>(request: &Request<G>) -> Line
    ensures value { result ≡ typed (request_line G.Wire.bytes_of request.now) }
    ensures ranged { RequestFits G.Wire.InRange request.now }
{
    write(request)
}

pub fn write_reply(reply: &Reply) -> Line
    ensures value { result ≡ typed (reply_line reply.now) }
    ensures ranged { ReplyFits reply.now }
{
    write(reply)
}
