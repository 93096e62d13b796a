// A line taken for a request or a reply, or refused.
ghost use Rattle.std.specs.Prelude.{◌≡◌};
ghost use Rattle.frames.specs.Requests.{RequestFits};
ghost use Rattle.frames.specs.Replies.{ReplyFits};
ghost use Rattle.frames.specs.Reading.{reading, read_request, request_refusal, read_reply};
ghost use Rattle.frames.specs.Exact.{Exact, refusal_in, written_line, request_line, reply_line};

use crate::fault::FrameFault;
use crate::frame::Frame;
use crate::line::read_line;
use crate::message::Message;
use crate::reply::Reply;
use crate::request::Request;
use grades::Wire;

fn read<M: Message>(line: &[u8]) -> Result<M, FrameFault>
    ensures answer { result ≡ reading M.known M.long M.meaning line.now }
    ensures exact { Exact M.Fits (written_line M.bytes) line.now result }
{
    let mut frame = Frame::BLANK;
    read_line(line, &mut frame)?;
    let kind = M::Kind::try_from(frame.byte_at(0))?;
    frame.check(M::length(kind))?;
    M::read(kind, &frame)
}

pub fn read_request<G: Wire>(line: &[u8]) -> Result<Request<G>, FrameFault>
    ensures answer { result ≡ read_request G.Wire.grade_of G.WIDTH line.now }
    ensures refusal { refusal_in result ≡ request_refusal G.WIDTH line.now }
    ensures exact { Exact (RequestFits G.Wire.InRange) (request_line G.Wire.bytes_of) line.now result }
{
    read(line)
}

pub fn read_reply(line: &[u8]) -> Result<Reply, FrameFault>
    ensures answer { result ≡ read_reply line.now }
    ensures exact { Exact ReplyFits reply_line line.now result }
{
    read(line)
}
