// What a program answers.
ghost use Rattle.std.specs.Prelude.{◌≡◌};
ghost use Rattle.std.proofs.Common.{rules};
ghost use Rattle.frames.specs.Kinds.{KindRead, reply_number, is_reply, table_length};
ghost use Rattle.frames.specs.ReplyLaws.{reply_forth};
ghost use Rattle.frames.specs.Replies.{reply_kind, reply_bytes, reply_of, ReplyFits, refusal_of};

use crate::fault::{FrameFault, Layer};
use crate::frame::Frame;
use crate::kinds::table_length;
use crate::message::Message;
use crate::rows::row;

#[derive(Clone, Copy, PartialEq, Eq, Debug)]
pub enum ReplyKind {
    Done = 0x80,
    Entries = 0x81,
    Circle = 0x82,
    Member = 0x83,
    Core = 0x84,
    Holder = 0x85,
    NoHolder = 0x86,
    Refusal = 0xFF,
}

impl From<ReplyKind> for u8 {
    ghost from_gives = { λ k n. n ≡ reply_number k };

    fn from(kind: ReplyKind) -> u8 {
        kind as u8
    }
}

// The numbers stand again: the language has no conversion back from a discriminant.
impl TryFrom<u8> for ReplyKind {
    type Error = FrameFault;

    ghost try_from_gives = { KindRead reply_number is_reply };

    fn try_from(number: u8) -> Result<ReplyKind, FrameFault> {
        match number {
            0x80 => Ok(ReplyKind::Done),
            0x81 => Ok(ReplyKind::Entries),
            0x82 => Ok(ReplyKind::Circle),
            0x83 => Ok(ReplyKind::Member),
            0x84 => Ok(ReplyKind::Core),
            0x85 => Ok(ReplyKind::Holder),
            0x86 => Ok(ReplyKind::NoHolder),
            0xFF => Ok(ReplyKind::Refusal),
            _ => Err(FrameFault::UnknownKind),
        }
    }
}

#[derive(Clone, Copy, PartialEq, Eq, Debug)]
pub enum Reply {
    // the request of that kind is granted, and this is all; any byte may stand there, as any may be typed
    Done { kind: u8 },
    Entries { count: u32 },
    Circle { weakest: u16, members: u16 },
    // one of the circle before it
    Member { person: u16 },
    Core { person: u16, number: u16 },
    Holder { person: u16 },
    NoHolder,
    // the line that is refused, counted from 1; any number may be typed
    Refusal { number: u8, layer: Layer, line: u32 },
}

impl Message for Reply {
    type Kind = ReplyKind;

    ghost number = { reply_number };

    ghost known = { is_reply };

    ghost long = { table_length };

    ghost kind_number = { reply_kind };

    ghost bytes = { reply_bytes };

    ghost meaning = { reply_of };

    ghost Fits = { ReplyFits };

    ghost kinds = { Prim.search rules };

    ghost whole = { Prim.search rules };

    ghost first = { Prim.search rules };

    ghost some = { Prim.search rules };

    ghost room = { Prim.search rules };

    ghost sized = { Prim.search rules };

    ghost numbered = { Prim.search rules };

    ghost back = { Prim.search rules };

    ghost ranged = { λ bs p h l e. (reply_forth bs p h l e).0 };

    ghost forth = { λ bs p h l e. (reply_forth bs p h l e).1 };

    fn length(kind: ReplyKind) -> usize {
        table_length(u8::from(kind))
    }

    fn kind(&self) -> ReplyKind {
        match self {
            Reply::Done { .. } => ReplyKind::Done,
            Reply::Entries { .. } => ReplyKind::Entries,
            Reply::Circle { .. } => ReplyKind::Circle,
            Reply::Member { .. } => ReplyKind::Member,
            Reply::Core { .. } => ReplyKind::Core,
            Reply::Holder { .. } => ReplyKind::Holder,
            Reply::NoHolder => ReplyKind::NoHolder,
            Reply::Refusal { .. } => ReplyKind::Refusal,
        }
    }

    fn read(kind: ReplyKind, frame: &Frame) -> Result<Reply, FrameFault> {
        let first = frame.word_at(1);
        let second = frame.word_at(3);
        Ok(match kind {
            ReplyKind::Done => Reply::Done {
                kind: frame.byte_at(1),
            },
            ReplyKind::Entries => Reply::Entries {
                count: frame.long_at(1),
            },
            ReplyKind::Circle => Reply::Circle {
                weakest: first,
                members: second,
            },
            ReplyKind::Member => Reply::Member { person: first },
            ReplyKind::Core => Reply::Core {
                person: first,
                number: second,
            },
            ReplyKind::Holder => Reply::Holder { person: first },
            ReplyKind::NoHolder => Reply::NoHolder,
            ReplyKind::Refusal => Reply::Refusal {
                number: frame.byte_at(1),
                layer: Layer::try_from(frame.byte_at(2))?,
                line: frame.long_at(3),
            },
        })
    }

    fn row(&self) -> [u8; 32] {
        let kind = [u8::from(self.kind())];
        match *self {
            Reply::Done { kind: granted } => row(&[&kind, &[granted]]),
            Reply::Entries { count } => row(&[&kind, &count.to_be_bytes()]),
            Reply::Circle {
                weakest: first,
                members: second,
            }
            | Reply::Core {
                person: first,
                number: second,
            } => row(&[&kind, &first.to_be_bytes(), &second.to_be_bytes()]),
            Reply::Member { person } | Reply::Holder { person } => {
                row(&[&kind, &person.to_be_bytes()])
            }
            Reply::NoHolder => row(&[&kind]),
            Reply::Refusal {
                number,
                layer,
                line,
            } => row(&[&kind, &[number, u8::from(layer)], &line.to_be_bytes()]),
        }
    }
}

// What is answered to the line of that number, where it is refused.
pub fn refusal(fault: FrameFault, line: u32) -> Reply
    ensures { result ≡ refusal_of fault line }
{
    Reply::Refusal {
        number: u8::from(fault),
        layer: Layer::from(fault),
        line,
    }
}
