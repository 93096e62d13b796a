// What a program is asked, as typed: the limits of the fields are for the calls to check.
ghost use Rattle.std.specs.Prelude.{◌≡◌};
ghost use Rattle.std.proofs.Common.{rules};
ghost use Rattle.frames.specs.Kinds.{KindRead, request_number, is_request, length_of};
ghost use Rattle.frames.specs.RequestLaws.{request_back, request_forth};
ghost use Rattle.frames.specs.Requests.{request_kind, request_bytes, request_of, RequestFits};

use crate::fault::FrameFault;
use crate::frame::Frame;
use crate::kinds::table_length;
use crate::message::Message;
use crate::rows::row;
use grades::{Grade, Wire};

#[derive(Clone, Copy, PartialEq, Eq, Debug)]
pub enum RequestKind {
    Open = 0x01,
    Regrade = 0x02,
    Link = 0x03,
    Unlink = 0x04,
    Peel = 0x05,
    Plant = 0x06,
    Pick = 0x07,
    Cores = 0x08,
    Holder = 0x09,
}

impl From<RequestKind> for u8 {
    ghost from_gives = { λ k n. n ≡ request_number k };

    fn from(kind: RequestKind) -> u8 {
        kind as u8
    }
}

// The numbers stand again: the language has no conversion back from a discriminant.
impl TryFrom<u8> for RequestKind {
    type Error = FrameFault;

    ghost try_from_gives = { KindRead request_number is_request };

    fn try_from(number: u8) -> Result<RequestKind, FrameFault> {
        match number {
            0x01 => Ok(RequestKind::Open),
            0x02 => Ok(RequestKind::Regrade),
            0x03 => Ok(RequestKind::Link),
            0x04 => Ok(RequestKind::Unlink),
            0x05 => Ok(RequestKind::Peel),
            0x06 => Ok(RequestKind::Plant),
            0x07 => Ok(RequestKind::Pick),
            0x08 => Ok(RequestKind::Cores),
            0x09 => Ok(RequestKind::Holder),
            _ => Err(FrameFault::UnknownKind),
        }
    }
}

#[derive(Clone, Copy, PartialEq, Eq, Debug)]
pub enum Request<G> {
    Open { n: u16 },
    Regrade { person: u16, grade: G },
    Link { u: u16, v: u16 },
    Unlink { u: u16, v: u16 },
    // k, r and choice as typed; the calls make a query of them, and nothing stands between
    Peel { k: u16, r: u16, choice: u8 },
    Plant,
    Pick { k: u16, r: u16, choice: u8 },
    Cores,
    Holder { k: u16, person: u16 },
}

impl<G> Request<G> {
    pub fn kind(&self) -> RequestKind
        ensures { request_number result ≡ request_kind self.now }
    {
        match self {
            Request::Open { .. } => RequestKind::Open,
            Request::Regrade { .. } => RequestKind::Regrade,
            Request::Link { .. } => RequestKind::Link,
            Request::Unlink { .. } => RequestKind::Unlink,
            Request::Peel { .. } => RequestKind::Peel,
            Request::Plant => RequestKind::Plant,
            Request::Pick { .. } => RequestKind::Pick,
            Request::Cores => RequestKind::Cores,
            Request::Holder { .. } => RequestKind::Holder,
        }
    }
}

impl<G: Wire> Message for Request<G> {
    type Kind = RequestKind;

    ghost number = { request_number };

    ghost known = { is_request };

    ghost long = { length_of G.WIDTH };

    ghost kind_number = { request_kind };

    ghost bytes = { request_bytes G.Wire.bytes_of };

    ghost meaning = { request_of G.Wire.grade_of G.WIDTH };

    ghost Fits = { RequestFits G.Wire.InRange };

    ghost kinds = { Prim.search rules };

    ghost whole = { Prim.search rules };

    ghost first = { Prim.search rules };

    ghost some = { Prim.search rules };

    ghost room = { Prim.search rules };

    ghost sized = { Prim.search rules };

    ghost numbered = { Prim.search rules };

    ghost back = { request_back G.Wire.InRange G.Wire.bytes_of G.Wire.grade_of G.WIDTH G.Wire.sized G.Wire.back };

    ghost ranged = { λ bs q h l e. (request_forth G.Wire.InRange G.Wire.bytes_of G.Wire.grade_of G.WIDTH G.Wire.forth G.Wire.ranged bs q h l e).0 };

    ghost forth = { λ bs q h l e. (request_forth G.Wire.InRange G.Wire.bytes_of G.Wire.grade_of G.WIDTH G.Wire.forth G.Wire.ranged bs q h l e).1 };

    // A regrade also holds a grade.
    fn length(kind: RequestKind) -> usize {
        let length = table_length(u8::from(kind));
        if kind == RequestKind::Regrade {
            length + G::WIDTH
        } else {
            length
        }
    }

    // The public one: what messages owe is not handed out.
    fn kind(&self) -> RequestKind {
        Request::kind(self)
    }

    fn read(kind: RequestKind, frame: &Frame) -> Result<Request<G>, FrameFault> {
        let u = frame.word_at(1);
        let v = frame.word_at(3);
        let choice = frame.byte_at(5);
        Ok(match kind {
            RequestKind::Open => Request::Open { n: u },
            RequestKind::Regrade => Request::Regrade {
                person: u,
                grade: G::read(&frame.contents()[3..3 + G::WIDTH]).ok_or(FrameFault::UnknownKind)?,
            },
            RequestKind::Link => Request::Link { u, v },
            RequestKind::Unlink => Request::Unlink { u, v },
            RequestKind::Peel => Request::Peel { k: u, r: v, choice },
            RequestKind::Plant => Request::Plant,
            RequestKind::Pick => Request::Pick { k: u, r: v, choice },
            RequestKind::Cores => Request::Cores,
            RequestKind::Holder => Request::Holder { k: u, person: v },
        })
    }

    fn row(&self) -> [u8; 32] {
        let kind = [u8::from(self.kind())];
        match *self {
            Request::Open { n } => row(&[&kind, &n.to_be_bytes()]),
            Request::Regrade { person, grade } => {
                let mut bytes = row(&[&kind, &person.to_be_bytes()]);
                grade.write(&mut bytes[3..]);
                bytes
            }
            Request::Link { u, v }
            | Request::Unlink { u, v }
            | Request::Holder { k: u, person: v } => {
                row(&[&kind, &u.to_be_bytes(), &v.to_be_bytes()])
            }
            Request::Peel { k, r, choice } | Request::Pick { k, r, choice } => {
                row(&[&kind, &k.to_be_bytes(), &r.to_be_bytes(), &[choice]])
            }
            Request::Plant | Request::Cores => row(&[&kind]),
        }
    }
}
