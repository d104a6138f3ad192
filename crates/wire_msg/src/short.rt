//! The short form of a body: of every kind but a Ready and a Work, whose bodies are long.

ghost use Rattle.std.specs.Prelude.{◌≡◌};
ghost use Rattle.wire_msg.specs.Kinds.{said, number_of, kind_numbered, names_group, has_answer, has_id, IsCounted};

use crate::body::Body;
use group_task::{GroupNo, NodeId};

/// The kind of a body that has a short form.
#[derive(Clone, Copy, Debug, PartialEq, Eq)]
pub enum Kind {
    AreYouCoordinator,
    Coordinator,
    AreYouThere,
    Here,
    Invitation,
    Accept,
    ReadyAck,
    Done,
}

/// What a short body says, in 16 bytes: the group that it names is (creator : number), and the job of a Done has the number as its
/// id. What a kind has no use for is 0, or no.
#[derive(Clone, Copy, Debug, PartialEq, Eq)]
pub struct Short {
    pub kind: Kind,
    pub answer: bool,
    pub creator: NodeId,
    pub number: u64,
}

impl Kind {
    /// The number by which a spelling tells the kind.
    #[inline]
    pub fn number(self) -> u8
        ensures { result ≡ number_of self }
    {
        match self {
            Kind::AreYouCoordinator => 1,
            Kind::Coordinator => 2,
            Kind::AreYouThere => 3,
            Kind::Here => 4,
            Kind::Invitation => 5,
            Kind::Accept => 6,
            Kind::ReadyAck => 8,
            Kind::Done => 10,
        }
    }

    /// The kind that has this number.
    #[inline(always)]
    pub(crate) fn numbered(number: u8) -> Option<Kind>
        ensures { result ≡ kind_numbered number }
    {
        match number {
            1 => Some(Kind::AreYouCoordinator),
            2 => Some(Kind::Coordinator),
            3 => Some(Kind::AreYouThere),
            4 => Some(Kind::Here),
            5 => Some(Kind::Invitation),
            6 => Some(Kind::Accept),
            8 => Some(Kind::ReadyAck),
            10 => Some(Kind::Done),
            _ => None,
        }
    }

    /// Whether a body of the kind names a group.
    #[inline(always)]
    pub(crate) fn names_group(self) -> bool
        ensures { result ≡ names_group self }
    {
        match self {
            Kind::AreYouThere | Kind::Here | Kind::Invitation | Kind::Accept | Kind::ReadyAck =>
                true,
            Kind::AreYouCoordinator | Kind::Coordinator | Kind::Done => false,
        }
    }

    /// Whether a body of the kind has an answer.
    #[inline(always)]
    pub(crate) fn has_answer(self) -> bool
        ensures { result ≡ has_answer self }
    {
        matches!(self, Kind::Coordinator | Kind::Here)
    }

    /// Whether a body of the kind has the id of a job.
    #[inline(always)]
    pub(crate) fn has_id(self) -> bool
        ensures { result ≡ has_id self }
    {
        matches!(self, Kind::Done)
    }
}

impl Short {
    /// Makes `body` the one that is said. It is written in place, since a body is long.
    #[inline(always)]
    pub fn write_to(self, body: &mut Body)
        requires { IsCounted self }
        ensures { body.new ≡ said self }
    {
        let group = || GroupNo::numbered(self.creator, self.number);
        match self.kind {
            Kind::AreYouCoordinator => {
                if !matches!(body, Body::AreYouCoordinator) {
                    *body = Body::AreYouCoordinator;
                }
            }
            Kind::Coordinator => match body {
                Body::Coordinator(answer) => *answer = self.answer,
                _ => *body = Body::Coordinator(self.answer),
            },
            Kind::AreYouThere => match body {
                Body::AreYouThere(old) => *old = group(),
                _ => *body = Body::AreYouThere(group()),
            },
            Kind::Here => match body {
                Body::Here(old, answer) => (*old, *answer) = (group(), self.answer),
                _ => *body = Body::Here(group(), self.answer),
            },
            Kind::Invitation => match body {
                Body::Invitation(old) => *old = group(),
                _ => *body = Body::Invitation(group()),
            },
            Kind::Accept => match body {
                Body::Accept(old) => *old = group(),
                _ => *body = Body::Accept(group()),
            },
            Kind::ReadyAck => match body {
                Body::ReadyAck(old) => *old = group(),
                _ => *body = Body::ReadyAck(group()),
            },
            Kind::Done => match body {
                Body::Done(id) => *id = self.number,
                _ => *body = Body::Done(self.number),
            },
        }
    }

    /// The body that is said.
    #[inline]
    pub fn body(self) -> Body
        requires { IsCounted self }
        ensures { result ≡ said self }
    {
        let mut body = Body::AreYouCoordinator;
        self.write_to(&mut body);
        body
    }
}
