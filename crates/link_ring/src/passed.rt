//! A message as an end of a link keeps it.

ghost use Rattle.std.specs.Prelude.{◌≡◌, ◌<◌, ◌↔◌, IsTrue};
ghost use Rattle.link_ring.specs.Passed.{Packs, short_by};

use group_task::NodeId;
use message_list::MessageList;
use std::mem::size_of;
use wire_msg::{Form, Kind, Message, Short};

/// Whether a message that went through an end is kept whole, by the kind of its short form, or as a long one, in the list beside.
#[derive(Clone, Copy, Debug, PartialEq, Eq)]
pub enum PassedKind {
    Short(Kind),
    Long,
}

/// A message that went through an end: its nodes, and its short form, or the place of the message in the list of long ones, as the
/// number. What is not said then is the sender, or no.
#[derive(Clone, Copy, Debug, PartialEq, Eq)]
pub struct Passed {
    pub sender: NodeId,
    pub receiver: NodeId,
    pub kind: PassedKind,
    pub answer: bool,
    pub creator: NodeId,
    pub number: u64,
}

// each message that goes through a link is kept twice
const _: () = prove!(size_of::<Passed>() == 16);

impl Passed {
    /// Its short form, where it is of this kind.
    #[inline]
    pub fn short(&self, kind: Kind) -> Short
        ensures { result ≡ short_by kind self.now }
    {
        Short {
            kind,
            answer: self.answer,
            creator: self.creator,
            number: self.number,
        }
    }

    /// Whether both are kept alike.
    #[inline]
    pub fn is_as(&self, other: &Passed) -> bool
        ensures { IsTrue result ↔ (self.now ≡ other.now) }
    {
        self == other
    }

    /// The message as it is kept. A long one is added to the list of these, in the room that is there.
    pub fn pack(message: &Message, long: &mut MessageList) -> Passed
        requires { 0 < long.old.room }
        ensures { Packs message.now result long.old long.new }
    {
        let (sender, receiver) = (message.sender(), message.receiver());
        if let Form::Short(short) = message.body().form() {
            return Passed {
                sender,
                receiver,
                kind: PassedKind::Short(short.kind),
                answer: short.answer,
                creator: short.creator,
                number: short.number,
            };
        }
        let place = long.len() as u64;
        long.push(message);
        Passed {
            sender,
            receiver,
            kind: PassedKind::Long,
            answer: false,
            creator: sender,
            number: place,
        }
    }
}
