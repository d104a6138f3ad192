//! A message as the ring of a link holds it.

ghost use Rattle.std.specs.Prelude.{◌≡◌, ◌≢◌};
ghost use Rattle.link_ring.specs.Carried.{carried, IsWhole};

use crate::carried::Carried;
use std::boxed::Box;
use std::marker::Model;
use std::mem::size_of;
use wire_msg::{Message, Short};

/// A message as a slot holds it.
#[derive(Drop)]
pub(crate) struct Slot {
    held: Carried,
}

// each slot is touched once before the first is used again; and 4,096 slots lie in the heap, where malloc maps no memory for a ring alone
const _: () = prove!(size_of::<Slot>() == 16);

impl Model for Slot {
    ghost use Rattle.wire_msg.specs.Envelope.{Envelope};
    ghost use Rattle.link_ring.specs.Carried.{carried, IsWhole};

    ghost Value = { Envelope };

    ghost view = { λ a. carried a.held };

    ghost invariant = { λ a. IsWhole a.held };
}

impl Slot {
    /// A slot for this message.
    #[inline]
    pub(crate) fn of(held: Carried) -> Slot
        requires { IsWhole held }
        ensures { result ≡ carried held }
    {
        Slot { held }
    }

    /// The message.
    #[inline]
    pub(crate) fn open(self) -> Message
        ensures { result ≡ self }
    {
        match self.held {
            Carried::Short(head, number) => {
                let short = Short {
                    kind: head.kind,
                    answer: head.answer,
                    creator: head.creator,
                    number,
                };
                Message::between(head.sender, head.receiver, short.body())
            }
            Carried::Overflow(head, long) => {
                Message::between(head.sender, head.receiver, Box::into_inner(long))
            }
        }
    }
}
