//! A message as the slot of a ring holds it.

ghost use Rattle.std.specs.Prelude.{◌≡◌, ◌≤◌, ◌+◌, true, vec_len, IfSome, IfNone, None};
ghost use Rattle.wire_msg.specs.Kinds.{short_of};
ghost use Rattle.link_ring.specs.Carried.{carried, IsWhole};

use group_task::NodeId;
use std::alloc::Global;
use std::boxed::Box;
use wire_msg::{Body, Form, Kind, Message};

/// The nodes of a message, and the small parts of its short form; where it has none, its sender, and no.
#[derive(Clone, Copy)]
pub(crate) struct Head {
    pub(crate) sender: NodeId,
    pub(crate) receiver: NodeId,
    pub(crate) kind: Kind,
    pub(crate) answer: bool,
    pub(crate) creator: NodeId,
}

/// A message, in 16 bytes: with the number of its short form, or the body of a Ready or a Work, which is long, in a box.
#[derive(Drop)]
pub(crate) enum Carried {
    Short(Head, u64),
    Overflow(Head, Box<Body>),
}

/// Boxes for long bodies. They are made before messages are put, so that a put takes no memory.
#[derive(Drop)]
pub(crate) struct Spares {
    alloc: Global,
    pub(crate) boxes: Vec<Box<Body>>,
}

impl Spares {
    /// None yet. It takes no memory.
    pub(crate) fn new(alloc: Global) -> Spares
        ensures { vec_len result.boxes ≡ 0 }
    {
        Spares {
            alloc,
            boxes: Vec::new(alloc),
        }
    }

    /// Whether so many boxes are there, once those that lacked were made as far as there is memory.
    #[inline]
    pub(crate) fn has(&mut self, many: usize) -> bool
        ensures kept { vec_len self.old.boxes ≤ vec_len self.new.boxes }
        ensures there { result ≡ true → many ≤ vec_len self.new.boxes }
    {
        many <= self.boxes.len() || self.make(many)
    }

    #[inline(never)]
    fn make(&mut self, many: usize) -> bool
        ensures kept { vec_len self.old.boxes ≤ vec_len self.new.boxes }
        ensures there { result ≡ true → many ≤ vec_len self.new.boxes }
    {
        for _spare in self.boxes.len()..many {
            let Ok(spare) = Box::new(self.alloc, Body::AreYouCoordinator) else {
                return false;
            };
            if self.boxes.push(spare).is_err() {
                return false;
            }
        }
        true
    }

    /// The message for a slot; none where it is long and no box is there.
    #[inline]
    pub(crate) fn pack(&mut self, message: &Message) -> Option<Carried>
        ensures packed { IfSome result (λ held. (carried held ≡ message.now) × IsWhole held) }
        ensures none { IfNone result ((vec_len self.old.boxes ≡ 0) × (short_of message.now.body ≡ None)) }
        ensures left { vec_len self.old.boxes ≤ vec_len self.new.boxes + 1 }
    {
        let (sender, receiver) = (message.sender(), message.receiver());
        let body = message.body();
        if let Form::Short(short) = body.form() {
            let head = Head {
                sender,
                receiver,
                kind: short.kind,
                answer: short.answer,
                creator: short.creator,
            };
            return Some(Carried::Short(head, short.number));
        }
        let head = Head {
            sender,
            receiver,
            kind: Kind::AreYouCoordinator,
            answer: false,
            creator: sender,
        };
        let mut long = self.boxes.pop()?;
        *long = *body;
        Some(Carried::Overflow(head, long))
    }
}
