//! What went through an end of a link.

ghost use Rattle.std.specs.Prelude.{◌≡◌, ◌-◌, ◌<◌, ◌↔◌, [], ◌∷◌, ◌++◌, length, max, slice_get, Some, IsTrue, OnOk, OnErr};

use crate::passed::{Passed, PassedKind};
use message_list::MessageList;
use std::alloc::{AllocError, Global};
use std::marker::Model;
use wire_msg::Message;

/// The messages that went through an end of a link, in order.
///
/// Each takes 16 bytes, and a Ready or a Work what it takes in a [`MessageList`] besides. That list alone has room for payloads, and as long
/// as no long message comes it stays as small as it was made.
#[derive(Debug, Drop)]
pub struct LinkLog {
    passed: Vec<Passed>,
    long: MessageList,
    // for so many more messages there is room, whatever they say
    room: usize,
}

impl Model for LinkLog {
    ghost use Rattle.std.specs.Prelude.{map};
    ghost use Rattle.message_list.specs.PackedMessages.{MessagesKept};
    ghost use Rattle.link_ring.specs.Passed.{message_passed};

    ghost Value = { MessagesKept };

    ghost use Rattle.link_ring.specs.Logged.{IsLogged};

    ghost view = { λ a. record { messages = map (message_passed a.long.messages) a.passed.items; room = a.room } };

    ghost invariant = { IsLogged };
}

impl LinkLog {
    /// Nothing went through yet. It takes no memory.
    pub(crate) fn new(alloc: Global) -> LinkLog
        ensures { result ≡ record { messages = []; room = 0 } }
    {
        LinkLog {
            passed: Vec::new(alloc),
            long: MessageList::new(alloc),
            room: 0,
        }
    }

    /// How many messages there are.
    pub fn len(&self) -> usize
        ensures { result ≡ length self.now.messages }
    {
        self.passed.len()
    }

    /// Makes room for so many more messages, whatever they say.
    #[inline]
    pub(crate) fn reserve(&mut self, more: usize) -> Result<(), AllocError>
        ensures messages { self.new.messages ≡ self.old.messages }
        ensures room { OnOk result (self.new.room ≡ max self.old.room more) }
        ensures refused { OnErr result (self.old.room < more) }
        ensures unchanged { OnErr result (self.new ≡ self.old) }
    {
        if more <= self.room {
            return Ok(());
        }
        self.passed.reserve(more)?;
        self.long.reserve(more)?;
        self.room = more;
        Ok(())
    }

    /// Adds a message in the room that is there.
    pub(crate) fn push(&mut self, message: &Message)
        requires { 0 < self.old.room }
        ensures { self.new ≡ record { messages = self.old.messages ++ message.now ∷ []; room = self.old.room - 1 } }
    {
        let passed = Passed::pack(message, &mut self.long);
        self.passed.push_reserved(passed);
        self.room -= 1;
    }

    /// The message at a place, counted from 0.
    pub fn get(&self, place: usize) -> Option<Message>
        // Promise: The messages that went through an end are counted, and each is given back at its place; past the last there is none.
        // Also: LinkLog::len.
        // Refuses: long_messages_counted, long_message_left_out, answer_left_out, later_messages_for_earlier_ones.
        ensures { result ≡ slice_get self.now.messages place }
    {
        let passed = self.passed.get(place)?;
        match passed.kind {
            PassedKind::Short(kind) => Some(Message::between(
                passed.sender,
                passed.receiver,
                passed.short(kind).body(),
            )),
            PassedKind::Long => self.long.get(passed.number as usize),
        }
    }

    /// Whether the message at a place, counted from 0, is this one.
    pub(crate) fn holds(&self, place: usize, message: &Message) -> bool
        ensures { IsTrue result ↔ (slice_get self.now.messages place ≡ Some message.now) }
    {
        match self.get(place) {
            Some(own) => own == *message,
            None => false,
        }
    }

    /// Whether both keep one short form at a place, counted from 0: no message is made for it.
    #[inline]
    pub(crate) fn is_alike(&self, other: &LinkLog, place: usize) -> bool
        ensures { IsTrue result → slice_get self.now.messages place ≡ slice_get other.now.messages place }
    {
        let (Some(own), Some(others)) = (self.passed.get(place), other.passed.get(place)) else {
            return false;
        };
        match own.kind {
            PassedKind::Short(_) => own.is_as(others),
            PassedKind::Long => false,
        }
    }
}
