ghost use Rattle.std.specs.Prelude.{◌≡◌, ◌≢◌, ◌≤◌, length, option_map};
ghost use Rattle.job_model.specs.declared.payload.TheConstants.{PAYLOAD_CAPACITY};
ghost use Rattle.wire_msg.specs.Envelope.{envelope};
ghost use Rattle.wire_msg.specs.Kinds.{said, given, IsCounted};
ghost use Rattle.wire_msg.specs.Reading.{whole_at};
ghost use Rattle.wire_msg.specs.declared.body.Body.TheVariants.{AreYouCoordinator};

use crate::body::{Body, LentWork};
use crate::reading::read;
use crate::short::Short;
use group_task::NodeId;
use std::marker::Model;

/// A message from one node to another. It takes over 400 bytes, since the longest payload has room in it.
#[derive(Clone, Copy, Debug, PartialEq, Eq)]
pub struct Message {
    sender: NodeId,
    receiver: NodeId,
    body: Body,
}

impl Model for Message {
    ghost use Rattle.std.specs.Prelude.{◌≢◌};
    ghost use Rattle.wire_msg.specs.Envelope.{Envelope};

    ghost Value = { Envelope };

    ghost view = { λ a. record { sender = a.sender; receiver = a.receiver; body = a.body } };

    ghost invariant = { λ a. a.sender ≢ a.receiver };

    ghost inverse = { λ m. record { sender = m.sender; receiver = m.receiver; body = m.body } };
}

impl Message {
    /// The message, unless sender and receiver are the same node.
    #[inline]
    pub fn new(sender: NodeId, receiver: NodeId, body: Body) -> Option<Message>
        // Promise: A message's sender and receiver differ: `new` answers None exactly where they are equal; `sender`, `receiver`,
        // `body` give its parts; `set` makes it another one in its place, and `set_work` a Work.
        // Also: Message::between, Message::set, Message::set_work, LentWork::write_to, Message::sender, Message::receiver, Message::body.
        // Refuses: equal_ends_made, receiver_for_sender, sender_for_receiver, between_one_node, sender_stays, given_work_turned_round,
        // old_payload_stays, old_id_stays, old_answer_stays, old_group_of_a_here_stays.
        ensures { result ≡ envelope sender receiver body }
    {
        if sender == receiver {
            return None;
        }
        Some(Message::between(sender, receiver, body))
    }

    /// The node that sent it; it is not the receiver.
    #[inline]
    pub fn sender(&self) -> NodeId
        ensures value { result ≡ self.now.sender }
        ensures differ { self.now.sender ≢ self.now.receiver }
    {
        self.sender
    }

    /// The node that it is for.
    #[inline]
    pub fn receiver(&self) -> NodeId
        ensures value { result ≡ self.now.receiver }
    {
        self.receiver
    }

    /// What it says.
    #[inline]
    pub fn body(&self) -> &Body
        ensures { result.now ≡ self.now.body }
    {
        &self.body
    }

    /// The message between two nodes that are known to differ.
    #[inline]
    pub fn between(sender: NodeId, receiver: NodeId, body: Body) -> Message
        requires { sender ≢ receiver }
        ensures { result ≡ record { sender = sender; receiver = receiver; body = body } }
    {
        Message {
            sender,
            receiver,
            body,
        }
    }

    /// Makes this a message for another node than its sender.
    #[inline]
    pub fn readdress(&mut self, receiver: NodeId)
        requires { self.old.sender ≢ receiver }
        // Promise: A message made for another node says the same, from the same sender.
        // Refuses: readdressed_to_nobody.
        ensures { self.new ≡ record { sender = self.old.sender; receiver = receiver; body = self.old.body } }
    {
        let to = &mut self.receiver;
        *to = receiver;
    }

    /// Makes this the message between two nodes that are known to differ. It is written in place, since a message is long.
    #[inline]
    pub fn set(&mut self, sender: NodeId, receiver: NodeId, body: Body)
        requires { sender ≢ receiver }
        ensures { self.new ≡ record { sender = sender; receiver = receiver; body = body } }
    {
        *self = Message {
            sender,
            receiver,
            body,
        };
    }

    /// The same for the body of this short form.
    #[inline]
    pub fn set_short(&mut self, sender: NodeId, receiver: NodeId, short: Short)
        requires ends { sender ≢ receiver }
        requires counted { IsCounted short }
        ensures { self.new ≡ record { sender = sender; receiver = receiver; body = said short } }
    {
        (self.sender, self.receiver) = (sender, receiver);
        short.write_to(&mut self.body);
    }

    /// The same for this Work, whose payload is lent.
    #[inline]
    pub fn set_work(&mut self, sender: NodeId, receiver: NodeId, work: &LentWork<'_>)
        requires ends { sender ≢ receiver }
        requires fits { length work.now.payload.now ≤ PAYLOAD_CAPACITY }
        ensures { self.new ≡ record { sender = sender; receiver = receiver; body = given work.now } }
    {
        (self.sender, self.receiver) = (sender, receiver);
        work.write_to(&mut self.body);
    }

    /// Some message, in whose place others are read one after another.
    #[inline]
    pub fn blank() -> Message
        ensures { result ≡ record { sender = 0; receiver = 1; body = AreYouCoordinator } }
    {
        Message::between(
            NodeId::numbered(0),
            NodeId::numbered(1),
            Body::AreYouCoordinator,
        )
    }

    /// Makes this the message that the bytes spell, all of them. Where they spell none, it is some message.
    #[inline(always)]
    pub(crate) fn read(&mut self, bytes: &[u8]) -> Option<()>
        ensures { option_map (λ _. self.new) result ≡ whole_at bytes.now }
    {
        let ends = read(bytes, &mut self.body)?;
        (self.sender, self.receiver) = ends;
        Some(())
    }
}
