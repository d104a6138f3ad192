ghost use Rattle.std.specs.Prelude.{◌≡◌, ◌<◌, ◌≤◌, ◌+◌, ◌++◌, [], length, max, false, true, IfSome, IfNone, IsNone, IsTrue, OnOk, OnErr};
ghost use Rattle.rtrb.specs.Ring.{sent, known_free, producer_capacity};
ghost use Rattle.link_ring.specs.Sides.{unused_put, with_room, HandedBack, PutNext};

use crate::carried::Spares;
use crate::link_log::LinkLog;
use crate::slot::Slot;
use group_task::NodeId;
use rtrb::Producer;
use std::alloc::{AllocError, Global};
use std::marker::Model;
use wire_msg::{Body, Message};

/// The end of a link that its sender holds.
#[derive(Drop)]
pub struct PutEnd {
    sender: NodeId,
    receiver: NodeId,
    producer: Producer<Slot>,
    spares: Spares,
    put: LinkLog,
}

impl Model for PutEnd {
    ghost use Rattle.std.specs.Prelude.{◌≡◌, ◌≤◌, ◌+◌, ◌-◌, [], length, min, vec_len};
    ghost use Rattle.rtrb.specs.Ring.{sent, known_free, producer_capacity};
    ghost use Rattle.link_ring.specs.Sides.{Side};

    ghost Value = { Side };

    ghost view = { λ a. record { sender = a.sender; receiver = a.receiver; capacity = producer_capacity a.producer; messages = a.put.messages; room = a.put.room; seen = []; ring = a.producer.end.names.1; free = known_free a.producer } };

    // a slot that no message went through is known to be free, and a box is spare for it where there is room for a message
    ghost invariant = { λ a. (sent a.producer ≡ a.put.messages) × (producer_capacity a.producer ≤ known_free a.producer + length a.put.messages) × (min a.put.room (producer_capacity a.producer - length a.put.messages) ≤ vec_len a.spares.boxes) };
}

impl PutEnd {
    /// The end over a ring that nothing was put into.
    pub(crate) fn new(
        alloc: Global,
        sender: NodeId,
        receiver: NodeId,
        producer: Producer<Slot>,
    ) -> PutEnd
        requires slots { (sent producer ≡ []) × (known_free producer ≡ producer_capacity producer) }
        ensures { result ≡ unused_put producer.end.names.1 sender receiver (producer_capacity producer) }
    {
        PutEnd {
            sender,
            receiver,
            producer,
            spares: Spares::new(alloc),
            put: LinkLog::new(alloc),
        }
    }

    /// The node that puts.
    pub fn sender(&self) -> NodeId
        ensures { result ≡ self.now.sender }
    {
        self.sender
    }

    /// The node that takes.
    pub fn receiver(&self) -> NodeId
        ensures { result ≡ self.now.receiver }
    {
        self.receiver
    }

    /// All that was put, in order.
    pub fn messages(&self) -> &LinkLog
        // Promise: Each end shows the list of what went through it.
        // Also: TakeEnd::messages.
        ensures { result.now.messages ≡ self.now.messages }
    {
        &self.put
    }

    /// Makes room for so many more messages, whatever they say. It is room in the list of what was put, not in the ring, and boxes for
    /// as many long bodies as the ring has slots.
    #[inline]
    pub fn reserve(&mut self, more: usize) -> Result<(), AllocError>
        // Promise: `reserve(n)` makes room for n more messages whatever they say. It is refused only where there isn't that much
        // room yet, and then nothing is changed. Puts and takes in that room take no memory.
        // Also: TakeEnd::reserve.
        // Refuses: half_the_room_to_put, half_the_room_to_take.
        ensures reserved { OnOk result (self.new ≡ with_room self.old (max self.old.room more)) }
        ensures refused { OnErr result ((self.old.room < more) × (self.new ≡ self.old)) }
    {
        let slots = self.producer.capacity();
        if !self.spares.has(more.min(slots)) {
            // a slot that a message went through may wait for its box
            let unused = slots.saturating_sub(self.put.len());
            if self.spares.boxes.len() < more.min(unused) {
                return Err(AllocError);
            }
        }
        self.put.reserve(more)
    }

    /// Puts a message on the link, or hands it back where the ring is full: it is lost then, unless it is put again once the
    /// receiver has taken some. It takes no memory and waits for nobody.
    pub fn put(&mut self, message: Message) -> Option<Message>
        requires { 0 < self.old.room }
        // Promise: A put that answers none adds its message behind all that was put; one that hands a message back hands back that
        // very message, and changes nothing. It is handed back only where the end sees no free slot, or no box for a long one.
        // Also: full, PutEnd::offer.
        // Refuses: full_once_its_capacity_went_through, loss_told_as_put, offer_not_listed, long_body_left_out, answer_turned_round,
        // lost_offer_answered_as_put.
        ensures put { IfNone result (PutNext message self.old self.new) }
        ensures full { IfSome result (λ back. (back ≡ message) × HandedBack message self.old self.new) }
        // Promise: No put is handed back before as many messages went through the end as the ring has slots.
        // Also: PutEnd::offer.
        // Refuses: put_dropped, no_box_for_a_long_body.
        ensures first { length self.old.messages < self.old.capacity → IsNone result }
    {
        if !self.offer(&message) {
            return Some(message);
        }
        None
    }

    /// Puts a message on the link, or answers false where the ring is full. The message is only looked at.
    pub fn offer(&mut self, message: &Message) -> bool
        requires { 0 < self.old.room }
        ensures put { result ≡ true → PutNext message.now self.old self.new }
        ensures full { result ≡ false → HandedBack message.now self.old self.new }
        ensures first { length self.old.messages < self.old.capacity → IsTrue result }
    {
        if self.producer.is_full() {
            return false;
        }
        let Some(held) = self.spares.pack(message) else {
            return false;
        };
        self.producer.push_reserved(Slot::of(held));
        self.put.push(message);
        true
    }

    /// All that was put, in order, once the end is given up.
    pub(crate) fn into_messages(self) -> LinkLog
        ensures { result.messages ≡ self.messages }
    {
        self.put
    }
}
