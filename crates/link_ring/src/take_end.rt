ghost use Rattle.std.specs.Prelude.{◌≡◌, ◌<◌, [], ◌∷◌, ◌++◌, length, max, IfSome, IfNone, IsSome, None, OnOk, OnErr};
ghost use mathlib.Core.List.{IsPrefix};
ghost use Rattle.rtrb.specs.Ring.{received, known_items, consumer_capacity};
ghost use Rattle.link_ring.specs.Sides.{unused, with_room, TookNext};

use crate::link_log::LinkLog;
use crate::slot::Slot;
use group_task::NodeId;
use rtrb::Consumer;
use std::alloc::{AllocError, Global};
use std::marker::Model;
use wire_msg::Message;

/// The end of a link that its receiver holds.
#[derive(Drop)]
pub struct TakeEnd {
    sender: NodeId,
    receiver: NodeId,
    consumer: Consumer<Slot>,
    taken: LinkLog,
}

impl Model for TakeEnd {
    ghost use Rattle.std.specs.Prelude.{◌≡◌};
    ghost use Rattle.rtrb.specs.Ring.{received, known_items, consumer_capacity};
    ghost use Rattle.link_ring.specs.Sides.{Side};

    ghost Value = { Side };

    ghost view = { λ a. record { sender = a.sender; receiver = a.receiver; capacity = consumer_capacity a.consumer; messages = a.taken.messages; room = a.taken.room; seen = known_items a.consumer; ring = a.consumer.end.names.1; free = 0 } };

    ghost invariant = { λ a. received a.consumer ≡ a.taken.messages };
}

impl TakeEnd {
    /// The end over a ring that nothing was taken from.
    pub(crate) fn new(
        alloc: Global,
        sender: NodeId,
        receiver: NodeId,
        consumer: Consumer<Slot>,
    ) -> TakeEnd
        requires { (received consumer ≡ []) × (known_items consumer ≡ []) }
        ensures { result ≡ unused consumer.end.names.1 sender receiver (consumer_capacity consumer) }
    {
        TakeEnd {
            sender,
            receiver,
            consumer,
            taken: LinkLog::new(alloc),
        }
    }

    /// The node that puts.
    pub fn sender(&self) -> NodeId
        ensures { result ≡ self.now.sender }
    {
        self.sender
    }

    /// The node that takes.
    pub fn receiver(&self) -> NodeId
        ensures { result ≡ self.now.receiver }
    {
        self.receiver
    }

    /// All that was taken, in order.
    pub fn messages(&self) -> &LinkLog
        ensures { result.now.messages ≡ self.now.messages }
    {
        &self.taken
    }

    /// Makes room for so many more messages, whatever they say. It is room in the list of what was taken, not in the ring.
    #[inline]
    pub fn reserve(&mut self, more: usize) -> Result<(), AllocError>
        ensures reserved { OnOk result (self.new ≡ with_room self.old (max self.old.room more)) }
        ensures refused { OnErr result ((self.old.room < more) × (self.new ≡ self.old)) }
    {
        self.taken.reserve(more)
    }

    /// Takes the message that has been in the ring for longest, or answers none where it finds none: so never where an earlier
    /// look saw one that wasn't taken since. It takes no memory and waits for nobody.
    pub fn take(&mut self) -> Option<Message>
        requires { 0 < self.old.room }
        // Promise: A take that answers a message adds it behind all that was taken; one that answers none changes nothing.
        // Also: TakeEnd::take_into.
        // Refuses: taken_kept_back, first_seen_not_listed, place_left_empty.
        // Promise: While a message that was seen in the ring is left, a take answers the first of these, and none only where none
        // is left.
        // Also: empty, TakeEnd::take_into.
        // Refuses: take_that_never_looks, first_look_finds_none.
        ensures taken { IfSome result (λ message. TookNext message self.old self.new) }
        ensures empty { IfNone result ((self.old.seen ≡ []) × (self.new ≡ self.old)) }
    {
        let mut place = None;
        self.take_into(&mut place);
        place
    }

    /// The same into a place with no message, which stays so where none is found. It is short, and a message is made only where
    /// one is found.
    #[inline]
    pub fn take_into(&mut self, place: &mut Option<Message>)
        requires room { 0 < self.old.room }
        requires none { place.old ≡ None }
        ensures taken { IfSome place.new (λ message. TookNext message self.old self.new) }
        ensures empty { IfNone place.new ((self.old.seen ≡ []) × (self.new ≡ self.old)) }
    {
        pop(&mut self.consumer, place);
        if let Some(first) = place {
            self.taken.push(first);
        }
    }

    /// All that was taken, in order, once the end is given up.
    pub(crate) fn into_messages(self) -> LinkLog
        ensures { result.messages ≡ self.messages }
    {
        self.taken
    }
}

/// Takes the first message of the ring, into a place with no message.
#[inline]
fn pop(consumer: &mut Consumer<Slot>, place: &mut Option<Message>)
    requires none { place.old ≡ None }
    ensures ring { (consumer_capacity consumer.new ≡ consumer_capacity consumer.old) × (consumer.new.end.names ≡ consumer.old.end.names) }
    ensures taken { IfSome place.new (λ m. received consumer.new ≡ received consumer.old ++ m ∷ []) }
    ensures first { IfSome place.new (λ m. IsPrefix (known_items consumer.old) (m ∷ known_items consumer.new)) }
    ensures left { IfNone place.new (received consumer.new ≡ received consumer.old) }
    ensures empty { IfNone place.new ((known_items consumer.old ≡ []) × (known_items consumer.new ≡ [])) }
{
    if consumer.is_empty() {
        return;
    }
    pop_seen(consumer, place);
}

/// The same where a message was seen. It stands apart, since most looks find none, and here a whole message is made.
#[inline(never)]
fn pop_seen(consumer: &mut Consumer<Slot>, place: &mut Option<Message>)
    requires seen { 0 < length (known_items consumer.old) }
    ensures ring { (consumer_capacity consumer.new ≡ consumer_capacity consumer.old) × (consumer.new.end.names ≡ consumer.old.end.names) }
    ensures taken { IfSome place.new (λ m. (received consumer.new ≡ received consumer.old ++ m ∷ []) × (known_items consumer.old ≡ m ∷ known_items consumer.new)) }
    ensures some { IsSome place.new }
{
    *place = Some(consumer.pop_known().open());
}
