//! Lists of events, kept as the entries of a trace keep them.

ghost use Rattle.std.specs.Prelude.{◌≡◌, ◌<◌, ◌-◌, [], ◌∷◌, ◌++◌, length, max, slice_get, Some, IfOk, OnOk, OnErr};

use job_model::PAYLOAD_CAPACITY;
use message_list::MessageList;
use node_core::Event;
use std::alloc::{AllocError, Global};
use std::marker::Model;
use trace_check::{PackedEvent, event_said, keep_event, read_event};

/// Events in the order in which they were added.
///
/// Each takes 24 bytes, a delivery 16 more for most messages, and a new job the bytes of its payload.
#[derive(Debug, Drop)]
pub struct EventList {
    kept: Vec<PackedEvent>,
    messages: MessageList,
    payloads: Vec<u8>,
    // for so many more events there is room, whatever they are
    room: usize,
}

impl Model for EventList {
    ghost use Rattle.std.specs.Prelude.{map};
    ghost use Rattle.node_lock.specs.Events.{EventsKept};
    ghost use Rattle.trace_check.specs.Kept.{event_said};

    ghost Value = { EventsKept };

    ghost use Rattle.node_lock.specs.Rooms.{IsKept};

    ghost view = { λ a. record { events = map (event_said a.messages.messages a.payloads.items) a.kept.items; room = a.room } };

    ghost invariant = { IsKept };
}

impl EventList {
    /// An empty list, with memory for so many events but for what they bring.
    pub fn with_capacity(alloc: Global, events: usize) -> Result<EventList, AllocError>
        ensures { IfOk result (λ list. list ≡ record { events = []; room = 0 }) }
    {
        Ok(EventList {
            kept: Vec::with_capacity(alloc, events)?,
            messages: MessageList::new(alloc),
            payloads: Vec::new(alloc),
            room: 0,
        })
    }

    /// How many events there are.
    pub fn len(&self) -> usize
        ensures { result ≡ length self.now.events }
    {
        self.kept.len()
    }

    /// Makes room for so many more events, whatever they are.
    pub fn reserve(&mut self, more: usize) -> Result<(), AllocError>
        ensures events { self.new.events ≡ self.old.events }
        ensures room { OnOk result (self.new.room ≡ max self.old.room more) }
        ensures refused { OnErr result (self.old.room < more) }
        ensures unchanged { OnErr result (self.new ≡ self.old) }
    {
        if more <= self.room {
            return Ok(());
        }
        let Some(bytes) = more.checked_mul(PAYLOAD_CAPACITY) else {
            return Err(AllocError);
        };
        self.kept.reserve(more)?;
        self.messages.reserve(more)?;
        self.payloads.reserve(bytes)?;
        self.room = more;
        Ok(())
    }

    /// Adds an event in the room that is there.
    pub fn push(&mut self, event: &Event)
        requires { 0 < self.old.room }
        ensures { self.new ≡ record { events = self.old.events ++ event.now ∷ []; room = self.old.room - 1 } }
    {
        let kept = keep_event(&mut self.messages, &mut self.payloads, event);
        self.kept.push_reserved(kept);
        self.room -= 1;
    }

    /// The event at a place, counted from 0.
    pub fn get(&self, place: usize) -> Option<Event>
        ensures { result ≡ slice_get self.now.events place }
    {
        let kept = self.kept.get(place)?;
        Some(event_said(&self.messages, &self.payloads, *kept))
    }

    /// Puts the event at a place, counted from 0, in place of another one: it is copied once.
    pub fn read(&self, place: usize, event: &mut Event)
        requires { place < length self.now.events }
        ensures { slice_get self.now.events place ≡ Some event.new }
    {
        let Some(kept) = self.kept.get(place) else {
            unreachable!()
        };
        read_event(&self.messages, &self.payloads, *kept, event);
    }
}
