//! Entries as they are kept: an event has over 400 bytes, since the longest message has to fit in it, so what is longer than a
//! few bytes stands in lists beside.

ghost use Rattle.std.specs.Prelude.{◌≡◌, ◌≤◌, ◌<◌, ◌+◌, ◌++◌, length, vec_len, vec_capacity, Some};
ghost use Rattle.job_model.specs.declared.payload.TheConstants.{PAYLOAD_CAPACITY};
ghost use Rattle.node_core.specs.declared.event.Event.TheVariants as on;
ghost use Rattle.histories.specs.HistoryEvent.{brought};
ghost use Rattle.trace_check.specs.LentActions.{FitsEvent, event_lent};
ghost use Rattle.trace_check.specs.Kept.{kept_event, payload_of, event_said, action_said, delivered_at, brought_at, EventStands, ActionStands};

use crate::lent_action::EventRef;
use crate::trace::{RecoverFault, TraceAction};
use group_task::NodeId;
use job_model::{PAYLOAD_CAPACITY, Payload, Queue, Work};
use message_list::MessageList;
use node_core::{Event, Timer};

/// An event as it is kept.
#[derive(Clone, Copy, Debug)]
pub enum PackedEvent {
    Timer(Timer),
    /// The message stands at this place of its list.
    Deliver(usize),
    /// A queue and a priority; the payload has so many bytes, and begins at this place of all payloads.
    Submit(Queue, u8, u16, usize),
    Finish(NodeId, u64),
    Recover,
}

/// What was done, as it is kept.
#[derive(Clone, Copy)]
pub enum PackedAction {
    Nothing,
    Done(PackedEvent),
    Faulted(PackedEvent),
    Crashed,
    Recovered(bool),
    NotRecovered(bool, RecoverFault),
}

/// An entry as it is kept. What it sent stands in the list of messages from start up to end.
#[derive(Clone, Copy)]
pub struct PackedEntry {
    pub action: PackedAction,
    pub start: usize,
    pub end: usize,
}

/// Keeps an event, in the room that is there.
pub fn keep_event(messages: &mut MessageList, payloads: &mut Vec<u8>, event: &Event) -> PackedEvent
    requires room { 1 ≤ messages.old.room }
    requires bytes { vec_len payloads.old + PAYLOAD_CAPACITY ≤ vec_capacity payloads.old }
    ensures value { result ≡ kept_event (length messages.old.messages) (length payloads.old.items) event.now }
    ensures messages { messages.new.messages ≡ messages.old.messages ++ brought (Some event.now) }
    ensures left { messages.old.room ≤ messages.new.room + 1 }
    ensures payloads { payloads.new.items ≡ payloads.old.items ++ payload_of event.now }
    ensures few { length (payload_of event.now) ≤ PAYLOAD_CAPACITY }
    ensures long { vec_len payloads.new ≤ vec_len payloads.old + PAYLOAD_CAPACITY }
    ensures capacity { vec_capacity payloads.old ≤ vec_capacity payloads.new }
{
    let lent = match event {
        Event::Timer(timer) => EventRef::Timer(*timer),
        Event::Deliver(message) => EventRef::Deliver(message),
        Event::Submit(work) => EventRef::Submit(work.queue, work.priority, work.payload.as_slice()),
        Event::Finish(origin, id) => EventRef::Finish(*origin, *id),
        Event::Recover => EventRef::Recover,
    };
    keep_lent_event(messages, payloads, &lent)
}

/// The same for an event that is lent.
pub fn keep_lent_event(
    messages: &mut MessageList,
    payloads: &mut Vec<u8>,
    event: &EventRef<'_>,
) -> PackedEvent
    requires room { 1 ≤ messages.old.room }
    requires bytes { vec_len payloads.old + PAYLOAD_CAPACITY ≤ vec_capacity payloads.old }
    requires fits { FitsEvent event.now }
    ensures value { result ≡ kept_event (length messages.old.messages) (length payloads.old.items) (event_lent event.now) }
    ensures messages { messages.new.messages ≡ messages.old.messages ++ brought (Some (event_lent event.now)) }
    ensures left { messages.old.room ≤ messages.new.room + 1 }
    ensures payloads { payloads.new.items ≡ payloads.old.items ++ payload_of (event_lent event.now) }
    ensures long { vec_len payloads.new ≤ vec_len payloads.old + PAYLOAD_CAPACITY }
    ensures capacity { vec_capacity payloads.old ≤ vec_capacity payloads.new }
{
    match event {
        EventRef::Timer(timer) => PackedEvent::Timer(*timer),
        EventRef::Deliver(message) => {
            let place = messages.len();
            messages.push(message);
            PackedEvent::Deliver(place)
        }
        EventRef::Submit(queue, priority, payload) => {
            let start = payloads.len();
            let _ = payloads.extend_from_slice(payload);
            PackedEvent::Submit(*queue, *priority, payload.len() as u16, start)
        }
        EventRef::Finish(origin, id) => PackedEvent::Finish(*origin, *id),
        EventRef::Recover => PackedEvent::Recover,
    }
}

/// What was done, read back.
pub fn action_said(messages: &MessageList, payloads: &[u8], action: PackedAction) -> TraceAction
    requires { ActionStands (length messages.now.messages) (length payloads.now) action }
    ensures { result ≡ action_said messages.now.messages payloads.now action }
{
    match action {
        PackedAction::Nothing => TraceAction::Nothing,
        PackedAction::Done(event) => TraceAction::Done(event_said(messages, payloads, event)),
        PackedAction::Faulted(event) => TraceAction::Faulted(event_said(messages, payloads, event)),
        PackedAction::Crashed => TraceAction::Crashed,
        PackedAction::Recovered(kept) => TraceAction::Recovered(kept),
        PackedAction::NotRecovered(kept, fault) => TraceAction::NotRecovered(kept, fault),
    }
}

/// An event, read back.
pub fn event_said(messages: &MessageList, payloads: &[u8], event: PackedEvent) -> Event
    requires { EventStands (length messages.now.messages) (length payloads.now) event }
    ensures { result ≡ event_said messages.now.messages payloads.now event }
{
    let mut said = Event::Recover;
    read_event(messages, payloads, event, &mut said);
    said
}

/// Makes `said` an event, read back, in place, since an event is long: of one of its kind no more is written than it says.
pub fn read_event(messages: &MessageList, payloads: &[u8], event: PackedEvent, said: &mut Event)
    requires { EventStands (length messages.now.messages) (length payloads.now) event }
    ensures { said.new ≡ event_said messages.now.messages payloads.now event }
{
    match event {
        PackedEvent::Timer(timer) => set_timer(said, timer),
        PackedEvent::Deliver(place) => match messages.get(place) {
            Some(message) => *said = Event::Deliver(message),
            None => unreachable!(),
        },
        PackedEvent::Submit(queue, priority, len, start) => {
            let bytes = &payloads[start..start + usize::from(len)];
            set_submit(said, queue, priority, bytes);
        }
        PackedEvent::Finish(origin, id) => set_finish(said, origin, id),
        PackedEvent::Recover => *said = Event::Recover,
    }
}

fn set_timer(said: &mut Event, timer: Timer)
    ensures { said.new ≡ on.Timer timer }
{
    if let Event::Timer(old) = said {
        *old = timer;
        return;
    }
    *said = Event::Timer(timer);
}

fn set_submit(said: &mut Event, queue: Queue, priority: u8, payload: &[u8])
    requires { length payload.now ≤ PAYLOAD_CAPACITY }
    ensures { said.new ≡ on.Submit (record { queue = queue; priority = priority; payload = payload.now }) }
{
    if !matches!(said, Event::Submit(_)) {
        *said = Event::Submit(Work {
            queue,
            priority,
            payload: Payload::empty(),
        });
    }
    if let Event::Submit(work) = said {
        work.queue = queue;
        work.priority = priority;
        work.payload.set(payload);
    }
}

fn set_finish(said: &mut Event, origin: NodeId, id: u64)
    ensures { said.new ≡ on.Finish origin id }
{
    if let Event::Finish(node, job) = said {
        *node = origin;
        *job = id;
        return;
    }
    *said = Event::Finish(origin, id);
}

/// Where the message stands that a action was brought, if it was brought one.
pub fn brought_at(action: PackedAction) -> Option<usize>
    ensures { result ≡ brought_at action }
{
    match action {
        PackedAction::Done(event) | PackedAction::Faulted(event) => delivered_at(event),
        _ => None,
    }
}

fn delivered_at(event: PackedEvent) -> Option<usize>
    ensures { result ≡ delivered_at event }
{
    match event {
        PackedEvent::Deliver(place) => Some(place),
        _ => None,
    }
}
