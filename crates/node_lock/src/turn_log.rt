//! The history of a node: what came of the turns of its workers.

ghost use Rattle.std.specs.Prelude.{◌≡◌, ◌≤◌, ◌<◌, ◌-◌, List, [], ◌∷◌, ◌++◌, length, slice_get, None, Some, IfOk, IfSome, IsNone, OnOk};
ghost use Rattle.histories.specs.EventOutcomes.{what_of};
ghost use Rattle.node_core.specs.declared.event.Event.{Event};
ghost use Rattle.wire_msg.specs.Envelope.{Envelope};
ghost use Rattle.node_lock.specs.Kept.{IsHandledAt, IsQuietAt, WhatStands, what_in, what_quiet};
ghost use Rattle.node_lock.specs.Seen.{turn_seen};
ghost use Rattle.node_lock.specs.declared.line.Quiet.{Quiet};

use crate::event_list::EventList;
use crate::line::{Line, MOST_KEPT, PackedHistoryEvent, Quiet};
use crate::worker::Worker;
use histories::{EventOutcome, HistoryEvent, NoOpKind};
use message_list::MessageList;
use node_core::Event;
use std::alloc::{AllocError, Global};
use std::marker::Model;
use trace_check::{Sent, keep_messages};
use wire_msg::Message;

/// The turns that were taken at a node, in their order. A poll that took nothing, an event that was refused and an order that
/// arms the disk are turns too.
///
/// A turn takes 32 bytes, with an event 24 more; a message that was delivered or sent takes 16 for most, one that was lost 16 more, and a
/// new job the bytes of its payload. There is room for 2^32 - 1 messages and as many events.
#[derive(Debug, Drop)]
pub struct TurnLog {
    lines: Vec<Line>,
    sent: MessageList,
    events: EventList,
    losses: Vec<Loss>,
    failures: u64,
}

/// A message that a turn sent and that went onto no link: its link was full, or none leads to its receiver.
#[derive(Clone, Copy, Debug, PartialEq, Eq)]
pub struct Loss {
    /// The turn's place in its node's history.
    pub turn: usize,
    /// The message's place among those that the turn sent.
    pub message: usize,
}

impl Model for TurnLog {
    ghost use Rattle.std.specs.Prelude.{◌-◌, ◌≤◌, All, length, map, min, vec_len, vec_capacity};
    ghost use Rattle.node_lock.specs.Kept.{LineStands, Log, turn_in};
    ghost use Rattle.node_lock.specs.declared.line.Line.{Line};
    ghost use Rattle.node_lock.specs.declared.line.TheConstants.{MOST_KEPT};

    ghost Value = { Log };

    ghost view = { λ a. record { turns = map (turn_in a.sent.messages a.events.events) a.lines.items; numbers = map (λ (l : Line). l.number) a.lines.items; room = vec_capacity a.lines - vec_len a.lines; sends = min a.sent.room (MOST_KEPT - length a.sent.messages); events = min a.events.room (MOST_KEPT - length a.events.events); losses = vec_capacity a.losses - vec_len a.losses; lost = a.losses.items; failures = a.failures } };

    ghost invariant = { λ a. All (LineStands (length a.sent.messages) (length a.events.events)) a.lines.items × (length a.sent.messages ≤ MOST_KEPT) };
}

impl TurnLog {
    /// A history of no turns, with memory for so many but for what events bring and what they send, and with room for a turn that sends so
    /// many messages.
    pub(crate) fn with_capacity(
        alloc: Global,
        turns: usize,
        messages: usize,
    ) -> Result<TurnLog, AllocError>
        ensures turns { IfOk result (λ log. log.turns ≡ []) }
        ensures numbers { IfOk result (λ log. log.numbers ≡ []) }
        ensures lost { IfOk result (λ log. log.lost ≡ []) }
    {
        let mut log = TurnLog {
            lines: Vec::with_capacity(alloc, turns)?,
            sent: MessageList::new(alloc),
            events: EventList::with_capacity(alloc, turns)?,
            losses: Vec::new(alloc),
            failures: 0,
        };
        log.reserve(messages)?;
        Ok(log)
    }

    /// How many turns there are.
    pub fn len(&self) -> usize
        ensures turns { result ≡ length self.now.turns }
        ensures numbers { result ≡ length self.now.numbers }
    {
        self.lines.len()
    }

    /// Makes room for one turn more that hands no event to its node.
    pub(crate) fn reserve_quiet(&mut self) -> Result<(), AllocError>
        ensures turns { self.new.turns ≡ self.old.turns }
        ensures numbers { self.new.numbers ≡ self.old.numbers }
        ensures lost { self.new.lost ≡ self.old.lost }
        ensures room { OnOk result (0 < self.new.room) }
    {
        Ok(self.lines.reserve(1)?)
    }

    /// Makes room for one turn more, which sends at most so many messages.
    pub(crate) fn reserve(&mut self, messages: usize) -> Result<(), AllocError>
        ensures turns { self.new.turns ≡ self.old.turns }
        ensures numbers { self.new.numbers ≡ self.old.numbers }
        ensures lost { self.new.lost ≡ self.old.lost }
        ensures room { OnOk result (0 < self.new.room) }
        ensures sends { OnOk result (messages ≤ self.new.sends) }
        ensures events { OnOk result (0 < self.new.events) }
        ensures losses { OnOk result (messages ≤ self.new.losses) }
    {
        if MOST_KEPT - self.sent.len() < messages || MOST_KEPT <= self.events.len() {
            return Err(AllocError);
        }
        self.lines.reserve(1)?;
        self.events.reserve(1)?;
        self.losses.reserve(messages)?;
        self.sent.reserve(messages)
    }

    /// Notes that the message at this place of those that the next turn sends was lost, in the room that is there.
    pub(crate) fn lose(&mut self, message: usize)
        requires { 0 < self.old.losses }
        // Promise: What a turn put on no link is noted with the turn's own place, and is shown so, in order.
        // Also: TurnLog::losses, send_all.
        // Refuses: loss_of_the_next_turn, no_loss_shown, sent_noted_as_lost.
        ensures { self.new ≡ record self.old { losses = self.old.losses - 1; lost = self.old.lost ++ (record { turn = length self.old.turns; message = message }) ∷ [] } }
    {
        self.losses.push_reserved(Loss {
            turn: self.lines.len(),
            message,
        });
    }

    /// Adds a turn that handed an event to its node, in the room that is there.
    pub(crate) fn push(
        &mut self,
        worker: Worker,
        index: u32,
        number: u32,
        event: &Event,
        event_outcome: EventOutcome,
        sent: &[Message],
    )
        requires room { 0 < self.old.room }
        requires sends { length sent.now ≤ self.old.sends }
        requires events { 0 < self.old.events }
        ensures turns { self.new.turns ≡ self.old.turns ++ (record { worker = worker; index = index; entry = record { what = what_of event.now event_outcome; sent = sent.now } }) ∷ [] }
        ensures numbers { self.new.numbers ≡ self.old.numbers ++ number ∷ [] }
        ensures lost { self.new.lost ≡ self.old.lost }
    {
        let place = self.events.len() as u32;
        self.events.push(event);
        let start = self.sent.len() as u32;
        keep_messages(&mut self.sent, sent);
        self.lines.push_reserved(Line {
            worker,
            index,
            number,
            what: PackedHistoryEvent::Handed(event_outcome, place),
            start,
            end: self.sent.len() as u32,
        });
    }

    /// Adds a turn that handed no event to its node, in the room that is there.
    pub(crate) fn push_quiet(&mut self, worker: Worker, index: u32, number: u32, quiet: Quiet)
        requires { 0 < self.old.room }
        ensures turns { self.new.turns ≡ self.old.turns ++ (record { worker = worker; index = index; entry = record { what = what_quiet quiet; sent = [] } }) ∷ [] }
        ensures numbers { self.new.numbers ≡ self.old.numbers ++ number ∷ [] }
        ensures lost { self.new.lost ≡ self.old.lost }
    {
        self.lines.push_reserved(Line {
            worker,
            index,
            number,
            what: PackedHistoryEvent::Quiet(quiet),
            start: 0,
            end: 0,
        });
    }

    /// The number of the turn at this place among the turns of all nodes ([`TurnNumbers`](crate::TurnNumbers)).
    pub fn number(&self, place: usize) -> Option<u32>
        // Promise: The number that a turn drew is kept with it, and each turn has one.
        // Also: TurnLog::len.
        // Refuses: index_told_as_number.
        ensures { result ≡ slice_get self.now.numbers place }
    {
        let line = self.lines.get(place)?;
        Some(line.number)
    }

    /// The messages that were sent and lost, in the order in which they were sent.
    pub fn losses(&self) -> &[Loss]
        ensures { result.now ≡ self.now.lost }
    {
        &self.losses
    }

    /// The history is over, and so many calls of its node's disk failed.
    pub(crate) fn end(&mut self, failures: u64)
        ensures { self.new ≡ record self.old { failures = failures } }
    {
        self.failures = failures;
    }

    /// How many calls of its node's disk failed: known once the history is over.
    pub fn failures(&self) -> u64
        ensures { result ≡ self.now.failures }
    {
        self.failures
    }

    /// What came of the turn at this place, where no event was handed to its node: none only where one was, or no turn stands
    /// there. Most turns are such, and it is small, which an [`Entry`] isn't.
    pub fn quiet(&self, place: usize) -> Option<Quiet>
        // Promise: A turn is answered as quiet exactly where it sent nothing and a rest or a crash came of it: no event was handed
        // to its node.
        // Refuses: event_answered_as_quiet, never_quiet.
        ensures some { IfSome result (λ quiet. IsQuietAt place quiet self.now.turns) }
        ensures none { IsNone result → (quiet : Quiet) → IsQuietAt place quiet self.now.turns → ⊥ }
    {
        let line = self.lines.get(place)?;
        match line.what {
            PackedHistoryEvent::Quiet(quiet) if line.start == line.end => Some(quiet),
            _ => None,
        }
    }

    /// What the turn at this place sent, where an event was handled in it: then `event` is that event. None only where none was,
    /// or no turn stands there. It copies the event once; an [`Entry`] is copied whole, again and again.
    pub fn handled(&self, place: usize, event: &mut Event) -> Option<Sent<'_>>
        // Promise: The event of a turn is answered, with what it sent, exactly where it was handled.
        // Also: EventList::read.
        // Refuses: event_not_answered, handled_answered_as_none, event_read_as_recovery.
        ensures some { IfSome result (λ sent. IsHandledAt place event.new sent self.now.turns) }
        ensures none { IsNone result → (event : Event) → (sent : List Envelope) → IsHandledAt place event sent self.now.turns → ⊥ }
    {
        let line = self.lines.get(place)?;
        let PackedHistoryEvent::Handed(event_outcome, at) = line.what else {
            return None;
        };
        let EventOutcome::Done = event_outcome else {
            return None;
        };
        self.events.read(at as usize, event);
        Some(Sent::part(&self.sent, line.start as usize, line.end as usize))
    }

    /// The turn at this place.
    pub fn entry(&self, place: usize) -> Option<Entry<'_>>
        ensures some { IfSome result (λ entry. slice_get self.now.turns place ≡ Some (turn_seen entry)) }
        ensures none { IsNone result → slice_get self.now.turns place ≡ None }
    {
        let line = self.lines.get(place)?;
        Some(Entry {
            worker: line.worker,
            index: u64::from(line.index),
            what: what_in(&self.events, line.what),
            sent: Sent::part(&self.sent, line.start as usize, line.end as usize),
        })
    }
}

/// What came of a turn, by its event.
fn what_in(events: &EventList, what: PackedHistoryEvent) -> HistoryEvent
    requires { WhatStands (length events.now.events) what }
    ensures { result ≡ what_in events.now.events what }
{
    match what {
        PackedHistoryEvent::Handed(event_outcome, place) => match events.get(place as usize) {
            Some(event) => event_outcome.what(&event),
            None => unreachable!(),
        },
        PackedHistoryEvent::Quiet(Quiet::Rested) => HistoryEvent::NoOp(NoOpKind::Nothing),
        PackedHistoryEvent::Quiet(Quiet::Crashed) => HistoryEvent::Crashed,
    }
}

/// One turn of a worker, lent.
#[derive(Debug, Drop)]
pub struct Entry<'a> {
    pub worker: Worker,
    /// Its number in the worker's plan, counted from 0.
    pub index: u64,
    /// What came of it: the entry of the node's history.
    pub what: HistoryEvent,
    /// The messages that the node sent, those that a full link lost among them.
    pub sent: Sent<'a>,
}
