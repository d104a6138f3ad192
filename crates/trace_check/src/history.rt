ghost use Rattle.std.specs.Prelude.{◌≡◌, ◌≤◌, ◌<◌, ◌+◌, ◌-◌, ◌^◌, [], ◌∷◌, ◌++◌, length, slice_get, option_map, Some, None, IfSome, IsNone, IsTrue, ◌↔◌, OnOk, OnErr, vec_len, vec_capacity};
ghost use Rattle.job_model.specs.declared.payload.TheConstants.{PAYLOAD_CAPACITY};
ghost use Rattle.wire_msg.specs.Envelope.{Envelope};
ghost use Rattle.wire_msg.specs.Spelling.{Spells};
ghost use Rattle.trace_check.specs.Claims.{Claim, brought_by};
ghost use Rattle.trace_check.specs.Kept.{kept_action, part, payload_in};
ghost use Rattle.trace_check.specs.LentActions.{FitsPayload, action_lent};
ghost use Rattle.trace_check.specs.Given.{FitsGiven, action_given, sent_given};
ghost use Rattle.trace_check.specs.Traces.{claim, claim_seen};
ghost use Rattle.trace_check.specs.Views.{Stands, claim_kept};

use crate::kept::{
    PackedAction, PackedEntry, action_said, brought_at, keep_event, keep_lent_event,
};
use crate::lent_action::ActionRef;
use crate::stored::{StoredEntry, stored_action};
use crate::trace::TraceAction;
use group_task::NodeId;
use job_model::PAYLOAD_CAPACITY;
use message_list::{LentMessage, MessageList};
use std::alloc::{AllocError, Global};
use std::marker::Model;
use wire_msg::Message;

// the greatest number of 32 bits
const MOST: usize = u32::MAX as usize;

/// The entries of one node, in their order.
///
/// An entry takes 20 bytes, so a history has fewer than 2^32 messages and bytes of payloads. The message that it was brought and those that it sent stand in a list of messages, which
/// takes 16 bytes for most, and the payload of a job in a list of bytes.
#[derive(Debug, Drop)]
pub struct History {
    entries: Vec<StoredEntry>,
    messages: MessageList,
    payloads: Vec<u8>,
}

impl Model for History {
    ghost use Rattle.std.specs.Prelude.{List, map, length, All};
    ghost use Rattle.trace_check.specs.Claims.{Claim};
    ghost use Rattle.trace_check.specs.Stored.{claim_stored, IsStored};

    ghost Value = { List Claim };

    ghost view = { λ a. map (claim_stored a.messages.messages a.payloads.items) a.entries.items };

    ghost invariant = { λ a. All (IsStored (length a.messages.messages) (length a.payloads.items)) a.entries.items };
}

impl History {
    /// A history of no entries. It takes no memory.
    pub fn new(alloc: Global) -> History
        ensures { result ≡ [] }
    {
        History {
            entries: Vec::new(alloc),
            messages: MessageList::new(alloc),
            payloads: Vec::new(alloc),
        }
    }

    /// How many entries there are.
    pub fn len(&self) -> usize
        ensures { result ≡ length self.now }
    {
        self.entries.len()
    }

    /// Adds an entry: what was done, and the messages sent in their order. It is refused where memory is short, or where the history
    /// could come to 2^32 messages or bytes of payloads.
    pub fn push(&mut self, action: &TraceAction, sent: &[Message]) -> Result<(), AllocError>
        // Promise: A history is the list of its entries, each as it was put in; want of memory leaves it as it was.
        // Also: History::push_lent, History::entry.
        // Refuses: payload_read_from_the_start, entry_keeps_what_it_was_brought_as_sent, halves_of_an_id_swapped,
        // failed_command_stored_as_handled, first_lent_message_left_out.
        ensures added { OnOk result (self.new ≡ self.old ++ claim action.now sent.now ∷ []) }
        ensures refused { OnErr result (self.new ≡ self.old) }
    {
        self.put_in(&Given::Made(action, sent))
    }

    /// Adds an entry as `push` does, but what was done is lent, and so is what was sent: neither an event nor a message is made.
    pub fn push_lent(&mut self, action: &ActionRef<'_>, sent: &Sent<'_>) -> Result<(), AllocError>
        requires { FitsPayload action.now }
        ensures added { OnOk result (self.new ≡ self.old ++ claim (action_lent action.now) sent.now ∷ []) }
        ensures refused { OnErr result (self.new ≡ self.old) }
    {
        self.put_in(&Given::Lent(action, sent))
    }

    /// Adds an entry, as it is given.
    #[inline(always)]
    fn put_in(&mut self, given: &Given<'_>) -> Result<(), AllocError>
        requires { FitsGiven given.now }
        ensures added { OnOk result (self.new ≡ self.old ++ claim (action_given given.now) (sent_given given.now) ∷ []) }
        ensures refused { OnErr result (self.new ≡ self.old) }
    {
        make_room(
            &mut self.entries,
            &mut self.messages,
            &mut self.payloads,
            given.len(),
        )?;
        let action = given.keep_action(&mut self.messages, &mut self.payloads);
        let start = self.messages.len();
        given.keep_sent(&mut self.messages);
        self.entries.push_reserved(StoredEntry {
            action: stored_action(action),
            start: start as u32,
            end: self.messages.len() as u32,
        });
        Ok(())
    }

    /// The entry at this place.
    pub fn entry(&self, place: usize) -> Option<EntryView<'_>>
        ensures some { IfSome result (λ entry. slice_get self.now place ≡ Some (claim_seen entry)) }
        ensures none { IsNone result → slice_get self.now place ≡ None }
        ensures fits { IfSome result (λ _. place + 1 < 2 ^ 64) }
    {
        let Some(kept) = self.kept(place) else {
            return None;
        };
        let sent = kept.sent();
        let action = action_said(kept.messages, kept.payloads, kept.entry.action);
        Some(EntryView { action, sent })
    }

    /// The entry at this place, as it is kept.
    pub(crate) fn kept(&self, place: usize) -> Option<KeptView<'_>>
        ensures some { IfSome result (λ kept. slice_get self.now place ≡ Some (claim_kept kept)) }
        ensures none { IsNone result → slice_get self.now place ≡ None }
        ensures stands { IfSome result (λ kept. Stands kept) }
        ensures fits { IfSome result (λ _. place + 1 < 2 ^ 64) }
    {
        let entry = self.entries.get(place)?.entry();
        Some(KeptView {
            messages: &self.messages,
            payloads: &self.payloads,
            entry,
        })
    }

    /// The messages that the entry at this place sent.
    pub fn sent(&self, place: usize) -> Option<Sent<'_>>
        ensures { result ≡ option_map (λ (c : Claim). c.sent) (slice_get self.now place) }
    {
        let Some(kept) = self.kept(place) else {
            return None;
        };
        Some(kept.sent())
    }

    /// The message that the entry at this place was brought, alone: none where it was brought none. It isn't made for this.
    pub fn brought(&self, place: usize) -> Option<Sent<'_>>
        ensures { result ≡ option_map (λ (c : Claim). brought_by c.action) (slice_get self.now place) }
    {
        let Some(kept) = self.kept(place) else {
            return None;
        };
        Some(kept.brought())
    }
}

/// Makes room for an entry that sent so many messages. It is refused where memory is short, or where the history could come to 2^32
/// messages or bytes of payloads.
#[inline(always)]
fn make_room(
    entries: &mut Vec<StoredEntry>,
    messages: &mut MessageList,
    payloads: &mut Vec<u8>,
    sent: usize,
) -> Result<(), AllocError>
    ensures entries { entries.new.items ≡ entries.old.items }
    ensures messages { messages.new.messages ≡ messages.old.messages }
    ensures payloads { payloads.new.items ≡ payloads.old.items }
    ensures place { OnOk result (vec_len entries.new < vec_capacity entries.new) }
    ensures room { OnOk result (sent < messages.new.room) }
    ensures bytes { OnOk result (vec_len payloads.new + PAYLOAD_CAPACITY ≤ vec_capacity payloads.new) }
    ensures few { OnOk result (length messages.old.messages + sent + 1 < 2 ^ 32) }
    ensures short { OnOk result (length payloads.old.items + PAYLOAD_CAPACITY < 2 ^ 32) }
{
    if !is_room(messages.len(), sent, payloads.len()) {
        return Err(AllocError);
    }
    if entries.len() == entries.capacity() {
        entries.reserve(1)?;
    }
    if payloads.capacity() - payloads.len() < PAYLOAD_CAPACITY {
        payloads.reserve(PAYLOAD_CAPACITY)?;
    }
    messages.reserve(sent + 1)
}

// whether one message more and these, and the payload of one job, still have places of 32 bits
fn is_room(messages: usize, sent: usize, payloads: usize) -> bool
    ensures { IsTrue result ↔ ((messages + sent + 1 < 2 ^ 32) × (payloads + PAYLOAD_CAPACITY < 2 ^ 32)) }
{
    sent < MOST && messages < MOST - sent && payloads <= MOST - PAYLOAD_CAPACITY
}

/// Keeps messages, in the room that is there.
pub fn keep_messages(messages: &mut MessageList, sent: &[Message])
    requires { length sent.now ≤ messages.old.room }
    ensures { messages.new.messages ≡ messages.old.messages ++ sent.now }
{
    for message in sent {
        messages.push(message);
    }
}

// The same for messages that are lent: none is made for it.
fn keep_sent(messages: &mut MessageList, sent: &Sent<'_>)
    requires { length sent.now ≤ messages.old.room }
    ensures { messages.new.messages ≡ messages.old.messages ++ sent.now }
{
    for place in 0..sent.len() {
        let Some(message) = sent.lend(place) else {
            unreachable!()
        };
        messages.push_lent(&message);
    }
}

/// An entry as it is put in: what was done and what was sent, as they were made, or lent.
#[derive(Clone, Copy)]
pub(crate) enum Given<'a> {
    Made(&'a TraceAction, &'a [Message]),
    Lent(&'a ActionRef<'a>, &'a Sent<'a>),
}

impl<'a> Given<'a> {
    /// How many messages the entry sent.
    #[inline(always)]
    fn len(&self) -> usize
        ensures { result ≡ length (sent_given self.now) }
    {
        match self {
            Given::Made(_, sent) => sent.len(),
            Given::Lent(_, sent) => sent.len(),
        }
    }

    /// Keeps what was done, in the room that is there.
    #[inline(always)]
    fn keep_action(&self, messages: &mut MessageList, payloads: &mut Vec<u8>) -> PackedAction
        requires room { 1 ≤ messages.old.room }
        requires bytes { vec_len payloads.old + PAYLOAD_CAPACITY ≤ vec_capacity payloads.old }
        requires fits { FitsGiven self.now }
        ensures value { result ≡ kept_action (length messages.old.messages) (length payloads.old.items) (action_given self.now) }
        ensures messages { messages.new.messages ≡ messages.old.messages ++ brought_by (action_given self.now) }
        ensures left { messages.old.room ≤ messages.new.room + 1 }
        ensures payloads { payloads.new.items ≡ payloads.old.items ++ payload_in (action_given self.now) }
        ensures few { length (payload_in (action_given self.now)) ≤ PAYLOAD_CAPACITY }
    {
        match self {
            Given::Made(action, _) => match action {
                TraceAction::Nothing => PackedAction::Nothing,
                TraceAction::Done(event) => {
                    PackedAction::Done(keep_event(messages, payloads, event))
                }
                TraceAction::Faulted(event) => {
                    PackedAction::Faulted(keep_event(messages, payloads, event))
                }
                TraceAction::Crashed => PackedAction::Crashed,
                TraceAction::Recovered(kept) => PackedAction::Recovered(*kept),
                TraceAction::NotRecovered(kept, fault) => PackedAction::NotRecovered(*kept, *fault),
            },
            Given::Lent(action, _) => match action {
                ActionRef::Nothing => PackedAction::Nothing,
                ActionRef::Done(event) => {
                    PackedAction::Done(keep_lent_event(messages, payloads, event))
                }
                ActionRef::Faulted(event) => {
                    PackedAction::Faulted(keep_lent_event(messages, payloads, event))
                }
                ActionRef::Crashed => PackedAction::Crashed,
                ActionRef::Recovered(kept) => PackedAction::Recovered(*kept),
                ActionRef::NotRecovered(kept, fault) => PackedAction::NotRecovered(*kept, *fault),
            },
        }
    }

    /// Keeps what was sent, in the room that is there.
    #[inline(always)]
    fn keep_sent(&self, messages: &mut MessageList)
        requires { length (sent_given self.now) ≤ messages.old.room }
        ensures { messages.new.messages ≡ messages.old.messages ++ sent_given self.now }
    {
        match self {
            Given::Made(_, sent) => keep_messages(messages, sent),
            Given::Lent(_, sent) => keep_sent(messages, sent),
        }
    }
}

/// An entry of a history, lent.
#[derive(Debug, Drop)]
pub struct EntryView<'a> {
    pub action: TraceAction,
    pub sent: Sent<'a>,
}

/// An entry as it is kept, lent with what is kept beside it: no message of it is made.
#[derive(Clone, Copy)]
pub(crate) struct KeptView<'a> {
    pub(crate) messages: &'a MessageList,
    pub(crate) payloads: &'a [u8],
    pub(crate) entry: PackedEntry,
}

impl<'a> KeptView<'a> {
    /// The messages that the entry sent.
    pub(crate) fn sent(&self) -> Sent<'a>
        requires { Stands self.now }
        ensures { result ≡ (claim_kept self.now).sent }
    {
        Sent {
            messages: self.messages,
            start: self.entry.start,
            end: self.entry.end,
        }
    }

    /// The message that the entry was brought, alone: none where it was brought none.
    pub(crate) fn brought(&self) -> Sent<'a>
        requires { Stands self.now }
        ensures { result ≡ brought_by (claim_kept self.now).action }
    {
        let _many = self.messages.len();
        match brought_at(self.entry.action) {
            Some(start) => Sent {
                messages: self.messages,
                start,
                end: start + 1,
            },
            None => Sent {
                messages: self.messages,
                start: 0,
                end: 0,
            },
        }
    }
}

/// The messages that an entry of a log sent, in their order, or the one that it was brought, lent.
#[derive(Debug, Drop)]
pub struct Sent<'a> {
    messages: &'a MessageList,
    start: usize,
    end: usize,
}

impl<'a> Model for Sent<'a> {
    ghost use Rattle.std.specs.Prelude.{◌≤◌, List, length};
    ghost use Rattle.trace_check.specs.Kept.{kept_action, part, payload_in};
    ghost use Rattle.wire_msg.specs.Envelope.{Envelope};

    ghost Value = { List Envelope };

    ghost view = { λ a. part a.start a.end a.messages.now.messages };

    ghost invariant = { λ a. (a.start ≤ a.end) × (a.end ≤ length a.messages.now.messages) };
}

impl<'a> Sent<'a> {
    /// The messages of a list from `start` up to `end`.
    pub fn part(messages: &'a MessageList, start: usize, end: usize) -> Sent<'a>
        requires order { start ≤ end }
        requires within { end ≤ length messages.now.messages }
        ensures { result ≡ part start end messages.now.messages }
    {
        Sent {
            messages,
            start,
            end,
        }
    }

    /// No message, lent from the same list.
    pub(crate) fn none(&self) -> Sent<'a>
        ensures { result ≡ [] }
    {
        Sent {
            messages: self.messages,
            start: 0,
            end: 0,
        }
    }

    /// How many messages there are.
    #[tactic(auto, using(crate::proofs::KeptEntries::part_length))]
    pub fn len(&self) -> usize
        ensures { result ≡ length self.now }
    {
        self.end - self.start
    }

    /// Whether there is none.
    pub fn is_empty(&self) -> bool
        ensures { IsTrue result ↔ (self.now ≡ []) }
    {
        self.len() == 0
    }

    /// The message at this place.
    pub fn get(&self, place: usize) -> Option<Message>
        ensures { result ≡ slice_get self.now place }
    {
        if place < self.end - self.start {
            self.messages.get(self.start + place)
        } else {
            None
        }
    }

    /// Whether the message at this place is this one. None is made for it.
    pub fn holds(&self, place: usize, message: &Message) -> bool
        // Promise: Of the messages that an entry sent it is answered whether the one at a place is a given one, which node it is
        // for, and its one spelling, in place of what stood there, and none is made for it.
        // Also: Sent::receiver, Sent::spell.
        // Refuses: held_at_another_place, sender_answered_as_receiver, first_sent_spelled, spelled_from_an_earlier_turn.
        ensures { IsTrue result ↔ (slice_get self.now place ≡ Some message.now) }
    {
        if place < self.end - self.start {
            self.messages.holds(self.start + place, message)
        } else {
            false
        }
    }

    /// The node that the message at this place is for.
    pub fn receiver(&self, place: usize) -> Option<NodeId>
        ensures { result ≡ option_map (λ (m : Envelope). m.receiver) (slice_get self.now place) }
    {
        if place < self.end - self.start {
            let (_, receiver) = self.messages.ends(self.start + place)?;
            Some(receiver)
        } else {
            None
        }
    }

    /// The message at this place, lent as it is kept.
    pub fn lend(&self, place: usize) -> Option<LentMessage<'a>>
        ensures { result ≡ slice_get self.now place }
    {
        if place < self.end - self.start {
            self.messages.lend(self.start + place)
        } else {
            None
        }
    }

    /// Writes the spelling of the message at this place in place of what `bytes` held.
    #[tactic(auto, using(crate::proofs::KeptEntries::part_length))]
    pub fn spell(&self, place: usize, bytes: &mut Vec<u8>) -> Result<(), AllocError>
        requires { place < length self.now }
        ensures spelled { IfSome (slice_get self.now place) (λ message. OnOk result (Spells message bytes.new.items)) }
        ensures refused { OnErr result (bytes.new.items ≡ []) }
    {
        let many = self.end - self.start;
        if place >= many {
            unreachable!()
        }
        self.messages.spell(self.start + place, bytes)
    }
}
