ghost use Rattle.std.specs.Prelude.{◌≡◌, ◌-◌, ◌+◌, ◌*◌, ◌<◌, ◌≤◌, ◌↔◌, [], ◌∷◌, ◌++◌, length, max, option_map, slice_get, Some, None, IfSome, IsTrue, MatchBool, OnOk, OnErr};
ghost use Rattle.job_model.specs.declared.payload.TheConstants.{PAYLOAD_CAPACITY};
ghost use Rattle.wire_msg.specs.Spelling.{spelling, IsMessage};
ghost use Rattle.message_list.specs.Lent.{message_at, message_opened, IsOpened};
ghost use Rattle.message_list.specs.PackedMessages.{ends_of};

use crate::lent::LentMessage;
use crate::opened::{
    Opened, is_message, keep_lent_payload, keep_lent_task, keep_lent_work, lent_letter_of,
};
use crate::packed_message::{
    PackedMessage, PackedWork, keep_payload, keep_task, keep_work, letter_of, read_letter,
};
use crate::spelling::{spell_letter, spell_message};
use group_task::{NodeId, Task};
use job_model::PAYLOAD_CAPACITY;
use std::alloc::{AllocError, Global};
use std::marker::Model;
use wire_msg::Message;

/// Messages in the order in which they were added.
///
/// Each takes 16 bytes, a Ready 32 more, and a Work 48 more and the bytes of its payload: so a long list takes about what the
/// spellings of its messages take.
#[derive(Debug, Drop)]
pub struct MessageList {
    letters: Vec<PackedMessage>,
    tasks: Vec<Task>,
    works: Vec<PackedWork>,
    payloads: Vec<u8>,
    // for so many more messages there is room, whatever they say
    room: usize,
    // and for so many there is memory
    spare: usize,
}

// memory is taken for so many messages at once, where as many are kept
const AHEAD: usize = 16;

impl Model for MessageList {
    ghost use Rattle.std.specs.Prelude.{map};
    ghost use Rattle.message_list.specs.PackedMessages.{MessagesKept, message_of};

    ghost Value = { MessagesKept };

    ghost use Rattle.message_list.specs.Rooms.{IsKept};

    ghost view = { λ a. record { messages = map (message_of a.tasks.items a.works.items a.payloads.items) a.letters.items; room = a.room } };

    ghost invariant = { IsKept };
}

impl MessageList {
    /// An empty list. It takes no memory before its first message.
    pub fn new(alloc: Global) -> MessageList
        // Promise: A list begins empty and with no room.
        // Refuses: room_from_the_start.
        ensures { result ≡ record { messages = []; room = 0 } }
    {
        MessageList {
            letters: Vec::new(alloc),
            tasks: Vec::new(alloc),
            works: Vec::new(alloc),
            payloads: Vec::new(alloc),
            room: 0,
            spare: 0,
        }
    }

    /// How many messages there are.
    pub fn len(&self) -> usize
        // Promise: How many messages there are.
        // Refuses: tasks_counted.
        ensures { result ≡ length self.now.messages }
    {
        self.letters.len()
    }

    /// Makes room for so many more messages, whatever they say.
    #[inline(always)]
    pub fn reserve(&mut self, more: usize) -> Result<(), AllocError>
        // Promise: `reserve(n)` makes room for n more messages whatever they say. It is refused only where there isn't that much
        // room yet, and then nothing is changed.
        // Refuses: room_for_empty_payloads, spare_without_memory.
        ensures messages { self.new.messages ≡ self.old.messages }
        ensures room { OnOk result (self.new.room ≡ max self.old.room more) }
        ensures refused { OnErr result (self.old.room < more) }
        ensures unchanged { OnErr result (self.new ≡ self.old) }
    {
        if more <= self.room {
            return Ok(());
        }
        if more <= self.spare {
            self.room = more;
            return Ok(());
        }
        self.grow(more)
    }

    // Takes memory for more messages than there is memory for, and for some that may come behind them. It stands apart, so that the
    // question whether there is room is short.
    #[inline(never)]
    fn grow(&mut self, more: usize) -> Result<(), AllocError>
        requires { self.old.room < more }
        ensures messages { self.new.messages ≡ self.old.messages }
        ensures room { OnOk result (self.new.room ≡ more) }
        ensures unchanged { OnErr result (self.new ≡ self.old) }
    {
        let many = more.max(self.letters.len().min(AHEAD));
        let Some(bytes) = many.checked_mul(PAYLOAD_CAPACITY) else {
            return Err(AllocError);
        };
        self.letters.reserve(many)?;
        self.tasks.reserve(many)?;
        self.works.reserve(many)?;
        self.payloads.reserve(bytes)?;
        self.spare = many;
        self.room = more;
        Ok(())
    }

    /// Adds a message in the room that is there.
    pub fn push(&mut self, message: &Message)
        requires { 0 < self.old.room }
        // Promise: A message that is put in comes last, the others stay, and one place of the room is used up. In the room that is
        // there it can't be refused. So it is with one that is lent by another list, and none is made for it.
        // Also: MessageList::push_lent.
        // Refuses: payload_of_the_first_work, room_not_used_up, lent_work_keeps_its_place, lent_payload_left_out.
        ensures { self.new ≡ record { messages = self.old.messages ++ message.now ∷ []; room = self.old.room - 1 } }
    {
        let body = message.body();
        let packed_message = letter_of(message, self.tasks.len(), self.works.len());
        keep_task(&mut self.tasks, body);
        keep_work(&mut self.works, self.payloads.len(), body);
        keep_payload(&mut self.payloads, body);
        self.letters.push_reserved(packed_message);
        self.room -= 1;
        self.spare -= 1;
    }

    /// Adds a message of another list in the room that is there, as it is kept. None is made for it.
    pub fn push_lent(&mut self, message: &LentMessage<'_>)
        requires { 0 < self.old.room }
        ensures { self.new ≡ record { messages = self.old.messages ++ message.now ∷ []; room = self.old.room - 1 } }
    {
        let lent = message.list.opened(message.place);
        let packed_message = lent_letter_of(&lent, self.tasks.len(), self.works.len());
        keep_lent_task(&mut self.tasks, &lent);
        keep_lent_work(&mut self.works, self.payloads.len(), &lent);
        keep_lent_payload(&mut self.payloads, &lent);
        self.letters.push_reserved(packed_message);
        self.room -= 1;
        self.spare -= 1;
    }

    /// Takes all messages out. The memory that they took stays the list's.
    pub fn clear(&mut self)
        // Promise: Once it is cleared, a list has no message, and the room that it had.
        // Refuses: cleared_but_for_the_first, payloads_left_out_of_what_fits.
        ensures { self.new ≡ record { messages = []; room = self.old.room } }
    {
        self.letters.clear();
        self.tasks.clear();
        self.works.clear();
        self.payloads.clear();
        let fitting = fitting(
            self.letters.capacity(),
            self.tasks.capacity(),
            self.works.capacity(),
            self.payloads.capacity(),
        );
        if self.spare < fitting {
            self.spare = fitting;
        }
    }

    /// The message at a place, counted from 0.
    pub fn get(&self, place: usize) -> Option<Message>
        // Promise: Each message that was put in is given back, at its place; past the last there is none. `read` gives it in the
        // place of another message, which stays where there is none.
        // Also: MessageList::read.
        // Refuses: sender_and_receiver_swapped, read_past_the_last, wire_msg::accept_said_as_invitation,
        // wire_msg::accept_kept_as_invitation.
        ensures { result ≡ slice_get self.now.messages place }
    {
        let mut message = Message::blank();
        if self.read(place, &mut message) {
            Some(message)
        } else {
            None
        }
    }

    /// Makes `message` the one at a place, counted from 0, as `get` gives it, but in place, since a message is long. False says
    /// that there is none: then `message` stays.
    pub fn read(&self, place: usize, message: &mut Message) -> bool
        ensures { MatchBool result (slice_get self.now.messages place ≡ Some message.new) ((slice_get self.now.messages place ≡ None) × (message.new ≡ message.old)) }
    {
        let Some(packed_message) = self.letters.get(place) else {
            return false;
        };
        read_letter(
            &self.tasks,
            &self.works,
            &self.payloads,
            packed_message,
            message,
        );
        true
    }

    /// Whether the message at a place, counted from 0, is this one. None is made for it.
    pub fn holds(&self, place: usize, message: &Message) -> bool
        // Promise: Whether the message at a place is a given one is answered without it being made; past the last it is none.
        // Refuses: held_at_its_neighbour, task_of_the_first_ready_held.
        ensures { IsTrue result ↔ (slice_get self.now.messages place ≡ Some message.now) }
    {
        place < self.letters.len() && is_message(&self.opened(place), message)
    }

    /// The message at a place, counted from 0, lent as it is kept.
    pub fn lend(&self, place: usize) -> Option<LentMessage<'_>>
        // Promise: The message at a place is lent without it being made; past the last there is none. Two that are lent, also by
        // two lists, are equal just where they are one message, and then hash alike.
        // Refuses: mark_without_count, lent_at_its_neighbour, lent_tasks_not_compared, mark_of_what_is_not_said.
        ensures { result ≡ slice_get self.now.messages place }
    {
        if place < self.letters.len() {
            Some(LentMessage { list: self, place })
        } else {
            None
        }
    }

    /// The packed message at a place, with what is kept beside it.
    pub(crate) fn opened(&self, place: usize) -> Opened<'_>
        requires { place < length self.now.messages }
        ensures message { message_opened result ≡ message_at self.now.messages place }
        ensures opened { IsOpened result }
    {
        Opened {
            tasks: &self.tasks,
            works: &self.works,
            payloads: &self.payloads,
            packed_message: &self.letters[place],
        }
    }

    /// The sender and the receiver of the message at a place, counted from 0.
    pub fn ends(&self, place: usize) -> Option<(NodeId, NodeId)>
        // Promise: The two ends of a message are answered without it being made.
        // Refuses: ends_swapped.
        ensures { result ≡ option_map ends_of (slice_get self.now.messages place) }
    {
        let packed_message = self.letters.get(place)?;
        Some((packed_message.sender, packed_message.receiver))
    }

    /// Writes the spelling of the message at a place, counted from 0, in place of what `bytes` held. A list that is used again and
    /// again takes memory for the longest spelling alone.
    pub fn spell(&self, place: usize, bytes: &mut Vec<u8>) -> Result<(), AllocError>
        requires { place < length self.now.messages }
        // Promise: The spelling of a message is written from what is kept of it: the one spelling of the message at that place, of
        // every kind; refused for want of memory, the bytes are empty.
        // Refuses: spelled_from_its_neighbour, refused_spelling_stays, wire_msg::accept_numbered_as_invitation.
        ensures spelled { IfSome (slice_get self.now.messages place) (λ message. OnOk result (bytes.new.items ≡ spelling message)) }
        ensures message { IfSome (slice_get self.now.messages place) (λ message. OnOk result (IsMessage message)) }
        ensures refused { OnErr result (bytes.new.items ≡ []) }
    {
        let Some(packed_message) = self.letters.get(place) else {
            unreachable!()
        };
        let is_whole = spell_letter(bytes, packed_message);
        if is_whole.is_err() {
            bytes.clear();
        }
        if is_whole? {
            return Ok(());
        }
        self.spell_kept(place, bytes)
    }

    /// The same for a message whose body is kept beside its packed message. It stands apart, since each call of a function pays for the size of
    /// its locals, and here a whole message is one.
    #[inline(never)]
    fn spell_kept(&self, place: usize, bytes: &mut Vec<u8>) -> Result<(), AllocError>
        requires { place < length self.now.messages }
        ensures spelled { IfSome (slice_get self.now.messages place) (λ message. OnOk result (bytes.new.items ≡ spelling message)) }
        ensures message { IfSome (slice_get self.now.messages place) (λ message. OnOk result (IsMessage message)) }
        ensures refused { OnErr result (bytes.new.items ≡ []) }
    {
        let mut message = Message::blank();
        if !self.read(place, &mut message) {
            unreachable!()
        }
        spell_message(bytes, &message)
    }
}

// For how many messages there is memory in an empty list: each may want a place in all four.
fn fitting(letters: usize, tasks: usize, works: usize, payloads: usize) -> usize
    ensures lists { (result ≤ letters) × (result ≤ tasks) × (result ≤ works) }
    ensures payloads { PAYLOAD_CAPACITY * result ≤ payloads }
{
    letters
        .min(tasks)
        .min(works)
        .min(payloads / PAYLOAD_CAPACITY)
}
