ghost use Rattle.std.specs.Prelude.{◌≡◌, ◌↔◌, ◌<◌, [], length, slice_get, Some, IfOk, OnOk, IsTrue};
ghost use Rattle.wire_msg.specs.Envelope.{Envelope};
ghost use Rattle.trace_check.specs.Posts.{IsPosted, Posts};

use crate::history::Sent;
use message_list::LentMessage;
use std::alloc::{AllocError, Global};
use std::collections::HashSet;
use std::marker::Model;

/// The messages that were sent, each lent by the history that says so.
#[derive(Drop)]
pub(crate) struct SentMessages<'a> {
    messages: HashSet<LentMessage<'a>>,
}

impl<'a> Model for SentMessages<'a> {
    ghost use Rattle.std.specs.Prelude.{List};
    ghost use Rattle.wire_msg.specs.Envelope.{Envelope};

    ghost Value = { List Envelope };

    ghost view = { λ a. a.messages.keys };
}

impl<'a> SentMessages<'a> {
    /// No message, with room for so many.
    pub(crate) fn with_room(alloc: Global, many: usize) -> Result<SentMessages<'a>, AllocError>
        ensures { IfOk result (λ posted. posted ≡ []) }
    {
        Ok(SentMessages {
            messages: HashSet::with_capacity(alloc, many)?,
        })
    }

    /// Whether the message at a place of these was sent.
    pub(crate) fn contains(&self, these: &Sent<'a>, place: usize) -> bool
        requires { place < length these.now }
        ensures { (m : Envelope) → slice_get these.now place ≡ Some m → IsTrue result ↔ IsPosted self.now m }
    {
        let Some(message) = these.lend(place) else {
            unreachable!()
        };
        self.messages.contains(&message)
    }

    /// Adds the message at a place of those that were sent. It may be there already.
    pub(crate) fn add(&mut self, sent: &Sent<'a>, place: usize) -> Result<(), AllocError>
        requires { place < length sent.now }
        ensures { (m : Envelope) → slice_get sent.now place ≡ Some m → OnOk result (Posts self.old self.new m) }
    {
        let Some(message) = sent.lend(place) else {
            unreachable!()
        };
        let Ok(_) = self.messages.insert(message) else {
            return Err(AllocError);
        };
        Ok(())
    }
}
