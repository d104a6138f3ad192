// Messages of leases under a key.
ghost use Rattle.std.specs.Prelude.{◌≡◌, ℕ, IfSome, IsNone, None, OnOk, Some};
ghost use Rattle.sealed_msg.specs.Sealing.{sealed};
ghost use Rattle.lease_session.specs.Opening.{Brings, came_fresh, is_fresh, opened_under, sender_of};

use crate::asked::Came;
use crate::refusing::Refusal;
use group_task::{NODES, NodeId};
use lease_message::{LeaseBody, LeaseMessage, decode};
use sealed_msg::{Key, OpenedMessage, Stamp};
use std::alloc::AllocError;

/// What seals the messages of a process and opens those that come: a key, and maybe another that only opens.
#[derive(Drop)]
pub struct LeaseSeal {
    own: Key,
    other: Option<Key>,
    // the stamp of what was taken last of each machine
    last: [Stamp; NODES as usize],
    // how many messages were sealed
    number: u64,
}

impl LeaseSeal {
    /// Seals and opens by the first key, and opens by the other too.
    pub fn new(own: Key, other: Option<Key>) -> LeaseSeal
        ensures { (result.own ≡ own) × (result.other ≡ other) }
    {
        let none = Stamp { life: 0, number: 0 };
        LeaseSeal {
            own,
            other,
            last: [none; NODES as usize],
            number: 0,
        }
    }

    /// What bytes bring that came. The stamp of a message that is taken is kept.
    pub(crate) fn open(&mut self, bytes: &[u8]) -> Option<Came>
        ensures brings { Brings (Some self.old) bytes.now result }
        ensures key { self.new.own ≡ self.old.own }
    {
        let Some(opened) = self.opened(bytes) else {
            return Some(Came::Unsealed(Refusal::Forged));
        };
        let message = decode(opened.message)?;
        Some(self.take(message, opened.stamp))
    }

    /// What a message brings that was sealed with this stamp.
    fn take(&mut self, message: LeaseMessage, stamp: Stamp) -> Came
        ensures came { result ≡ came_fresh (is_fresh self.old message stamp) message }
        ensures key { self.new.own ≡ self.old.own }
    {
        let sender = usize::from(sender_of(&message).number());
        if !stamp.is_above(self.last[sender]) {
            return Came::Unsealed(Refusal::Stale);
        }
        self.last[sender] = stamp;
        Came::Message(message)
    }

    fn opened<'a>(&self, bytes: &'a [u8]) -> Option<OpenedMessage<'a>>
        ensures opened { IfSome result (λ it. opened_under self.now bytes.now ≡ Some (it.message.now, it.stamp)) }
        ensures none { IsNone result → opened_under self.now bytes.now ≡ None }
    {
        match self.own.open(bytes) {
            Some(opened) => Some(opened),
            None => match &self.other {
                Some(other) => other.open(bytes),
                None => None,
            },
        }
    }

    /// Puts a stamp and a tag behind a message of the process of this number.
    pub(crate) fn seal(&mut self, bytes: &mut Vec<u8>, process: u64) -> Result<(), AllocError>
        ensures sealed { OnOk result ((number : ℕ) × (bytes.new.items ≡ sealed self.old.own bytes.old.items (record { life = process; number = number }))) }
        ensures key { self.new.own ≡ self.old.own }
    {
        let Some(number) = self.number.checked_add(1) else {
            return Err(AllocError);
        };
        self.number = number;
        self.own.seal(
            bytes,
            Stamp {
                life: process,
                number,
            },
        )
    }
}

/// Who sent a message.
fn sender_of(message: &LeaseMessage) -> NodeId
    ensures { result ≡ sender_of message.now }
{
    match message.body {
        LeaseBody::Request { .. } | LeaseBody::Release => message.client.machine,
        LeaseBody::Grant { .. } | LeaseBody::Refusal { .. } => message.voter,
    }
}
