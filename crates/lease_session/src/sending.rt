// What a process writes.
ghost use Rattle.std.specs.Prelude.{◌≡◌, ◌++◌, ℕ, List, [], IfOk, OnOk, None};
ghost use Rattle.lease_network.specs.Network.{Name};
ghost use Rattle.lease_message.specs.declared.message.LeaseMessage.{LeaseMessage as Message};
ghost use Rattle.lease_session.specs.Lines.{IsEnded, Says};
ghost use Rattle.lease_session.specs.Replies.{IsAnsweredBy, IsToldWhy};
ghost use Rattle.lease_session.specs.Rows.{held, lost, refused, row_text, said, send};
ghost use Rattle.lease_session.specs.Saying.{TellsNews};
ghost use Rattle.lease_session.specs.Telling.{told_row};
ghost use Rattle.lease_session.specs.Turns.{Carries, GoesTo, IsQuiet, IsStill, IsTheClients, TellsUser, Turn, key_of};

use crate::process::LeaseProcess;
use crate::refusing::{Halt, Refusal};
use crate::seals::LeaseSeal;
use crate::told::{Told, forget_told, is_told, keep_told};
use crate::writing::{
    push_fault, push_held, push_lost, push_next, push_refused, push_send, push_unserved,
};
use group_task::NodeId;
use lease_message::{LeaseBody, LeaseMessage, LeaseName, encode};
use std::alloc::{AllocError, Global};

/// The bytes of a message, sealed where there is a key, by a process of this number.
fn bytes_of(
    alloc: Global,
    seal: &mut Option<LeaseSeal>,
    process: u64,
    message: &LeaseMessage,
) -> Result<Vec<u8>, AllocError>
    ensures bytes { IfOk result (λ bytes. Carries (key_of seal.old) bytes.items message.now) }
    ensures key { key_of seal.new ≡ key_of seal.old }
{
    let mut bytes = encode(alloc, message)?;
    match seal {
        Some(seal) => match seal.seal(&mut bytes, process) {
            Ok(()) => Ok(bytes),
            Err(error) => Err(error),
        },
        None => Ok(bytes),
    }
}

impl LeaseProcess {
    /// Sends a message to a machine.
    pub(crate) fn send(&mut self, to: NodeId, message: &LeaseMessage)
        requires { GoesTo self.old.terms.machine to message.now message.now.body }
        ensures turn { (now : ℕ) → Turn (said message.now) [] now self.old self.new }
        ensures quiet { IsQuiet self.old self.new }
        ensures writes { self.new.halt ≡ None → (bytes : List ℕ) × Carries (key_of self.new.seal) bytes message.now
            × (self.new.text.items ≡ self.old.text.items ++ row_text (send to message.now bytes)) }
    {
        if self.halt.is_some() {
            return;
        }
        match bytes_of(self.alloc, &mut self.seal, self.start.process, message) {
            Ok(bytes) => match push_send(&mut self.text, to, &bytes) {
                Ok(()) => {}
                Err(_) => self.run_out(),
            },
            Err(_) => self.run_out(),
        }
    }

    /// Sends a message of a client here to each other machine.
    pub(crate) fn send_to_others(&mut self, message: &LeaseMessage)
        requires client { message.now.client.machine ≡ self.old.terms.machine }
        requires body { IsTheClients message.now.body }
        ensures turn { (now : ℕ) → Turn (said message.now) [] now self.old self.new }
        ensures quiet { IsQuiet self.old self.new }
    {
        for number in 0..self.terms.machines() {
            self.send_to(number, message);
        }
    }

    /// Sends it to the voter of this number, where that isn't this machine's own.
    fn send_to(&mut self, number: u8, message: &LeaseMessage)
        requires client { message.now.client.machine ≡ self.old.terms.machine }
        requires body { IsTheClients message.now.body }
        ensures turn { (now : ℕ) → Turn (said message.now) [] now self.old self.new }
        ensures quiet { IsQuiet self.old self.new }
    {
        match NodeId::new(number) {
            Some(voter) if voter != self.terms.machine() => {
                let message = LeaseMessage {
                    client: message.client,
                    voter,
                    epoch: message.epoch,
                    body: message.body,
                    name: message.name,
                };
                self.send(voter, &message);
            }
            _ => {}
        }
    }

    /// Answers a request of another machine's client.
    pub(crate) fn answer(&mut self, request: &LeaseMessage, epoch: u64, body: LeaseBody)
        requires { GoesTo self.old.terms.machine request.now.client.machine (record request.now { body = body }) body }
        ensures turn { (now : ℕ) → Turn (said (record request.now { epoch = epoch; body = body })) [] now self.old self.new }
        ensures replies { self.new.halt ≡ None → IsAnsweredBy request.now body self.new }
        ensures quiet { IsQuiet self.old self.new }
    {
        let message = LeaseMessage {
            client: request.client,
            voter: request.voter,
            epoch,
            body,
            name: request.name,
        };
        self.send(request.client.machine, &message);
    }

    /// The user who asks here for a name is told that it holds its lease, where its client does and that is news.
    pub(crate) fn tell_held(&mut self, now: u64, name: &LeaseName)
        ensures { TellsNews now name.now self.old self.new }
    {
        if self.halt.is_some() {
            return;
        }
        let Some(machine) = &self.machine else {
            return;
        };
        let Some(claim) = machine.claimed(name) else {
            return;
        };
        let Some(request) = machine.held(now, name) else {
            return;
        };
        let Some(until) = request.sent.checked_add(self.terms.relies_for()) else {
            self.run_out();
            return;
        };
        let news = Told {
            name: *name,
            user: claim.user,
            epoch: request.epoch,
            until,
        };
        if is_told(&self.told, &news) {
            return;
        }
        match self.say_held(&news) {
            Ok(()) => {}
            Err(_) => self.run_out(),
        }
    }

    fn say_held(&mut self, news: &Told) -> Result<(), AllocError>
        ensures said { OnOk result (self.new.text.items ≡ self.old.text.items ++ row_text (held news.now.name news.now.user news.now.epoch news.now.until)) }
        ensures told { OnOk result (self.new.told.items ≡ told_row self.old.told.items (held news.now.name news.now.user news.now.epoch news.now.until)) }
        ensures quiet { IsQuiet self.old self.new }
        ensures halt { self.new.halt ≡ self.old.halt }
    {
        keep_told(&mut self.told, news)?;
        push_held(
            &mut self.text,
            &news.name,
            news.user,
            news.epoch,
            news.until,
        )
    }

    /// And holds it no more.
    pub(crate) fn tell_lost(&mut self, name: &LeaseName, epoch: u64)
        requires { self.old.halt ≡ None }
        ensures { TellsUser (lost name.now epoch) self.old self.new }
    {
        forget_told(&mut self.told, name);
        if push_lost(&mut self.text, name, epoch).is_err() {
            self.run_out();
        }
    }

    /// Something isn't taken.
    pub(crate) fn refuse(&mut self, why: Refusal)
        ensures turn { (now : ℕ) → Turn [] [] now self.old self.new }
        ensures still { IsStill self.old self.new }
        ensures says { Says (refused why) self.old self.new }
    {
        if self.halt.is_some() {
            return;
        }
        match push_refused(&mut self.text, why) {
            Ok(()) => {}
            Err(_) => self.run_out(),
        }
    }

    /// A user's request isn't taken.
    pub(crate) fn refuse_user(&mut self, why: Refusal, name: &LeaseName, user: u64)
        ensures turn { (now : ℕ) → Turn [] [] now self.old self.new }
        ensures says { self.new.halt ≡ None → IsToldWhy why name.now user self.new }
        ensures quiet { IsQuiet self.old self.new }
    {
        if self.halt.is_some() {
            return;
        }
        match push_unserved(&mut self.text, why, name, user) {
            Ok(()) => {}
            Err(_) => self.run_out(),
        }
    }

    /// The line ends: when something is due next, or that the device failed, which is the last that is told. Whether it is.
    pub(crate) fn end_line(&mut self, due: Option<u64>) -> Result<bool, AllocError>
        ensures ended { IfOk result (λ stops. IsEnded due stops self.old self.new) }
        ensures quiet { IsQuiet self.old self.new }
    {
        match self.halt {
            None => {
                push_next(&mut self.text, due)?;
                Ok(false)
            }
            Some(Halt::Device) => {
                push_fault(&mut self.text)?;
                Ok(true)
            }
            Some(Halt::NoMemory) => Err(AllocError),
        }
    }
}
