// How a process votes.
ghost use Rattle.std.specs.Prelude.{◌≡◌, ◌<◌, ◌^◌, ℕ, [], true, None};
ghost use Rattle.lease_runs.specs.Code.{client_of as by_code};
ghost use Rattle.lease_session.specs.Replies.{IsAnsweredBy, IsReplied, Replies, is_for};
ghost use Rattle.lease_session.specs.Rows.{said};
ghost use Rattle.lease_session.specs.Turns.{IsQuiet, IsRightVote, Turn, Voted, vote_of};
ghost use Rattle.lease_session.specs.Votes.{IsAllowed};

use crate::participant::Participant;
use crate::refusing::Refusal;
use crate::store::EpochStore;
use crate::writing::client_of;
use lease_machine::Vote;
use lease_message::{LeaseBody, LeaseMessage, LeaseName, Reason};
use lease_runs::ClientId;

/// How a request is voted on: it is granted, or why it isn't, and for how long at most the voter grants nothing to others.
#[derive(Clone, Copy, Debug, PartialEq, Eq)]
pub(crate) enum Answer {
    Granted,
    Refused(Reason, u64),
}

impl<S: EpochStore + Drop> Participant<S> {
    /// A message came.
    pub(crate) fn take(&mut self, now: u64, message: &LeaseMessage)
        requires { now < 2 ^ 62 }
        ensures turn { Turn [] (said message.now) now self.old.process self.new.process }
        ensures told { self.new.told ≡ self.old.told }
        ensures replies { Replies self.old.process.terms now message.now self.new.process }
    {
        match message.body {
            LeaseBody::Request {
                number,
                keeps,
                list,
            } => self.take_request(now, message, number, keeps, list),
            LeaseBody::Grant { number } => self.take_grant(now, message, number),
            LeaseBody::Refusal {
                number,
                reason,
                lasts,
            } => self.take_refusal(now, message, number, reason, lasts),
            LeaseBody::Release => self.take_release(now, message),
        }
    }

    /// Whether a message of another machine's client is for this voter.
    fn is_for_voter(&self, message: &LeaseMessage) -> bool
        ensures voter { result ≡ true → message.now.voter ≡ self.now.process.terms.machine }
        ensures exact { result ≡ is_for self.now.process.terms.machine self.now.process.terms.machines message.now }
    {
        message.voter == self.process.terms.machine()
            && message.client.machine != self.process.terms.machine()
            && message.client.machine.number() < self.process.terms.machines()
    }

    fn take_request(&mut self, now: u64, message: &LeaseMessage, number: u64, keeps: u64, list: u64)
        requires fits { now < 2 ^ 62 }
        requires body { message.now.body ≡ LeaseBody.Request number keeps list }
        ensures turn { Turn [] (said message.now) now self.old.process self.new.process }
        ensures told { self.new.told ≡ self.old.told }
        ensures replies { is_for self.old.process.terms.machine self.old.process.terms.machines message.now ≡ true → self.new.process.halt ≡ None
            → IsReplied self.old.process.terms now message.now number keeps list self.new.process }
    {
        if !self.is_for_voter(message) {
            return;
        }
        if keeps != self.process.terms.keeps() || list != self.process.terms.list() {
            self.process.refuse(Refusal::Terms);
            self.refuse_request(message, number, Reason::Terms, 0);
            return;
        }
        self.know(message.epoch);
        self.yield_to(now, &message.name, message.epoch);
        match self.vote(now, &message.name, client_of(message.client), message.epoch) {
            Answer::Granted => {
                self.process
                    .answer(message, message.epoch, LeaseBody::Grant { number });
            }
            Answer::Refused(reason, lasts) => {
                self.refuse_request(message, number, reason, lasts);
            }
        }
    }

    /// Answers a request that isn't granted.
    fn refuse_request(&mut self, request: &LeaseMessage, number: u64, reason: Reason, lasts: u64)
        requires { request.now.voter ≡ self.old.process.terms.machine }
        ensures turn { (now : ℕ) → Turn [] [] now self.old.process self.new.process }
        ensures told { self.new.told ≡ self.old.told }
        ensures replies { self.new.process.halt ≡ None → IsAnsweredBy request.now (LeaseBody.Refusal number reason lasts) self.new.process }
        ensures quiet { IsQuiet self.old.process self.new.process }
    {
        let epoch = self.greatest_of(&request.name);
        let body = LeaseBody::Refusal {
            number,
            reason,
            lasts,
        };
        self.process.answer(request, epoch, body);
    }

    /// The greatest epoch of a name of which the voter knows.
    pub(crate) fn greatest_of(&self, name: &LeaseName) -> u64 {
        match &self.process.machine {
            Some(machine) => machine.standing(name).last,
            None => self.process.start.floor,
        }
    }

    /// Votes on a request. An epoch above all that are reserved is reserved first, on the disk.
    pub(crate) fn vote(
        &mut self,
        now: u64,
        name: &LeaseName,
        client: ClientId,
        epoch: u64,
    ) -> Answer
        requires { now < 2 ^ 62 }
        ensures vote { (number : ℕ) → Voted (vote_of result) name.now (by_code client) number epoch now self.old.process self.new.process }
        ensures right { self.new.process.halt ≡ None → IsRightVote result self.new.process.machine now name.now (by_code client) epoch }
        ensures told { self.new.told ≡ self.old.told }
    {
        let waits = self.waits(now);
        let Some(machine) = &self.process.machine else {
            return Answer::Refused(Reason::Waiting, waits);
        };
        let standing = machine.standing(name);
        if standing.holder.is_some() && standing.holder != Some(client) && now < standing.ends {
            return Answer::Refused(Reason::Held, standing.ends - now);
        }
        self.reserve(epoch);
        match self.process.vote(now, name, client, epoch) {
            Vote::Granted => Answer::Granted,
            Vote::Refused => Answer::Refused(reason_of(waits), waits),
            Vote::Full => Answer::Refused(Reason::Full, 0),
        }
    }

    /// Reserves epochs up to this one at least, where it might be granted.
    fn reserve(&mut self, epoch: u64)
        ensures turn { (now : ℕ) → Turn [] [] now self.old.process self.new.process }
        ensures allows { self.new.process.halt ≡ None → IsAllowed epoch self.new.process.machine }
        ensures told { self.new.told ≡ self.old.told }
    {
        match &self.process.machine {
            Some(machine) if machine.bound() < epoch => {}
            _ => return,
        }
        match self.store.reserve(epoch) {
            Ok(()) => self.process.raise(self.store.bound()),
            Err(_) => self.process.stop(),
        }
    }

    /// How long the voter still waits behind its start.
    fn waits(&self, now: u64) -> u64 {
        let votes = self
            .began
            .unwrap_or(now)
            .saturating_add(self.process.terms.keeps());
        votes.saturating_sub(now)
    }

    /// A client stopped relying on an epoch. Who waits here for its name asks soon.
    fn take_release(&mut self, now: u64, message: &LeaseMessage)
        requires { message.now.body ≡ LeaseBody.Release }
        ensures turn { Turn [] (said message.now) now self.old.process self.new.process }
        ensures told { self.new.told ≡ self.old.told }
    {
        if !self.is_for_voter(message) {
            return;
        }
        self.process.take_release(message);
        self.wake(now, &message.name);
    }
}

/// Why a voter that waits for so long refuses what no other client has the grant of.
fn reason_of(waits: u64) -> Reason
    ensures { result ≡ Reason.Full → ⊥ }
{
    if waits > 0 {
        Reason::Waiting
    } else {
        Reason::Epoch
    }
}
