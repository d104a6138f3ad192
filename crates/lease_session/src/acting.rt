// What the machine of a process does.
ghost use Rattle.std.specs.Prelude.{◌≡◌, ◌<◌, ◌^◌, ◌≤◌, ℕ, [], ◌∷◌, IfSome, IsNone, None, true, false};
ghost use Rattle.lease_runs.specs.Code.{client_of as by_code};
ghost use Rattle.lease_network.specs.Network.{request as request_of, grant as grant_of};
ghost use Rattle.lease_session.specs.Replies.{IsClaimedBy, IsClaimedIn};
ghost use Rattle.lease_session.specs.Rows.{asker, said};
ghost use Rattle.lease_session.specs.Votes.{IsAllowed, IsCrowdedOut, IsForbidden, IsGrantedBy};
ghost use Rattle.lease_session.specs.Telling.{NoneUpTo};
ghost use Rattle.lease_session.specs.Turns.{AllowsNoMore, AllowsUpTo, AsksAs, GaveUp, IsClientOf, Requested, Turn, Voted, claim_of};

use crate::process::LeaseProcess;
use crate::told::told_up_to;
use crate::writing::{client_of, named};
use group_task::NodeId;
use lease_machine::Vote;
use lease_message::{LeaseBody, LeaseClient, LeaseMessage, LeaseName};
use lease_runs::ClientId;

impl LeaseProcess {
    /// The user who asks here for a name asks no more.
    pub(crate) fn withdraw(&mut self, name: &LeaseName)
        ensures nobody { IsClaimedIn self.new.machine name.now → ⊥ }
        ensures turn { (now : ℕ) → Turn [] [] now self.old self.new }
        ensures bound { AllowsNoMore self.old self.new }
    {
        lease_steps::asking_is_steps();
        if let Some(machine) = &mut self.machine {
            machine.withdraw(name);
        }
    }

    /// Allows epochs up to this bound, which the disk allows.
    pub(crate) fn raise(&mut self, bound: u64)
        ensures turn { (now : ℕ) → Turn [] [] now self.old self.new }
        ensures bound { AllowsUpTo bound self.old self.new }
        ensures allows { (epoch : ℕ) → epoch ≤ bound → IsAllowed epoch self.new.machine }
    {
        lease_steps::votes_are_steps();
        match &mut self.machine {
            Some(machine) if machine.bound() < bound => machine.raise(bound),
            _ => {}
        }
    }

    /// Votes on a request.
    pub(crate) fn vote(&mut self, now: u64, name: &LeaseName, client: ClientId, epoch: u64) -> Vote
        requires { now < 2 ^ 63 }
        ensures vote { (number : ℕ) → Voted result name.now (by_code client) number epoch now self.old self.new }
        ensures granted { result ≡ Vote.Granted → IsGrantedBy self.new.machine now name.now (by_code client) epoch }
        ensures refused { result ≡ Vote.Refused → IsAllowed epoch self.old.machine → IsForbidden self.new.machine now name.now (by_code client) epoch }
        ensures full { result ≡ Vote.Full → IsCrowdedOut self.new.machine now name.now (by_code client) epoch }
        ensures bound { AllowsNoMore self.old self.new }
    {
        lease_steps::votes_are_steps();
        match &mut self.machine {
            Some(machine) => machine.vote(now, name, client, epoch),
            None => Vote::Refused,
        }
    }

    /// Takes a release of another machine's client.
    pub(crate) fn take_release(&mut self, message: &LeaseMessage)
        requires { message.now.body ≡ LeaseBody.Release }
        ensures turn { (now : ℕ) → Turn [] (said message.now) now self.old self.new }
        ensures bound { AllowsNoMore self.old self.new }
    {
        lease_steps::votes_are_steps();
        if let Some(machine) = &mut self.machine {
            machine.release(&message.name, client_of(message.client), message.epoch);
        }
    }

    /// The client that asks here for a name sends a request under an epoch to each other machine. The client, and the number of the request; none
    /// where it may not ask.
    pub(crate) fn request(
        &mut self,
        now: u64,
        name: &LeaseName,
        epoch: u64,
    ) -> Option<(ClientId, u64)>
        ensures some { IfSome result (λ it. Requested name.now it.0 it.1 epoch now self.old self.new) }
        ensures none { IsNone result → Turn [] [] now self.old self.new }
        ensures bound { AllowsNoMore self.old self.new }
    {
        lease_steps::asking_is_steps();
        let asks = self.client_at(name)?;
        let client = named(asks)?;
        let machine = match &mut self.machine {
            Some(machine) => machine,
            None => return None,
        };
        let request = machine.ask(now, name, epoch)?;
        let message = LeaseMessage {
            client,
            voter: self.terms.machine(),
            epoch,
            body: LeaseBody::Request {
                number: request.number,
                keeps: self.terms.keeps(),
                list: self.terms.list(),
            },
            name: *name,
        };
        self.send_to_others(&message);
        Some((asks, request.number))
    }

    /// A voter granted a request of a client here. Where the client keeps a lease then of which its user wasn't told, the user is told of it.
    pub(crate) fn hear(
        &mut self,
        now: u64,
        name: &LeaseName,
        client: ClientId,
        voter: NodeId,
        number: u64,
    )
        ensures turn { Turn [] (grant_of name.now (by_code client) number voter ∷ []) now self.old self.new }
        ensures bound { AllowsNoMore self.old self.new }
    {
        lease_steps::asking_is_steps();
        let Some(machine) = &mut self.machine else {
            return;
        };
        machine.hear(now, name, client, voter, number);
        self.tell_held(now, name);
    }

    /// The client that asks here for a name relies on its epoch no more. It says so to its user, where that was told that it holds the lease, and then
    /// to the voters, of which one is here. A process that halts says nothing more, and gives nothing up.
    pub(crate) fn give_up(&mut self, name: &LeaseName, epoch: u64)
        ensures turn { (now : ℕ) → Turn [] [] now self.old self.new }
        ensures bound { AllowsNoMore self.old self.new }
    {
        if self.halt.is_some() {
            return;
        }
        let Some(gives_up) = self.client_at(name) else {
            return;
        };
        let Some(client) = named(gives_up) else {
            return;
        };
        self.give_up_told(name, epoch);
        let message = LeaseMessage {
            client,
            voter: self.terms.machine(),
            epoch,
            body: LeaseBody::Release,
            name: *name,
        };
        self.take_release(&message);
        self.send_to_others(&message);
    }

    /// The client that asks here for a name gives its epochs up to this one up, and its user is told, where that was told that it holds one of them.
    fn give_up_told(&mut self, name: &LeaseName, epoch: u64)
        requires { self.old.halt ≡ None }
        ensures gave { (client : ClientId) → IsClientOf self.old.machine name.now client → (now : ℕ) → GaveUp name.now (by_code client) epoch now self.old self.new }
        ensures terms { self.new.terms ≡ self.old.terms }
        ensures bound { AllowsNoMore self.old self.new }
    {
        lease_steps::asking_is_steps();
        let told = told_up_to(&self.told, name, epoch);
        let Some(machine) = &mut self.machine else {
            return;
        };
        machine.give_up(name, epoch);
        match told {
            Some(told) => self.tell_lost(name, told),
            None => {}
        }
    }

    /// The client that asks here for a name.
    pub(crate) fn client_at(&self, name: &LeaseName) -> Option<ClientId>
        ensures some { IfSome result (λ client. IsClientOf self.now.machine name.now client) }
        ensures none { IsNone result → claim_of self.now.machine name.now ≡ None }
    {
        let Some(machine) = &self.machine else {
            return None;
        };
        match machine.claimed(name) {
            Some(claim) => Some(claim.client()),
            None => None,
        }
    }

    /// A client of this process relies on epochs of a name up to this one no more, for good. False says that the machine hasn't begun, or that a user was
    /// told that it holds one of them.
    fn stop_relying(&mut self, client: LeaseClient, name: &LeaseName, epoch: u64) -> bool
        requires machine { client.machine ≡ self.old.terms.machine }
        requires process { client.process ≡ self.old.start.process }
        requires counted { client.number ≤ self.old.claims }
        ensures done { result ≡ true → (now : ℕ) → GaveUp name.now (asker client) epoch now self.old self.new }
        ensures none { result ≡ false → (now : ℕ) → Turn [] [] now self.old self.new }
        ensures terms { self.new.terms ≡ self.old.terms }
        ensures bound { AllowsNoMore self.old self.new }
    {
        lease_steps::asking_is_steps();
        if self.is_told_up_to(name, epoch) {
            return false;
        }
        if !self.asks_as(name, client.number) {
            return self.machine.is_some();
        }
        match &mut self.machine {
            Some(machine) => machine.give_up(name, epoch),
            None => false,
        }
    }

    /// Whether a user was told that it holds the lease of a name under an epoch up to this one.
    fn is_told_up_to(&self, name: &LeaseName, epoch: u64) -> bool
        ensures { result ≡ false → NoneUpTo name.now epoch self.now.told.items }
    {
        told_up_to(&self.told, name, epoch).is_some()
    }

    /// Whether it is this user who asks here for a name.
    pub(crate) fn is_claimed_by(&self, name: &LeaseName, user: u64) -> bool
        ensures yes { result ≡ true → IsClaimedBy self.now.machine name.now user }
        ensures no { result ≡ false → IsClaimedBy self.now.machine name.now user → ⊥ }
    {
        let Some(machine) = &self.machine else {
            return false;
        };
        match machine.claimed(name) {
            Some(claim) => claim.user == user,
            None => false,
        }
    }

    /// Whether the client that asks here for a name has this number.
    fn asks_as(&self, name: &LeaseName, number: u64) -> bool
        ensures yes { result ≡ true → AsksAs self.now.machine name.now number }
        ensures other { result ≡ false → AsksAs self.now.machine name.now number → ⊥ }
    {
        match self.client_at(name) {
            Some(asks) => asks.number == number,
            None => false,
        }
    }

    /// Sends the release of a granted epoch again that is given up, to who granted it.
    pub(crate) fn release_again(&mut self, grant: &LeaseMessage)
        ensures turn { (now : ℕ) → Turn [] [] now self.old self.new }
        ensures bound { AllowsNoMore self.old self.new }
    {
        if grant.voter == self.terms.machine()
            || grant.voter.number() >= self.terms.machines()
            || grant.client.machine != self.terms.machine()
            || grant.client.process != self.start.process
            || self.claims < grant.client.number
        {
            return;
        }
        if !self.stop_relying(grant.client, &grant.name, grant.epoch) {
            return;
        }
        let message = LeaseMessage {
            client: grant.client,
            voter: grant.voter,
            epoch: grant.epoch,
            body: LeaseBody::Release,
            name: grant.name,
        };
        self.send(grant.voter, &message);
    }
}
