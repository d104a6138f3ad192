// How those ask for leases who want them here.
ghost use Rattle.std.specs.Prelude.{◌≡◌, ◌<◌, ◌^◌, ℕ, [], ◌∷◌, true};
ghost use Rattle.lease_runs.specs.Code.{client_of as by_code};
ghost use Rattle.lease_network.specs.Network.{request as request_of, grant as grant_of};
ghost use Rattle.lease_session.specs.Replies.{Asks, AsksFor, AsksOrEnds, IsClaimedIn, Releases};
ghost use Rattle.lease_session.specs.Rows.{said};
ghost use Rattle.lease_session.specs.Turns.{Turn};

use crate::participant::Participant;
use crate::pause::{renewal, rest};
use crate::refusing::Refusal;
use crate::store::EpochStore;
use crate::voting::Answer;
use crate::want::{Bound, NEVER, Stage, Want, epoch_above};
use crate::writing::client_of;
use group_task::NodeId;
use lease_message::{LeaseBody, LeaseMessage, LeaseName, Reason};
use lease_runs::{ClientId, Request};

// The list of those who want a lease here.
impl<S: EpochStore + Drop> Participant<S> {
    /// Where the one stands who wants a name.
    fn place_of(&self, name: &LeaseName) -> Option<usize> {
        for place in 0..self.wants.len() {
            match self.wants.get(place) {
                Some(want) if want.name == *name => return Some(place),
                _ => {}
            }
        }
        None
    }

    /// The one who stands there.
    fn want_at(&self, place: usize) -> Option<Want> {
        match self.wants.get(place) {
            Some(want) => Some(*want),
            None => None,
        }
    }

    /// The one who wants a name.
    fn want_of(&self, name: &LeaseName) -> Option<Want> {
        self.want_at(self.place_of(name)?)
    }

    /// The one who wants this name is so far now.
    fn keep(&mut self, want: Want)
        ensures { (self.new.process ≡ self.old.process) × (self.new.told ≡ self.old.told) }
    {
        let Some(place) = self.place_of(&want.name) else {
            return;
        };
        if let Some(kept) = self.wants.get_mut(place) {
            *kept = want;
        }
    }

    /// Nobody wants this name any more.
    fn forget(&mut self, name: &LeaseName)
        ensures turn { (now : ℕ) → Turn [] [] now self.old.process self.new.process }
        ensures told { self.new.told ≡ self.old.told }
        ensures nobody { IsClaimedIn self.new.process.machine name.now → ⊥ }
    {
        match self.place_of(name) {
            Some(place) if place < self.wants.len() => {
                self.wants.remove(place);
            }
            _ => {}
        }
        self.process.withdraw(name);
    }

    /// When something is due next, of one who wants a lease.
    pub(crate) fn due(&self) -> Option<u64> {
        let mut due = NEVER;
        for want in &self.wants {
            due = due.min(want.due);
        }
        if due < NEVER { Some(due) } else { None }
    }

    /// Does what is due by this time.
    pub(crate) fn serve_due(&mut self, now: u64)
        requires { now < 2 ^ 62 }
        ensures turn { Turn [] [] now self.old.process self.new.process }
        ensures told { self.new.told ≡ self.old.told }
    {
        for place in 0..self.wants.len() {
            self.serve_at(now, place);
        }
    }

    /// Does what is due by this time of the one who stands there.
    fn serve_at(&mut self, now: u64, place: usize)
        requires { now < 2 ^ 62 }
        ensures turn { Turn [] [] now self.old.process self.new.process }
        ensures told { self.new.told ≡ self.old.told }
    {
        match self.want_at(place) {
            Some(mut want) if want.due <= now => {
                self.serve(now, &mut want);
                self.keep(want);
            }
            _ => {}
        }
    }

    /// Lets nobody wait longer for a name that was freed.
    pub(crate) fn wake(&mut self, now: u64, name: &LeaseName)
        ensures { (self.new.process ≡ self.old.process) × (self.new.told ≡ self.old.told) }
    {
        let Some(mut want) = self.want_of(name) else {
            return;
        };
        if want.stage == Stage::Resting {
            let round_trip = self.round_trip;
            let pause = rest(&mut self.random, round_trip, 0);
            let due = want.due;
            want.rest(due.min(now.saturating_add(pause)));
            self.keep(want);
        }
    }
}

// What a user asks.
impl<S: EpochStore + Drop> Participant<S> {
    /// A user wants the lease of a name from now on.
    pub(crate) fn acquire(&mut self, now: u64, name: &LeaseName, user: u64)
        requires { now < 2 ^ 62 }
        ensures turn { Turn [] [] now self.old.process self.new.process }
        ensures told { self.new.told ≡ self.old.told }
        ensures asks { Asks name.now user now self.old.process self.new.process }
    {
        if let Err(why) = self.process.claim(now, name, user) {
            self.process.refuse_user(why, name, user);
            return;
        }
        let mut want = Want::new(*name, user);
        self.ask_or_tell(now, &mut want);
        if self.wants.push(want).is_err() {
            self.process.run_out();
        }
    }

    /// A user wants it no more.
    pub(crate) fn release(&mut self, now: u64, name: &LeaseName, user: u64)
        ensures turn { Turn [] [] now self.old.process self.new.process }
        ensures told { self.new.told ≡ self.old.told }
        ensures releases { Releases name.now user now self.old.process self.new.process }
    {
        if !self.process.is_claimed_by(name, user) {
            self.process.refuse_user(Refusal::Unclaimed, name, user);
            return;
        }
        self.stop_wanted(now, name);
        self.forget(name);
    }

    /// The one who wants a name relies on its lease no more.
    fn stop_wanted(&mut self, now: u64, name: &LeaseName)
        ensures turn { Turn [] [] now self.old.process self.new.process }
        ensures told { self.new.told ≡ self.old.told }
    {
        if let Some(mut want) = self.want_of(name) {
            self.stop(now, &mut want);
        }
    }
}

// What one does who wants a lease.
impl<S: EpochStore + Drop> Participant<S> {
    /// An epoch is known of. One that is asked under next is above it.
    pub(crate) fn know(&mut self, epoch: u64)
        ensures { (self.new.process ≡ self.old.process) × (self.new.told ≡ self.old.told) }
    {
        self.greatest = self.greatest.max(epoch);
    }

    /// What is due: a lease that is over is lost, and asked for anew; another one is renewed; who asked gives up; who rested asks.
    fn serve(&mut self, now: u64, want: &mut Want)
        requires { now < 2 ^ 62 }
        ensures turn { Turn [] [] now self.old.process self.new.process }
        ensures told { self.new.told ≡ self.old.told }
    {
        match want.stage {
            Stage::Holding { until } if now < until => self.renew(now, want, until),
            Stage::Asking => {
                self.answers.ran_out();
                self.rest(now, want);
            }
            Stage::Holding { .. } => {
                self.stop(now, want);
                self.ask_or_tell(now, want);
            }
            Stage::Resting => self.ask_or_tell(now, want),
        }
    }

    /// Relies on its epoch no more, says so to its user and then to the voters.
    fn stop(&mut self, now: u64, want: &mut Want)
        ensures turn { Turn [] [] now self.old.process self.new.process }
        ensures told { self.new.told ≡ self.old.told }
    {
        if want.stage == Stage::Resting {
            return;
        }
        self.give_held_up(want);
        self.process.give_up(&want.name, want.epoch);
        want.rest(now);
    }

    /// Voters that granted its lease, and not its renewal under a greater epoch, are told that it relies on it no more.
    fn give_held_up(&mut self, want: &Want)
        ensures turn { (now : ℕ) → Turn [] [] now self.old.process self.new.process }
        ensures told { self.new.told ≡ self.old.told }
    {
        if let Some(epoch) = want.held_below() {
            self.process.give_up(&want.name, epoch);
        }
    }

    /// Asks, or says that no epoch or number is left, and asks no more.
    fn ask_or_tell(&mut self, now: u64, want: &mut Want)
        requires { now < 2 ^ 62 }
        ensures turn { Turn [] [] now self.old.process self.new.process }
        ensures told { self.new.told ≡ self.old.told }
        ensures asks { AsksOrEnds want.old.name want.old.user now self.old.process self.new.process }
    {
        let name = want.name;
        let user = want.user;
        if !self.ask(now, want) {
            self.process.refuse_user(Refusal::Exhausted, &name, user);
            want.rest(NEVER);
        }
    }

    /// Asks under an epoch above all that are known of, and of this machine alone. False says that no epoch or number is left.
    fn ask(&mut self, now: u64, want: &mut Want) -> bool
        requires { now < 2 ^ 62 }
        ensures turn { Turn [] [] now self.old.process self.new.process }
        ensures told { self.new.told ≡ self.old.told }
        ensures asks { result ≡ true → AsksFor want.old.name now self.old.process self.new.process }
    {
        let Some(epoch) = epoch_above(self.greatest, self.process.terms.machine()) else {
            return false;
        };
        self.greatest = epoch;
        want.ask(
            epoch,
            now.saturating_add(self.answers.patience(self.round_trip)),
        );
        self.request(now, want)
    }

    /// Asks for the renewal of its lease, under its epoch, or, where a voter knows of a greater one, under one above all that are known of: the lease
    /// counts until its time is over, or more than half of the voters granted the other one.
    fn renew(&mut self, now: u64, want: &mut Want, until: u64)
        requires { now < 2 ^ 62 }
        ensures turn { Turn [] [] now self.old.process self.new.process }
        ensures told { self.new.told ≡ self.old.told }
    {
        let again = now.saturating_add(self.answers.renewed_again(self.process.terms.relies_for()));
        want.due = again.min(until);
        if want.outrun {
            self.raise_epoch(want);
        }
        self.request(now, want);
    }

    /// The renewal is asked for under an epoch above all that are known of, where one is left.
    fn raise_epoch(&mut self, want: &mut Want)
        ensures same { (self.new.process ≡ self.old.process) × (self.new.told ≡ self.old.told) }
    {
        if let Some(epoch) = epoch_above(self.greatest, self.process.terms.machine()) {
            self.know(epoch);
            want.renew_under(epoch);
        }
    }

    /// Sends a request to each voter, and asks this machine's own. False says that none may be sent.
    fn request(&mut self, now: u64, want: &mut Want) -> bool
        requires { now < 2 ^ 62 }
        ensures turn { Turn [] [] now self.old.process self.new.process }
        ensures told { self.new.told ≡ self.old.told }
        ensures asks { result ≡ true → AsksFor want.old.name now self.old.process self.new.process }
    {
        match self.process.request(now, &want.name, want.epoch) {
            Some((client, number)) => {
                self.vote_self(now, want, client, number);
                true
            }
            None => false,
        }
    }

    /// This machine's vote on a request of a client here.
    fn vote_self(&mut self, now: u64, want: &mut Want, client: ClientId, number: u64)
        requires { now < 2 ^ 62 }
        ensures turn { Turn (request_of want.old.name (by_code client) number want.old.epoch ∷ []) [] now self.old.process self.new.process }
        ensures told { self.new.told ≡ self.old.told }
    {
        let name = want.name;
        let voter = self.process.terms.machine();
        match self.vote(now, &name, client, want.epoch) {
            Answer::Granted => self.hear(now, &name, want, client, voter, number),
            Answer::Refused(reason, lasts) => {
                let epoch = self.greatest_of(&name);
                let bound = self.bound_by(now, reason, epoch, lasts);
                self.refused(now, want, voter, bound);
                learn(now, want, reason, epoch);
            }
        }
    }

    /// A voter granted a request.
    fn hear(
        &mut self,
        now: u64,
        name: &LeaseName,
        want: &mut Want,
        client: ClientId,
        voter: NodeId,
        number: u64,
    )
        ensures turn { Turn [] (grant_of name.now (by_code client) number voter ∷ []) now self.old.process self.new.process }
        ensures told { self.new.told ≡ self.old.told }
    {
        self.process.hear(now, name, client, voter, number);
        let Some(machine) = &self.process.machine else {
            return;
        };
        if let Some(request) = machine.held(now, name) {
            hold(want, &request, self.process.terms.relies_for());
        }
    }

    /// What binds a voter that refuses for this reason and lasts at most so long, where something does.
    fn bound_by(&self, now: u64, reason: Reason, epoch: u64, lasts: u64) -> Option<Bound> {
        let free_at = now.saturating_add(lasts.min(self.process.terms.keeps()));
        match reason {
            Reason::Waiting => Some(Bound { epoch: 0, free_at }),
            Reason::Held => Some(Bound { epoch, free_at }),
            Reason::Epoch | Reason::Terms | Reason::Full => None,
        }
    }

    /// A voter refused a request.
    fn refused(&mut self, now: u64, want: &mut Want, voter: NodeId, bound: Option<Bound>)
        ensures turn { Turn [] [] now self.old.process self.new.process }
        ensures told { self.new.told ≡ self.old.told }
    {
        want.refuse(voter, bound);
        if want.is_hopeless(self.process.terms.machines()) {
            self.rest(now, want);
        }
    }

    /// One who got no majority gives up, and asks anew at a random time within the next round trips. Where one grant binds more than half of the voters
    /// nobody split their votes: it waits until that one ends, and then as if it had been refused for the first time.
    fn rest(&mut self, now: u64, want: &mut Want)
        ensures turn { Turn [] [] now self.old.process self.new.process }
        ensures told { self.new.told ≡ self.old.told }
    {
        self.stop(now, want);
        let from = if want.is_blocked(self.process.terms.machines()) {
            want.tries = 0;
            want.bound.free_at.max(now)
        } else {
            now
        };
        self.rest_from(from, want);
    }

    /// Asks anew at a random time behind this one.
    fn rest_from(&mut self, from: u64, want: &mut Want)
        ensures { (self.new.process ≡ self.old.process) × (self.new.told ≡ self.old.told) }
    {
        let round_trip = self.round_trip;
        let pause = rest(&mut self.random, round_trip, want.tries);
        want.tries = want.tries.saturating_add(1);
        want.rest(from.saturating_add(pause));
    }

    /// Where several ask at a time, their votes are split: each has its own machine's alone. So one who asks here, and has it, gives up for one who asks
    /// under a greater epoch, and gives that one the time to be answered.
    pub(crate) fn yield_to(&mut self, now: u64, name: &LeaseName, epoch: u64)
        ensures turn { Turn [] [] now self.old.process self.new.process }
        ensures told { self.new.told ≡ self.old.told }
    {
        match self.want_of(name) {
            Some(mut want) if want.is_asking_below(epoch) && self.votes_for_own(name) => {
                self.stop(now, &mut want);
                let answered = now.saturating_add(self.answers.patience(self.round_trip));
                self.rest_from(answered, &mut want);
                self.keep(want);
            }
            _ => {}
        }
    }

    /// Whether this machine's vote for a name is of who asks for it here.
    fn votes_for_own(&self, name: &LeaseName) -> bool {
        match &self.process.machine {
            Some(machine) => {
                let holder = machine.standing(name).holder;
                holder.is_some() && holder == self.process.client_at(name)
            }
            None => false,
        }
    }
}

// What comes of the voters.
impl<S: EpochStore + Drop> Participant<S> {
    /// A grant came. One of an epoch that is given up came behind the release, or its request did: so the release is sent again.
    pub(crate) fn take_grant(&mut self, now: u64, message: &LeaseMessage, number: u64)
        requires { message.now.body ≡ LeaseBody.Grant number }
        ensures turn { Turn [] (said message.now) now self.old.process self.new.process }
        ensures told { self.new.told ≡ self.old.told }
    {
        let client = client_of(message.client);
        if message.client.machine != self.process.terms.machine()
            || message.client.process != self.process.start.process
        {
            return;
        }
        match self.want_of(&message.name) {
            Some(mut want) if self.process.client_at(&message.name) == Some(client) => {
                self.time_answer(now, &message.name, number);
                if want.relies_on(message.epoch) {
                    self.hear(now, &message.name, &mut want, client, message.voter, number);
                    self.keep(want);
                } else if message.epoch <= want.epoch {
                    self.process.release_again(message);
                }
            }
            _ => self.process.release_again(message),
        }
    }

    /// How long the answer took to the request of this number of a client here, or that it came behind its time.
    fn time_answer(&mut self, now: u64, name: &LeaseName, number: u64)
        ensures { (self.new.process ≡ self.old.process) × (self.new.told ≡ self.old.told) }
    {
        let asked = match &self.process.machine {
            Some(machine) => match machine.claimed(name) {
                Some(claim) => claim.asked(),
                None => None,
            },
            None => None,
        };
        match asked {
            Some(request) if request.number == number => {
                let after = now.saturating_sub(request.sent);
                self.answers.answered(after, self.round_trip);
            }
            _ => self.answers.late(self.round_trip),
        }
    }

    /// A refusal came. It counts where it answers the last request.
    pub(crate) fn take_refusal(
        &mut self,
        now: u64,
        message: &LeaseMessage,
        number: u64,
        reason: Reason,
        lasts: u64,
    )
        ensures turn { Turn [] [] now self.old.process self.new.process }
        ensures told { self.new.told ≡ self.old.told }
    {
        let Some(mut want) = self.want_of(&message.name) else {
            return;
        };
        if !self.is_asked(&message.name, client_of(message.client), number)
            || message.voter.number() >= self.process.terms.machines()
        {
            return;
        }
        self.know(message.epoch);
        self.time_answer(now, &message.name, number);
        let bound = self.bound_by(now, reason, message.epoch, lasts);
        self.refused(now, &mut want, message.voter, bound);
        learn(now, &mut want, reason, message.epoch);
        self.keep(want);
    }

    /// Whether this is the last request of the client that asks here for a name.
    fn is_asked(&self, name: &LeaseName, client: ClientId, number: u64) -> bool {
        let Some(machine) = &self.process.machine else {
            return false;
        };
        let Some(claim) = machine.claimed(name) else {
            return false;
        };
        match claim.asked() {
            Some(request) => claim.client() == client && request.number == number,
            None => false,
        }
    }
}

/// One who holds the lease by a request, and relies on it for so long, renews it later.
fn hold(want: &mut Want, request: &Request, relies_for: u64) {
    let until = request.sent.saturating_add(relies_for);
    if want.stage == (Stage::Holding { until }) && want.held == request.epoch {
        return;
    }
    want.hold(
        request.epoch,
        until,
        request.sent.saturating_add(renewal(relies_for)),
    );
}

/// What one learns of a voter that refuses for this reason, and knows of this epoch: a voter that began anew grants none that one before it may have
/// granted, so it grants the renewal of a lease under a greater one alone.
fn learn(now: u64, want: &mut Want, reason: Reason, epoch: u64) {
    if reason == Reason::Epoch {
        want.outrun(now, epoch);
    }
}
