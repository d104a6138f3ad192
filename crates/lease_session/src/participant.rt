// A process that votes for leases and asks for them: what it does by the lines that it is told.
ghost use Rattle.std.specs.Prelude.{◌≡◌, ◌<◌, ◌^◌, [], true, IfOk, None, false};
ghost use Rattle.lease_session.specs.Turns.{Turn};
ghost use Rattle.lease_session.specs.Reading.{meaning_of};
ghost use Rattle.lease_session.specs.Replies.{AsksTo, RepliesTo};
ghost use Rattle.lease_session.specs.Feeding.{IsNew, at};
ghost use Rattle.lease_session.specs.Lines.{Comes, ComesOf, Delivers, brought_by, goes_on};
ghost use Rattle.lease_session.specs.Own.{IsWithin};

use crate::asked::{Asked, Came, read_line};
use crate::pause::AnswerTime;
use crate::process::{LeaseProcess, Start};
use crate::refusing::Refusal;
use crate::store::EpochStore;
use crate::want::Want;
use lease_machine::{LeaseTerms, NAMES};
use rand_pcg::Pcg32;
use std::alloc::{AllocError, Global};

/// Times of a line are below this one.
pub(crate) const TIME_LIMIT: u64 = 1 << 62;

/// A process that votes for leases and asks for them, over what keeps its epochs.
#[derive(Drop)]
pub(crate) struct Participant<S: EpochStore> {
    pub(crate) process: LeaseProcess,
    pub(crate) round_trip: u16,
    pub(crate) store: S,
    // when the machine began or begins; none before the first line
    pub(crate) began: Option<u64>,
    // the time of the last line
    pub(crate) told: u64,
    // the greatest epoch of which it knows
    pub(crate) greatest: u64,
    pub(crate) wants: Vec<Want>,
    pub(crate) answers: AnswerTime,
    pub(crate) random: Pcg32,
    ghost within: { IsWithin (S.bound store) process.start process.machine },
}

impl<S: EpochStore + Drop> Participant<S> {
    pub(crate) fn begin(
        alloc: Global,
        terms: LeaseTerms,
        round_trip: u16,
        start: Start,
        store: S,
    ) -> Result<Participant<S>, AllocError>
        ensures new { IfOk result (λ it. IsNew terms start [] (at it.process it.told false (S.bound it.store))) }
        ensures plain { IfOk result (λ it. (it.process.seal ≡ None) × (it.process.text.items ≡ []) × (it.store ≡ store)) }
    {
        let machine = u64::from(terms.machine().number());
        Ok(Participant {
            process: LeaseProcess::new(alloc, terms, start),
            round_trip,
            store,
            began: None,
            told: 0,
            greatest: start.floor,
            wants: Vec::with_capacity(alloc, NAMES)?,
            answers: AnswerTime::new(),
            random: Pcg32::new(start.process, machine),
        })
    }

    /// Does what a line asks for that isn't empty.
    pub(crate) fn answer(&mut self, line: &[u8])
        ensures { ComesOf (meaning_of line.now) self.old.told self.new.told self.old.process self.new.process }
    {
        match read_line(line) {
            Asked::Bad => self.process.refuse(Refusal::Bad),
            Asked::Tick(now) => self.come(now, Came::Nothing),
            Asked::Deliver(now, word) => self.deliver(now, word),
            Asked::Acquire(now, name, user) => self.come(now, Came::Acquire(name, user)),
            Asked::Release(now, name, user) => self.come(now, Came::Release(name, user)),
        }
    }

    /// A line that brings a message, by the word of its bytes. Its time must hold before the stamp of a message is kept.
    fn deliver(&mut self, now: u64, word: &[u8])
        ensures { Delivers now word.now self.old.told self.new.told self.old.process self.new.process }
    {
        if !self.goes_on(now) {
            self.process.refuse(Refusal::Time);
            return;
        }
        match self.process.open(word) {
            Ok(Some(came)) => self.come(now, came),
            Ok(None) => self.process.refuse(Refusal::Bad),
            Err(_) => self.process.run_out(),
        }
    }

    /// Whether a line may tell this time.
    fn goes_on(&self, now: u64) -> bool
        ensures { result ≡ goes_on self.now.told now }
    {
        self.told <= now && now < TIME_LIMIT
    }

    /// A line told this time, and brought this. What is due at that time comes first.
    fn come(&mut self, now: u64, came: Came)
        // Promise: What comes of a time and of what a line brought are steps of this process that it may take over any network then, at that
        // time of its clock: a start, epochs that are reserved, requests and releases that are sent, requests, grants and releases that are
        // taken; none is taken but what the line brought, or what a step of this turn sent. Where an earlier line told a later time, it makes
        // no step.
        // Also: Participant::take_came, Participant::vote, LeaseProcess::vote, LeaseProcess::hear.
        // Refuses: grant_counted_from_an_earlier_line, grant_of_a_refused_vote.
        // Promise: The lines that it writes tell of these steps: each request, grant and release that is sent is one that a step of this turn
        // sends, to the machine that it is for; who is told to hold a lease holds it then, under that epoch, until so long after its
        // request was sent as a client relies on it; an epoch that is told as lost was given up before. Once no memory is left, nothing is said
        // of the text.
        // Also: LeaseProcess::send, LeaseProcess::tell_held, LeaseProcess::give_up, LeaseProcess::request, LeaseProcess::release_again.
        // Refuses: held_line_without_a_lease, until_of_the_voter, send_to_another_machine, release_not_passed_on, request_numbered_as_its_epoch,
        // release_of_a_client_to_come.
        ensures comes { Comes now (brought_by came) self.old.told self.new.told self.old.process self.new.process }
        // Promise: A request to this voter of another machine's client is answered by a grant or a refusal of its number, as long as memory
        // is left and the device doesn't fail. It is granted exactly where it speaks of this length of a lease and this list of machines,
        // the machine has begun, its voter of the name may grant the epoch by its rule, which forbids it while it waits behind its start
        // or another client has the grant, and there is room for the name. It is refused as `Full` exactly where all but room is so: where
        // nothing is kept of the name, and all names that are kept are in use; so never where the name is kept.
        // Also: lease_machine::LeaseMachine::vote, Participant::take_request, Participant::vote, Participant::reserve, LeaseProcess::vote, LeaseProcess::answer,
        // LeaseProcess::send.
        // Refuses: grant_never_answered, refused_at_will, told_full_at_will, terms_not_compared, refused_unreserved,
        // lease_machine::kept_name_refused_as_full.
        ensures replies { goes_on self.old.told now ≡ true → RepliesTo self.old.process.terms now came self.new.process }
        // Promise: For a user that begins to ask for a lease a request is sent at once, where the process has begun, nobody here asks for the name, and
        // it is kept or there is room; or the user is told which of these isn't so, or that no number or epoch is left.
        // Who wants a lease no more is asked for no more, and is told `Unclaimed` where it isn't the one who asks here for the name alone.
        // Also: Participant::acquire, Participant::ask_or_tell, Participant::request, Participant::release.
        // Refuses: acquire_never_asked, claimed_told_as_full, users_refused_by_their_number, release_refused_at_will.
        ensures asks { goes_on self.old.told now ≡ true → AsksTo came now self.old.process self.new.process }
    {
        if !self.goes_on(now) {
            self.process.refuse(Refusal::Time);
            return;
        }
        self.told = now;
        self.take_came(now, came);
    }

    /// Does what is due by this time, and then what came.
    fn take_came(&mut self, now: u64, came: Came)
        requires { now < 2 ^ 62 }
        ensures turn { Turn [] (brought_by came) now self.old.process self.new.process }
        ensures replies { RepliesTo self.old.process.terms now came self.new.process }
        ensures asks { AsksTo came now self.old.process self.new.process }
        ensures told { self.new.told ≡ self.old.told }
    {
        self.begin_where_due(now);
        self.serve_due(now);
        match came {
            Came::Nothing => {}
            Came::Message(message) => self.take(now, &message),
            Came::Unsealed(why) => self.process.refuse(why),
            Came::Acquire(name, user) => self.acquire(now, &name, user),
            Came::Release(name, user) => self.release(now, &name, user),
        }
    }

    /// The machine begins with the first line, or, where an earlier process kept grants for longer than this one does, once the difference is over.
    fn begin_where_due(&mut self, now: u64)
        ensures turn { Turn [] [] now self.old.process self.new.process }
        ensures told { self.new.told ≡ self.old.told }
    {
        let longer = self
            .process
            .start
            .waits
            .saturating_sub(self.process.terms.keeps());
        let begins = *self.began.get_or_insert(now.saturating_add(longer));
        if self.process.machine.is_some() || now < begins {
            return;
        }
        self.began = Some(now);
        let bound = self.store.bound().max(self.process.start.floor);
        self.process.begin(now, bound);
    }
}
