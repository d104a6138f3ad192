ghost use Rattle.std.specs.Prelude.{◌≡◌, ◌<◌, ℕ, None, IfSome, IsNone, true, false};
ghost use Rattle.std.specs.Option.{ForSome};
ghost use Rattle.lease_runs.specs.Code.{ask_of};
ghost use Rattle.lease_runs.specs.Run.{asks, stops};
ghost use Rattle.lease_machine.specs.Claims.{Acts, Hears, IsNotOf, MayNotAsk, Relies, ReliesNot};
ghost use Rattle.lease_machine.specs.Names.{is_dead, is_free};

use lease_message::LeaseName;
use lease_runs::{ClientId, LeaseCandidate, LeaseVoter, Request};

/// How many names a machine keeps at most.
pub const NAMES: usize = 1024;

/// What is kept of one who asks here for a lease.
#[derive(Drop)]
pub struct Claim {
    /// The number by which it is known to the caller.
    pub user: u64,
    pub(crate) candidate: LeaseCandidate,
}

/// What is kept of one name: how this machine votes, and who asks here.
#[derive(Drop)]
pub struct NameEntry {
    pub(crate) name: LeaseName,
    pub(crate) voter: LeaseVoter,
    pub(crate) claim: Option<Claim>,
}

impl NameEntry {
    /// Nobody here asks for the name, and no grant of it lasts.
    pub(crate) fn is_dead(&self, now: u64) -> bool
        ensures { result ≡ is_dead now self.now }
    {
        self.claim.is_none() && is_free(&self.voter, now)
    }

    /// The one who asks here sends a request.
    pub(crate) fn ask(&mut self, now: u64, epoch: u64) -> Option<Request>
        ensures same { (self.new.name ≡ self.old.name) × (self.new.voter ≡ self.old.voter) }
        ensures asks { IfSome result (λ request. (request.epoch ≡ epoch) × (request.sent ≡ now) × Acts self.old.claim self.new.claim now (λ client at. asks (ask_of client request.number epoch at))) }
        ensures none { IsNone result → self.new ≡ self.old }
        ensures refused { IsNone result → MayNotAsk epoch self.old.claim }
    {
        match &mut self.claim {
            Some(claim) => claim.candidate.ask(now, epoch),
            None => None,
        }
    }

    /// The one who asks here heard of a grant to this client. False says that it is another one.
    pub(crate) fn hear(&mut self, now: u64, client: ClientId, voter: u8, number: u64) -> bool
        requires { ForSome self.old.claim (λ c. voter < c.candidate.voters) }
        ensures same { (self.new.name ≡ self.old.name) × (self.new.voter ≡ self.old.voter) }
        ensures hears { result ≡ true → Hears self.old.claim self.new.claim client now voter number }
        ensures passes { result ≡ false → self.new ≡ self.old }
        ensures unheard { result ≡ false → IsNotOf client self.old.claim }
    {
        match &mut self.claim {
            Some(claim) if claim.candidate.client() == client => {
                claim.candidate.hear(now, voter, number);
                true
            }
            _ => false,
        }
    }

    /// The one who asks here stops relying on epochs up to this one. False says that there is none.
    pub(crate) fn give_up(&mut self, epoch: u64) -> bool
        ensures same { (self.new.name ≡ self.old.name) × (self.new.voter ≡ self.old.voter) }
        ensures stops { result ≡ true → (now : ℕ) → Acts self.old.claim self.new.claim now (λ client at. stops epoch) }
        ensures passes { result ≡ false → self.new ≡ self.old }
        ensures nobody { result ≡ false → self.old.claim ≡ None }
    {
        match &mut self.claim {
            Some(claim) => {
                claim.candidate.give_up(epoch);
                true
            }
            None => false,
        }
    }

    /// The request by which the one who asks here relies now, if it does.
    pub(crate) fn held(&self, now: u64) -> Option<Request>
        ensures held { IfSome result (λ request. Relies self.now.claim now request) }
        ensures none { IsNone result → ReliesNot self.now.claim now }
    {
        match &self.claim {
            Some(claim) => claim.candidate.held(now),
            None => None,
        }
    }
}

/// Whether no grant of the voter lasts.
pub(crate) fn is_free(voter: &LeaseVoter, now: u64) -> bool
    ensures { result ≡ is_free now voter.now }
{
    match voter.holder() {
        Some(_) => voter.ends() <= now,
        None => true,
    }
}
