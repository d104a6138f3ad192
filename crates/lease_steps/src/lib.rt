//! The calls of a machine that keeps leases, as steps of a machine over a network: what `lease_machine` says of each call is that it is such a
//! step, or none. Each law is the contract of a function that does nothing; a caller takes the law by calling it.
#![tactic(auto)]

ghost use Rattle.lease_steps.specs.Laws.{AsksBySteps, BeginsBySteps, ClaimsByNone, HearsBySteps, HeldIsHeld, RaisesBySteps, ReleasesBySteps, StandsOn, StopsBySteps, VotesBySteps, WithdrawsByNone};

/// What a machine does as a voter.
pub fn votes_are_steps()
    // Promise: A machine that begins, reserves epochs, grants a request or takes a release does what a machine of the laws over any
    // network may do then, and stands for what that leaves; and as time passes it goes on to do so.
    // Also: lease_machine::LeaseMachine::begin, lease_machine::LeaseMachine::raise, lease_machine::LeaseMachine::vote,
    // lease_machine::LeaseMachine::release, raises, votes, releases, later.
    // Refuses: floor_below_the_bound.
    ensures begins { BeginsBySteps }
    ensures raises { RaisesBySteps }
    ensures votes { VotesBySteps }
    ensures releases { ReleasesBySteps }
    ensures later { StandsOn }
{
    lease_machine::names_stand();
}

/// What those do who ask at a machine.
pub fn asking_is_steps()
    // Promise: A request, a grant that is heard and a giving up are steps of a client over any network that it may do then: the request
    // and the release are sent, the grant is taken. One that begins to ask or is forgotten does nothing there.
    // Also: lease_machine::LeaseMachine::claim, lease_machine::LeaseMachine::withdraw, lease_machine::LeaseMachine::ask,
    // lease_machine::LeaseMachine::hear, lease_machine::LeaseMachine::give_up, withdraws, asks, hears, stops.
    // Refuses: grant_of_another_voter_heard, number_had_by_an_earlier_client.
    ensures claims { ClaimsByNone }
    ensures withdraws { WithdrawsByNone }
    ensures asks { AsksBySteps }
    ensures hears { HearsBySteps }
    ensures stops { StopsBySteps }
{
    lease_machine::names_stand();
}

/// What a machine shows as held.
pub fn shown_is_held()
    // Promise: What a machine shows as held is held by its client over any network, by that request, and until so long behind its sending as a
    // client relies on a lease.
    // Also: lease_machine::LeaseMachine::held.
    // Refuses: counted_from_the_grant.
    ensures { HeldIsHeld }
{}
