// Laws of processes: the contracts of functions that do nothing.
ghost use Rattle.lease_session.specs.Feeding.{AnyCutting};
ghost use Rattle.lease_session.specs.Served.{AnyClearing, FedIsTold};
ghost use Rattle.lease_session.specs.Steps.{HeldLinesHold, LinesAreSteps, TurnGoesOn, TurnsAreSteps};

/// What a process does in a turn, and what its lines say, over the steps of all machines.
pub fn turns_are_steps()
    // Promise: The steps of a turn may follow all that were made before, over any network, where none of these came later, what the line
    // brought was sent by one of them, and the process runs or is a new one. What it sends may be brought from then on. So the laws of
    // leases hold of processes that are told such lines.
    // Also: turn.
    // Promise: Who is told to hold a lease holds it over all steps up to then, by a client of this process, under that epoch, until that time.
    ensures steps { TurnsAreSteps }
    ensures turn { TurnGoesOn }
    ensures held { HeldLinesHold }
{}

/// What was fed decides what is answered, and not how it was cut.
pub fn any_cutting()
    ensures { AnyCutting }
{}

/// What was answered may be written, and forgotten, at any time: what is written in all is what is answered to all that was fed.
pub fn any_clearing()
    // Promise: What was answered may be written and forgotten between any two pieces: the texts that are written, one behind another, are what
    // is answered to all that was fed.
    // Also: told.
    ensures clearing { AnyClearing }
    ensures told { FedIsTold }
{
    lines_are_steps();
}

/// What is answered to a line are steps over all machines.
pub fn lines_are_steps()
    // Promise: The answer to each line are steps that may follow all that were made before, over any network, and lines that tell of them, where
    // the time that the line tells is what the machine's clock shows then, and the message that its bytes carry was sent before. Who is told to
    // hold a lease holds it over these steps.
    // Also: turns_are_steps.
    // Promise: Whoever holds a lease behind a line, since more than half of the voters granted its request in time, was told so last: its user,
    // under that epoch, until so long after its request was sent as it relies on it. So a majority is told, and each renewal.
    // Also: LeaseProcess::hear, LeaseProcess::tell_held, is_told.
    // Refuses: held_never_told, renewal_never_told, held_told_to_another_user.
    ensures { LinesAreSteps }
{
    lease_steps::votes_are_steps();
}
