ghost use Rattle.std.specs.Prelude.{◌≡◌, ◌≤◌, ℕ};
ghost use Rattle.lease_runs.specs.declared.voter.LeaseVoter.{LeaseVoter as Keeper};
ghost use Rattle.lease_runs.specs.Code.{IsStep, view};
ghost use Rattle.lease_runs.specs.Voter.{IsPossible, Voter, VoterEvent, after};
ghost use Rattle.lease_machine.specs.Machine.{Stays};
ghost use Rattle.lease_machine.specs.Standing.{Stands};

/// What is kept of a name stands for a voter that forgets nothing, through each of its steps, and where an ended grant is forgotten.
pub fn names_stand()
    // Promise: What is kept of a name stands for a voter of the laws that forgets nothing: from a start on, by each of its steps,
    // while other names are asked for, and as time passes. So each step of a machine is a possible step of that voter.
    // Also: LeaseMachine::vote, LeaseMachine::release, LeaseMachine::raise.
    ensures same { (boot now : ℕ) (c : Keeper) → Stands boot now c (view boot c) }
    ensures later { (boot now time : ℕ) (c : Keeper) (v : Voter) → now ≤ time → Stands boot now c v → Stands boot time c v }
    ensures stays { (boot now : ℕ) (c d : Keeper) (v : Voter) → Stays now c d → Stands boot now c v → Stands boot now d v }
    ensures steps { (boot now : ℕ) (c d : Keeper) (what : VoterEvent) (v : Voter) (clock : ℕ → ℕ → ℕ) (at : ℕ) → clock boot at ≡ now → IsStep c d now what → Stands boot now c v
        → IsPossible c.keeps clock v at what × Stands boot now d (after c.keeps clock v at what) }
{}
