// A process of leases that is alone, and whose user comes to hold one.
ghost use Rattle.std.specs.Prelude.{◌≡◌, ◌≤◌, ℕ, IfOk, IsOk, true};
ghost use Rattle.lease_processes.specs.Alone.{SomebodyHolds};

use group_task::NodeId;
use lease_machine::LeaseTerms;
use lease_session::{EpochStore, LeaseSession, ReserveFault, Start, lines_are_steps};
use std::alloc::{AllocError, Global};

/// Epochs that are reserved for one process alone.
#[derive(Drop)]
struct OneProcess {
    reserved: u64,
}

impl EpochStore for OneProcess {
    ghost bound = { λ store. store.reserved };

    fn bound(&self) -> u64 {
        self.reserved
    }

    fn reserve(&mut self, epoch: u64) -> Result<(), ReserveFault> {
        self.reserved = self.reserved.max(epoch);
        Ok(())
    }
}

/// A process that is alone in its list is told that time passes, and then that a user asks for a lease. True says that it holds it.
pub fn one_holds(alloc: Global) -> Result<bool, AllocError>
    // Promise: Where this says so, there are processes that meet all premises, clocks within their bound among them, and a line of theirs tells a user that it
    // holds a lease. Its test runs it.
    // Refuses: held_by_nobody.
    ensures { IfOk result (λ holds. holds ≡ true → SomebodyHolds) }
{
    lines_are_steps();
    let Some(machine) = NodeId::new(0) else {
        return Ok(false);
    };
    let Some(terms) = LeaseTerms::new(machine, 1, 1, 2_000) else {
        return Ok(false);
    };
    let start = Start {
        process: 1,
        floor: 0,
        waits: 0,
    };
    let mut session = LeaseSession::begin(alloc, terms, 20, start, OneProcess { reserved: 0 })?;
    session.feed(b"tick 0\nacquire 9000 a 1\n")?;
    Ok(session.has_told_of_leases())
}

#[cfg(test)]
mod tests {
    use super::one_holds;

    #[test]
    fn a_process_comes_to_hold_a_lease(rt: HostRuntime) {
        let holds = one_holds(rt.alloc()).expect(&rt, "memory");
        assert!(rt; holds);
    }
}
