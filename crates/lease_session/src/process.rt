// What others see of a process: the steps of its machine, and the lines that it writes.
ghost use Rattle.std.specs.Option.{ForSome};
ghost use Rattle.lease_session.specs.Own.{IsOwn};

use crate::refusing::Halt;
use crate::seals::LeaseSeal;
use crate::told::Told;
use lease_machine::{LeaseMachine, LeaseTerms};
use std::alloc::Global;

/// What the file of a process told when the process began.
#[derive(Clone, Copy, Debug)]
pub struct Start {
    /// The count of the file. No other process of the machine has it.
    pub process: u64,
    /// No epoch above this one was granted before.
    pub floor: u64,
    /// An earlier process kept grants for so many milliseconds at most.
    pub waits: u64,
}

/// The machine of a process, and the lines that it wrote. Where one of them can't be written, no further one is.
#[derive(Drop)]
pub struct LeaseProcess {
    pub(crate) alloc: Global,
    pub(crate) terms: LeaseTerms,
    pub(crate) start: Start,
    // none before the first line, and while grants of an earlier process may last for longer than its own
    pub(crate) machine: Option<LeaseMachine>,
    // the number of the last client that asked here
    pub(crate) claims: u64,
    pub(crate) seal: Option<LeaseSeal>,
    pub(crate) text: Vec<u8>,
    // the leases that users were told last that they hold
    pub(crate) told: Vec<Told>,
    // why it goes on no more
    pub(crate) halt: Option<Halt>,
    ghost own: { ForSome machine (IsOwn terms start claims) },
}
