ghost use Rattle.std.specs.Prelude.{◌≤◌, vec_capacity};
ghost use Rattle.lease_machine.specs.declared.name_entry.TheConstants.{NAMES};
ghost use Rattle.lease_machine.specs.Kept.{AreKept};

use crate::name_entry::NameEntry;
use crate::terms::LeaseTerms;

/// A process of a machine that keeps leases: how it votes on each name, and who asks here. Its memory is taken when it begins.
#[derive(Drop)]
pub struct LeaseMachine {
    pub(crate) terms: LeaseTerms,
    /// The count of the machine's file in this process.
    pub(crate) process: u64,
    /// When voters begin to wait.
    pub(crate) began: u64,
    /// What the disk says: no epoch above this is granted.
    pub(crate) bound: u64,
    /// No epoch up to this one is granted of a name of which nothing is kept.
    pub(crate) floor: u64,
    /// The number of the last one that asked here.
    pub(crate) claims: u64,
    pub(crate) names: Vec<NameEntry>,
    ghost kept: { AreKept terms process claims began bound floor names.items },
    ghost room: { NAMES ≤ vec_capacity names },
}
