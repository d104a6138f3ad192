// What a process that begins is told, of those that were stopped before it.
ghost use Rattle.std.specs.Prelude.{◌≡◌, ◌≤◌, ◌<◌, IsTrue, IsFalse, IfOk};
ghost use Rattle.sector_disk.specs.Disk.{IsImage};
ghost use Rattle.lease_file.specs.Kept.{kept_of};
ghost use Rattle.lease_file.specs.Laws.{IsAbove, IsToldOf};

use crate::fault::LeaseFault;
use crate::file::{Begun, LeaseFile};
use sector_disk::SectorDisk;

/// A call that writes to the disk, and the number that it is given.
#[derive(Clone, Copy, Debug)]
pub enum FileCall {
    Reserve(u64),
    Begin(u64),
}

/// A process begins on what a stop between two calls left of a file's disk.
pub fn begin_after<D: SectorDisk, E: SectorDisk + Drop>(
    file: &LeaseFile<D>,
    left: E,
    keeps: u64,
) -> Result<Begun, LeaseFault>
    requires on_disk { 8 ≤ (E.state left).sectors }
    // Promise: Whatever a stop leaves of a file's disk, between two calls or within one, the next process has a greater number, its floor is
    // at or above each bound that a process was told before, and it is told of the greatest time for which one kept grants.
    // Also: begin_after_stop.
    // Refuses: floor_of_the_block_before.
    ensures above { IsTrue (D.state file.now.disk).honest → IsFalse file.now.broken → IsTrue (E.state left).honest
        → IsImage (D.state file.now.disk) (E.state left).contents
        → IfOk result (IsAbove (kept_of file.now)) }
{
    file.is_kept();
    begin_on(left, keeps)
}

/// A process begins on what a stop within a call left of a file's disk.
pub fn begin_after_stop<D: SectorDisk, E: SectorDisk + Drop>(
    file: &mut LeaseFile<D>,
    call: FileCall,
    left: E,
    keeps: u64,
) -> Result<Begun, LeaseFault>
    requires on_disk { 8 ≤ (E.state left).sectors }
    ensures above { IsTrue (D.state file.old.disk).honest → IsFalse file.old.broken → IsTrue (E.state left).honest
        → (D.state file.new.disk).left_since (D.state file.old.disk).moment (E.state left).contents
        → IfOk result (IsAbove (kept_of file.old)) }
{
    match call {
        FileCall::Reserve(epoch) => {
            let _ = file.reserve(epoch);
            begin_on(left, keeps)
        }
        FileCall::Begin(kept) => {
            let _ = file.begin(kept);
            begin_on(left, keeps)
        }
    }
}

// A process begins on a disk.
fn begin_on<E: SectorDisk + Drop>(disk: E, keeps: u64) -> Result<Begun, LeaseFault>
    requires on_disk { 8 ≤ (E.state disk).sectors }
    ensures told { IsTrue (E.state disk).honest → IfOk result (IsToldOf (E.state disk).contents) }
{
    match LeaseFile::mount(disk) {
        Ok(mut file) => file.begin(keeps),
        Err(refused) => Err(refused.fault),
    }
}
