// A file read from its disk.
ghost use Rattle.std.specs.Prelude.{◌≡◌, ◌⊎◌, ◌<◌, ◌+◌, ◌≤◌, Some, IsTrue, IsFalse, IsOk, IfOk, IfErr, IsErrOf};
ghost use Rattle.sector_disk.specs.Disk.{AllSynced, Counts, nothing};
ghost use Rattle.sector_disk.specs.Run.{Run};
ghost use Rattle.safe_cell.specs.Answered.{OnlyReads};
ghost use Rattle.safe_cell.specs.Cell.{cell_at};
ghost use Rattle.safe_cell.specs.Mounted.{IsCellAt, AllStand};
ghost use Rattle.lease_file.specs.Kept.{Lasts, kept, kept_in, kept_of};
ghost use Rattle.lease_file.specs.Mounting.{IsReadFault, IsCellFault, IsRefusedFor, IsRefusedWith, disk_of};

use crate::fault::LeaseFault;
use crate::file::LeaseFile;
use safe_cell::{CellFault, SafeCell};
use sector_disk::SectorDisk;

/// How many sectors a file takes.
pub const SECTORS: u64 = 8;

/// Where the cells begin: how many blocks of epochs were taken, and the greatest time in milliseconds for which grants were kept.
pub(crate) const COUNT: u64 = 0;

pub(crate) const KEEPS: u64 = 4;

/// Why a disk wasn't mounted, with the disk.
#[derive(Debug, Drop)]
pub struct MountFault<D: SectorDisk> {
    pub disk: D,
    pub fault: LeaseFault,
}

impl<D: SectorDisk> LeaseFile<D> {
    /// Mounts a disk: syncs it and reads both cells, the count first, and writes nothing. Refused as `Device`, `NotFormatted` or `Damaged`, as
    /// the device calls go.
    pub fn mount(disk: D) -> Result<LeaseFile<D>, MountFault<D>>
        requires on_disk { 8 ≤ (D.state disk).sectors }
        ensures no_other { IfErr result (λ refused. IsReadFault refused.fault) }
        ensures whole { IfOk result (λ file. IsFalse file.broken) }
        ensures counts { Counts (D.state disk) (D.state (disk_of result))
            (IsRefusedWith LeaseFault.Device result) (IsRefusedWith LeaseFault.Device result → ⊥) }
        ensures run { IsTrue (D.state disk).honest
            → Run nothing (D.state disk) (D.state (disk_of result)) }

        // Promise: A mounting of a file of leases answers what the disk as it reads has. Refused, the device aside, that is nothing, for
        // the reason that it tells: of the count, or else of the time. It writes nothing; after `Ok` each image has what was answered.
        // Also: refusal, lasts, run.
        // Refuses: time_read_as_count, mounted_without_sync.
        ensures reads { IsTrue (D.state disk).honest
            → IfOk result (λ file. kept_in (D.state disk).contents ≡ Some (kept_of file)) }
        ensures refusal { IsTrue (D.state disk).honest
            → IfErr result (λ refused. (refused.fault ≡ LeaseFault.Device) ⊎ IsRefusedFor (D.state disk).contents refused.fault) }
        ensures lasts { IsTrue (D.state disk).honest
            → IfOk result (λ file. Lasts (kept_of file) (D.state file.disk)) }
    {
        let mut disk = disk;
        match read_cells(&mut disk) {
            Ok((count, keeps)) => Ok(LeaseFile {
                disk,
                count,
                keeps,
                broken: false,
            }),
            Err(fault) => Err(MountFault { disk, fault }),
        }
    }
}

// Syncs a disk, and reads what stands on it.
fn read_cells<D: SectorDisk>(disk: &mut D) -> Result<(SafeCell, SafeCell), LeaseFault>
    requires on_disk { 8 ≤ (D.state disk.old).sectors }
    ensures place { IfOk result (λ cells. IsCellAt 0 cells.0 × IsFalse cells.0.broken × IsCellAt 4 cells.1 × IsFalse cells.1.broken) }
    ensures stand { IsTrue (D.state disk.old).honest
        → IfOk result (λ cells. AllStand cells.0 (D.state disk.new) × AllStand cells.1 (D.state disk.new) × AllSynced (D.state disk.new)) }
    ensures reads { IsTrue (D.state disk.old).honest
        → IfOk result (λ cells. kept_in (D.state disk.old).contents ≡ Some (kept cells.0.value cells.1.value)) }
    ensures refusal { IsTrue (D.state disk.old).honest
        → IfErr result (λ fault. (fault ≡ LeaseFault.Device) ⊎ IsRefusedFor (D.state disk.old).contents fault) }
    ensures no_other { IfErr result (λ fault. IsReadFault fault) }
    ensures only_reads { OnlyReads (D.state disk.old) (D.state disk.new) (IsErrOf result LeaseFault.Device) }
{
    let Ok(()) = sync_disk(disk) else {
        return Err(LeaseFault::Device);
    };
    let count = match read_cell(disk, COUNT) {
        Ok(count) => count,
        Err(fault) => return Err(fault),
    };
    match read_cell(disk, KEEPS) {
        Ok(keeps) => Ok((count, keeps)),
        Err(fault) => Err(fault),
    }
}

// Syncs a disk: what is read is then what a crash leaves.
fn sync_disk<D: SectorDisk>(disk: &mut D) -> Result<(), LeaseFault>
    ensures synced { IsTrue (D.state disk.old).honest → IsOk result → AllSynced (D.state disk.new) }
    ensures only_reads { OnlyReads (D.state disk.old) (D.state disk.new) (IsErrOf result LeaseFault.Device) }
    ensures no_other { IsOk result ⊎ IsErrOf result LeaseFault.Device }
{
    disk.sync().map_err(|_| LeaseFault::Device)
}

// Reads the cell at a sector of a disk that is synced.
fn read_cell<D: SectorDisk>(disk: &mut D, at: u64) -> Result<SafeCell, LeaseFault>
    requires on_disk { at + 3 < (D.state disk.old).sectors }
    requires fits { at < 8 }
    ensures place { IfOk result (λ cell. IsCellAt at cell × IsFalse cell.broken) }
    ensures stand { IsTrue (D.state disk.old).honest → AllSynced (D.state disk.old)
        → IfOk result (λ cell. AllStand cell (D.state disk.new)) }
    ensures reads { IsTrue (D.state disk.old).honest
        → IfOk result (λ cell. cell_at (D.state disk.old).contents at ≡ Some cell.value) }
    ensures refusal { IsTrue (D.state disk.old).honest
        → IfErr result (λ fault. (fault ≡ LeaseFault.Device) ⊎ IsCellFault (D.state disk.old).contents at fault) }
    ensures no_other { IfErr result (λ fault. IsReadFault fault) }
    ensures only_reads { OnlyReads (D.state disk.old) (D.state disk.new) (IsErrOf result LeaseFault.Device) }
{
    match safe_cell::mount(disk, at) {
        Ok(cell) => Ok(cell),
        Err(CellFault::Device) => Err(LeaseFault::Device),
        Err(CellFault::Damaged(sector)) => Err(LeaseFault::Damaged(sector)),
        Err(CellFault::NotFormatted) => Err(LeaseFault::NotFormatted),
        Err(CellFault::Broken) => Err(LeaseFault::Broken),
        Err(CellFault::Exhausted) => Err(LeaseFault::Exhausted),
    }
}
