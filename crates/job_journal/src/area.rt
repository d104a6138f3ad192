// An area written anew: unsealed, then filled with the records of some jobs, and then sealed.
ghost use Rattle.std.specs.Prelude.{◌≡◌, ◌<◌, ◌≤◌, ◌+◌, ◌*◌, ◌^◌, ℕ, length, slice_get, IsTrue, IsOk, Some, None};
ghost use Rattle.sector_disk.specs.Disk.{AllSynced};
ghost use Rattle.slot_gate.specs.Slot.{slot_at, InSlots};
ghost use Rattle.slot_gate.specs.Writing.{CallWrites};
ghost use Rattle.job_journal.specs.Compacting.{records_for, IsWrittenFor};
ghost use Rattle.job_journal.specs.Jobs.{jobs_of};
ghost use Rattle.job_model.specs.Order.{IsInOrder};

use crate::extent::Extent;
use job_model::{JobTable, Record};
use sector_disk::{DiskFault, SectorDisk};
use slot_gate::{fill_later, seal, seal_later, unseal_later};

// Writes the jobs of a table into an area that is present in no image, in `2 * slots` device calls and four for each
// record. Only the last of them leaves an area that reads as the jobs, and it alone is a sync that isn't left to a later one.
pub(crate) fn write_area<D: SectorDisk>(
    disk: &mut D,
    area: Extent,
    table: &JobTable,
) -> Result<(), DiskFault>
    requires on_disk { area.first + 2 * area.slots ≤ (D.state disk.old).sectors }
    requires room { length table.now.pending + 2 ≤ area.slots }
    ensures writes { CallWrites (InSlots area.first area.slots) D.state disk.old disk.new DiskFault.Device result }
    ensures written { IsTrue (D.state disk.old).honest → IsOk result
        → IsWrittenFor area table.now (length table.now.pending + 1) (length table.now.pending + 1) (D.state disk.new).contents }
    ensures synced { IsTrue (D.state disk.old).honest → IsOk result
        → AllSynced (D.state disk.new) }
{
    erase(disk, area)?;
    write_records(disk, area, table)
}

// Unseals so many slots from this sector on, each by itself, with the syncs left to a later one.
fn erase<D: SectorDisk>(disk: &mut D, area: Extent) -> Result<(), DiskFault>
    requires on_disk { area.first + 2 * area.slots ≤ (D.state disk.old).sectors }
    ensures writes { CallWrites (InSlots area.first area.slots) D.state disk.old disk.new DiskFault.Device result }
    ensures unsealed { IsTrue (D.state disk.old).honest → IsOk result
        → (k : ℕ) → k < area.slots → slot_at (D.state disk.new).contents (area.first + 2 * k) ≡ None }
{
    for erased in 0..area.slots {
        unseal_later(disk, area.first + 2 * erased)?;
    }
    Ok(())
}

// Writes the records of the jobs into an area of which no slot is sealed: their bodies first, and then the seals.
pub(crate) fn write_records<D: SectorDisk>(
    disk: &mut D,
    area: Extent,
    table: &JobTable,
) -> Result<(), DiskFault>
    requires on_disk { area.first + 2 * area.slots ≤ (D.state disk.old).sectors }
    requires room { length table.now.pending + 2 ≤ area.slots }
    ensures writes { CallWrites (InSlots area.first area.slots) D.state disk.old disk.new DiskFault.Device result }
    ensures written { IsTrue (D.state disk.old).honest → IsOk result → IsWrittenFor area table.now 0 0 (D.state disk.old).contents
        → IsWrittenFor area table.now (length table.now.pending + 1) (length table.now.pending + 1) (D.state disk.new).contents }
    ensures synced { IsTrue (D.state disk.old).honest → IsOk result
        → AllSynced (D.state disk.new) }
    ensures in_order { IsOk result → IsInOrder table.now.pending table.now.next }
{
    fill_area(disk, area, table)?;
    seal_area(disk, area, table)
}

// Fills the records of the jobs into slots that are unsealed, with the syncs left to a later one.
#[tactic(auto, using(crate::proofs::Changes::writing_start))]
fn fill_area<D: SectorDisk>(disk: &mut D, area: Extent, table: &JobTable) -> Result<(), DiskFault>
    requires on_disk { area.first + 2 * area.slots ≤ (D.state disk.old).sectors }
    requires room { length table.now.pending + 2 ≤ area.slots }
    ensures writes { CallWrites (InSlots area.first area.slots) D.state disk.old disk.new DiskFault.Device result }
    ensures filled { IsTrue (D.state disk.old).honest → IsOk result → IsWrittenFor area table.now 0 0 (D.state disk.old).contents
        → IsWrittenFor area table.now (length table.now.pending + 1) 0 (D.state disk.new).contents }
{
    for filled in 0..record_count(table) {
        let body = record_at(table, filled).to_sector();
        fill_later(disk, area.first + 2 * filled, &body)?;
    }
    Ok(())
}

// Seals the slots that were filled, with the syncs left to the last one, behind the last of them.
fn seal_area<D: SectorDisk>(disk: &mut D, area: Extent, table: &JobTable) -> Result<(), DiskFault>
    requires on_disk { area.first + 2 * area.slots ≤ (D.state disk.old).sectors }
    requires room { length table.now.pending + 2 ≤ area.slots }
    ensures writes { CallWrites (InSlots area.first area.slots) D.state disk.old disk.new DiskFault.Device result }
    ensures sealed { IsTrue (D.state disk.old).honest → IsOk result
        → IsWrittenFor area table.now (length table.now.pending + 1) 0 (D.state disk.old).contents
        → IsWrittenFor area table.now (length table.now.pending + 1) (length table.now.pending + 1) (D.state disk.new).contents }
    // Promise: The last sync before the area cell is raised isn't left to a later one.
    // Also: write_records, write_area.
    // Refuses: left_sync_taken_for_a_sync, area_raised_before_the_last_sync.
    ensures synced { IsTrue (D.state disk.old).honest → IsOk result
        → AllSynced (D.state disk.new) }
    ensures in_order { IsInOrder table.now.pending table.now.next }
{
    let last = record_count(table) - 1;
    seal_first(disk, area, table, last)?;
    seal(disk, area.first + 2 * last)
}

// Seals so many of the slots that were filled, with the syncs left to a later one.
#[tactic(auto, using(crate::proofs::Changes::writing_start))]
fn seal_first<D: SectorDisk>(
    disk: &mut D,
    area: Extent,
    table: &JobTable,
    count: u64,
) -> Result<(), DiskFault>
    requires on_disk { area.first + 2 * area.slots ≤ (D.state disk.old).sectors }
    requires room { length table.now.pending + 2 ≤ area.slots }
    requires within { count ≤ length table.now.pending }
    ensures writes { CallWrites (InSlots area.first area.slots) D.state disk.old disk.new DiskFault.Device result }
    ensures sealed { IsTrue (D.state disk.old).honest → IsOk result
        → IsWrittenFor area table.now (length table.now.pending + 1) 0 (D.state disk.old).contents
        → IsWrittenFor area table.now (length table.now.pending + 1) count (D.state disk.new).contents }
{
    for sealed in 0..count {
        seal_later(disk, area.first + 2 * sealed)?;
    }
    Ok(())
}

// How many records stand for the jobs of a table.
pub(crate) fn record_count(table: &JobTable) -> u64
    requires { length table.now.pending + 1 < 2 ^ 64 }
    ensures count { result ≡ length table.now.pending + 1 }
    ensures in_order { IsInOrder table.now.pending table.now.next }
{
    table.pending().len() as u64 + 1
}

// The record in this slot of an area that is written anew.
fn record_at(table: &JobTable, slot: u64) -> Record
    requires { slot ≤ length table.now.pending }
    ensures { slice_get (records_for (jobs_of table.now)) slot ≡ Some result }
{
    if slot == 0 {
        Record::Base(table.next())
    } else {
        Record::Keep(table.pending().get(slot as usize - 1).unwrap().to_job())
    }
}
