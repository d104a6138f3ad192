// A store begun with a counter and jobs.
ghost use Rattle.std.specs.Prelude.{◌<◌, ◌≤◌, ◌+◌, length, IsTrue, IsOk};
ghost use Rattle.sector_disk.specs.Disk.{AllSynced};
ghost use Rattle.sector_disk.specs.Run.{Each};
ghost use Rattle.job_model.specs.Table.{durable_of};
ghost use Rattle.job_journal.specs.Journal.{IsSound};
ghost use Rattle.node_store.specs.Calls.{Makes};
ghost use Rattle.node_store.specs.Store.{slots_for, AllStandFor};
ghost use Rattle.node_store.specs.Beginning.{HasNoCounter, NothingOr};

use crate::fault::StoreFault;
use crate::formatting::slots_on;
use job_model::JobTable;
use sector_disk::SectorDisk;

/// Makes a store with this counter and the jobs of a table on a disk that has no counter, as a new one of zeros: the journal first, and then the
/// counter. Refused in the order `TooSmall` (fewer than 24 sectors, no device call), `Device`.
pub fn begin<D: SectorDisk>(disk: &mut D, count: u64, table: &JobTable) -> Result<(), StoreFault>
    requires room { length table.now.pending + 2 ≤ slots_for (D.state disk.old).sectors }
    ensures makes { Makes D.state disk.old disk.new result }

    // Each image since the start stands for nothing, or for this counter, this next id and just these jobs.
    // Promise: A store that is begun on a disk without a counter: each image since the start stands for nothing, or for this
    // counter, this next id and just these jobs.
    // Also: begun.
    // Refuses: counter_begun_first, another_counter_begun.
    ensures images { IsTrue (D.state disk.old).honest → HasNoCounter (D.state disk.old)
        → Each (D.state disk.old) (D.state disk.new) (NothingOr (slots_for (D.state disk.old).sectors) (durable_of count table.now)) }

    // After `Ok` each image stands for them, the disk is sound, and nothing is unsynced.
    ensures begun { IsTrue (D.state disk.old).honest → HasNoCounter (D.state disk.old) → IsOk result
        → AllStandFor (slots_for (D.state disk.old).sectors) (durable_of count table.now) (D.state disk.new) }
    ensures sound { IsTrue (D.state disk.old).honest → IsOk result
        → IsSound (slots_for (D.state disk.old).sectors) (D.state disk.new) }
    ensures synced { IsTrue (D.state disk.old).honest → IsOk result
        → AllSynced (D.state disk.new) }
{
    let slots = slots_on(disk)?;
    job_journal::begin(disk, slots, table).or(Err(StoreFault::Device))?;
    safe_cell::begin(disk, 0, count).or(Err(StoreFault::Device))
}
