// A journal begun with jobs.
ghost use Rattle.std.specs.Prelude.{◌≡◌, ◌<◌, ◌≤◌, ◌+◌, ◌*◌, length, IsTrue, IsOk, Some};
ghost use Rattle.disk_layout.specs.Layout.{sectors_for};
ghost use Rattle.disk_layout.specs.declared.layout.TheConstants.{MOST_SLOTS};
ghost use Rattle.sector_disk.specs.Disk.{Image, IsImage, AllSynced};
ghost use Rattle.slot_gate.specs.Writing.{CallWrites};
ghost use Rattle.job_journal.specs.Jobs.{jobs_of};
ghost use Rattle.job_journal.specs.Journal.{jobs_in, IsSound, InJournal};

use crate::area::write_records;
use crate::extent::Extent;
use crate::fault::JournalFault;
use job_model::JobTable;
use sector_disk::SectorDisk;
use slot_gate::unseal_all;

/// Makes a journal of the jobs of a table, with areas of so many slots: unseals the gates of both areas by one write each and one sync for all,
/// writes a Base of the next id and a Keep for each job into the first area, and then gives the area cell the value 1, in `2 * slots + 9` device
/// calls and four for each record. `Device` is the only fault; what was there before may then be lost.
pub fn begin<D: SectorDisk>(disk: &mut D, slots: u64, table: &JobTable) -> Result<(), JournalFault>
    requires on_disk { sectors_for slots ≤ (D.state disk.old).sectors }
    requires most { slots ≤ MOST_SLOTS }
    requires room { length table.now.pending + 2 ≤ slots }

    ensures writes { CallWrites (InJournal slots) D.state disk.old disk.new JournalFault.Device result }

    // After `Ok` each image stands for these jobs; the disk is sound, and nothing is unsynced.
    // Promise: After a journal was begun with jobs, each image has just these jobs, under their ids.
    // Refuses: begun_without_seals.
    ensures jobs { IsTrue (D.state disk.old).honest → IsOk result
        → (image : Image) → IsImage (D.state disk.new) image → jobs_in slots image ≡ Some (jobs_of table.now) }
    ensures sound { IsTrue (D.state disk.old).honest → IsOk result → IsSound slots (D.state disk.new) }
    ensures synced { IsTrue (D.state disk.old).honest → IsOk result → AllSynced (D.state disk.new) }
{
    unseal_all(disk, 8, 2 * slots).or(Err(JournalFault::Device))?;
    write_records(disk, Extent { first: 8, slots }, table).or(Err(JournalFault::Device))?;
    safe_cell::format(disk, 4, 1).or(Err(JournalFault::Device))
}
