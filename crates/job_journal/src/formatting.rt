// A journal made on its disk.
ghost use Rattle.std.specs.Prelude.{◌≡◌, ◌<◌, ◌≤◌, ◌+◌, ◌*◌, IsTrue, IsOk, Some};
ghost use Rattle.disk_layout.specs.Layout.{sectors_for};
ghost use Rattle.disk_layout.specs.declared.layout.TheConstants.{MOST_SLOTS};
ghost use Rattle.sector_disk.specs.Disk.{Image, IsImage, AllSynced};
ghost use Rattle.slot_gate.specs.Writing.{CallWrites};
ghost use Rattle.job_journal.specs.Jobs.{no_jobs};
ghost use Rattle.job_journal.specs.Journal.{jobs_in, IsFormatted, IsSound, InJournal};

use crate::fault::JournalFault;
use sector_disk::SectorDisk;
use slot_gate::unseal_all;

/// Makes an empty journal with areas of so many slots: unseals the gates of both areas by one write each and one sync
/// for all, and then gives the area cell the value 1, in `2 * slots + 9` device calls. `Device` is the only fault; what
/// was there before may then be lost.
pub fn format<D: SectorDisk>(disk: &mut D, slots: u64) -> Result<(), JournalFault>
    requires on_disk { sectors_for slots ≤ (D.state disk.old).sectors }
    requires most { slots ≤ MOST_SLOTS }

    ensures writes { CallWrites (InJournal slots) D.state disk.old disk.new JournalFault.Device result }

    // After `Ok` each image has the area cell's 1 and no sealed slot in either area, so it stands for no jobs; the disk
    // is sound, and nothing is unsynced.
    // Promise: After a format every image has the area cell's 1 and no sealed gate in either area, so it stands for no jobs; the
    // disk is sound.
    // Also: empty, sound.
    // Refuses: format_does_nothing, second_area_left_sealed, area_cell_of_another_number.
    ensures formatted { IsTrue (D.state disk.old).honest → IsOk result
        → (image : Image) → IsImage (D.state disk.new) image → IsFormatted slots image }
    ensures empty { IsTrue (D.state disk.old).honest → IsOk result
        → (image : Image) → IsImage (D.state disk.new) image → jobs_in slots image ≡ Some no_jobs }
    ensures sound { IsTrue (D.state disk.old).honest → IsOk result → IsSound slots (D.state disk.new) }
    ensures synced { IsTrue (D.state disk.old).honest → IsOk result → AllSynced (D.state disk.new) }
{
    unseal_all(disk, 8, 2 * slots).or(Err(JournalFault::Device))?;
    safe_cell::format(disk, 4, 1).or(Err(JournalFault::Device))
}
