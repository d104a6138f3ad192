// A journal moved into its other area, with no record in it but those of the pending jobs.
ghost use Rattle.std.specs.Prelude.{◌≡◌, ◌≢◌, ◌<◌, ◌≤◌, ◌+◌, ◌-◌, ◌*◌, ◌^◌, IsTrue, IsOk, IsErrOf, Some, None};
ghost use Rattle.disk_layout.specs.Layout.{sectors_for};
ghost use Rattle.disk_layout.specs.declared.layout.TheConstants.{MOST_SLOTS};
ghost use Rattle.sector_disk.specs.Disk.{Counts};
ghost use Rattle.sector_disk.specs.Run.{Run, Each};
ghost use Rattle.slot_gate.specs.Writing.{CallWrites};
ghost use Rattle.safe_cell.specs.Answered.{FaultLeaves};
ghost use Rattle.job_journal.specs.Appending.{Answers};
ghost use Rattle.job_journal.specs.Areas.{first_of, EndsIn};
ghost use Rattle.job_journal.specs.Compacting.{compaction_refusal, compacted, records_for, with_slot, KeepsJobs, IsGivenUp};
ghost use Rattle.job_journal.specs.Jobs.{jobs_of};
ghost use Rattle.job_journal.specs.Journal.{jobs_in, ImagesSince, InJournal, IsNumbered};
ghost use Rattle.job_journal.specs.Mounted.{AllHold, Lasts, IsJournal};

use crate::area::{record_count, write_area};
use crate::extent::Extent;
use crate::fault::JournalFault;
use crate::journal::{JobJournal, first_under};
use safe_cell::SafeCell;
use sector_disk::SectorDisk;

impl JobJournal {
    /// Writes the pending jobs into the other area and makes it the present one: `2 * slots` device calls, four for
    /// each pending job and four more, and four or six for the area cell. No job changes, and it takes no memory.
    /// Refused in the order `Broken`, `AreaExhausted`, `Device`; after `Device` the journal is broken until it is
    /// mounted again.
    pub fn compact<D: SectorDisk>(&mut self, disk: &mut D) -> Result<(), JournalFault>
        requires on_disk { sectors_for self.old.slots ≤ (D.state disk.old).sectors }

        ensures counts { Counts (D.state disk.old) (D.state disk.new)
            (IsErrOf result JournalFault.Device) (IsErrOf result JournalFault.Device → ⊥) }

        // Which answer comes when, and what it leaves.
        // Promise: It is refused in the order Broken, AreaExhausted, and these change neither disk nor journal; else it answers Ok
        // or Device.
        // Also: faults, JobJournal::refuse_compaction.
        // Refuses: compaction_does_nothing.
        ensures answers { Answers (compaction_refusal self.old) result }
        ensures faults { FaultLeaves JournalFault.Device (compaction_refusal self.old) result disk.old disk.new self.old self.new
            (IsGivenUp self.old self.new) }
        // Promise: After its Ok every image has the other area, with a Base and one Keep for each job and no sealed slot behind
        // them; nothing is unsynced.
        // Also: after.
        // Refuses: last_keep_not_sealed, first_slots_not_sealed, compaction_does_nothing.
        ensures ok { IsOk result → self.new ≡ compacted self.old }
        ensures kept { KeepsJobs self.old self.new }

        // No sector outside the journal changes in any image.
        ensures run { IsTrue (D.state disk.old).honest
            → Run (InJournal self.old.slots) (D.state disk.old) (D.state disk.new) }

        // Each image since the start stands for the jobs of before, and on a sound disk it is sound.
        // Promise: A compaction on an honest disk, sound or not: every image since its start stands for the jobs from before it.
        // Refuses: area_raised_before_last_keep, written_into_the_present_area, keep_left_out, base_of_zero, last_keep_not_sealed,
        // next_id_not_kept.
        // Promise: It keeps a sound disk sound in every image, and changes no sector outside the journal.
        // Also: run.
        // Refuses: old_area_left_unsealed.
        ensures images { IsTrue (D.state disk.old).honest → AllHold self.old (D.state disk.old)
            → ImagesSince self.old.slots (D.state disk.old) (D.state disk.new)
            (λ image. jobs_in self.old.slots image ≡ Some (jobs_of self.old.table)) }

        // In each image since the start the area cell has the number of before, or the next one.
        ensures numbered { IsTrue (D.state disk.old).honest → AllHold self.old (D.state disk.old)
            → Each (D.state disk.old) (D.state disk.new) (IsNumbered self.old.area.value) }

        // After `Ok` each image has the new area, and nothing is unsynced.
        // Promise: The records that it wrote are the bytes of today's spelling, each job's Keep too.
        // Refuses: old_spelling_kept.
        ensures after { IsTrue (D.state disk.old).honest → IsOk result
            → Lasts (AllHold self.old (D.state disk.old)) (records_for (jobs_of self.old.table)) self.new (D.state disk.new) }
    {
        if let Some(fault) = self.refuse_compaction() {
            return Err(fault);
        }
        let records = record_count(&self.table);
        let other = Extent {
            first: other_sector(self.slots, &self.area),
            slots: self.slots,
        };
        let Ok(()) = write_area(disk, other, &self.table) else {
            self.broken = true;
            return Err(JournalFault::Device);
        };
        let raised = self.area.raise(disk);
        self.used = records;
        self.broken = raised.is_err();
        raised.and(Ok(())).or(Err(JournalFault::Device))
    }

    // Compacts where no slot is free.
    pub(crate) fn make_room<D: SectorDisk>(&mut self, disk: &mut D) -> Result<(), JournalFault>
        requires on_disk { sectors_for self.old.slots ≤ (D.state disk.old).sectors }
        requires can { self.old.used ≡ self.old.slots → compaction_refusal self.old ≡ None }
        ensures writes { CallWrites (InJournal self.old.slots) D.state disk.old disk.new JournalFault.Device result }
        ensures device { IsErrOf result JournalFault.Device → IsGivenUp self.old self.new }
        ensures ok { IsOk result → self.new ≡ with_slot self.old }
        ensures kept { KeepsJobs self.old self.new }
        ensures images { IsTrue (D.state disk.old).honest → AllHold self.old (D.state disk.old)
            → ImagesSince self.old.slots (D.state disk.old) (D.state disk.new)
            (λ image. jobs_in self.old.slots image ≡ Some (jobs_of self.old.table)) }
        ensures numbered { IsTrue (D.state disk.old).honest → AllHold self.old (D.state disk.old)
            → Each (D.state disk.old) (D.state disk.new) (IsNumbered self.old.area.value) }
        ensures after { IsTrue (D.state disk.old).honest → AllHold self.old (D.state disk.old) → IsOk result
            → AllHold self.new (D.state disk.new) }
        ensures spelled { IsTrue (D.state disk.old).honest → IsOk result → self.old.used ≡ self.old.slots
            → EndsIn self.new.slots self.new.area.value self.new.used (records_for (jobs_of self.old.table)) (D.state disk.new).contents }
    {
        if self.used == self.slots {
            return self.compact(disk);
        }
        Ok(())
    }

    // Why a compaction is refused before the device is called.
    fn refuse_compaction(&self) -> Option<JournalFault>
        ensures value { result ≡ compaction_refusal self.now }
        ensures kept { IsJournal self.now }
    {
        if self.broken {
            Some(JournalFault::Broken)
        } else if self.area.value() == u64::MAX {
            Some(JournalFault::AreaExhausted)
        } else {
            None
        }
    }
}

// The first sector of the area that isn't present.
fn other_sector(slots: u64, area: &SafeCell) -> u64
    requires most { slots ≤ MOST_SLOTS }
    requires below { area.now.value ≢ 2 ^ 64 - 1 }
    ensures { result ≡ first_of slots (area.now.value + 1) }
{
    first_under(slots, area.value() + 1)
}
