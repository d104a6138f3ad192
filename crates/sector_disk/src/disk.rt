// A disk of sectors as the code above it sees it.
ghost use Rattle.std.specs.Prelude.{◌≡◌, ◌≤◌, ◌↔◌, IsTrue, IsOk, IsErrOf};
ghost use Rattle.sector_disk.specs.Disk.{DiskState, Counts, Laws, Touches, AllSynced, nothing, sector_at};
ghost use Rattle.sector_disk.specs.declared.fault.DiskFault.TheVariants.{Device, OutOfRange};

use crate::fault::DiskFault;
use crate::sector::Sector;

/// A disk: sectors that are read and written one at a time, and a sync.
///
/// An honest disk keeps to the model of `docs/FORMATS.md`. Of a disk that isn't honest, as one over a
/// real file, a contract knows no more than when each fault comes. No call arms a disk to fail.
pub trait SectorDisk {
    ghost state: { Self → DiskState };

    /// How many sectors the disk has. No call changes it.
    fn sectors(&self) -> u64
        ensures { result ≡ (state self.now).sectors };

    /// How many calls have failed with `Device`; a call out of range isn't counted. It stays at its greatest value once it gets there.
    fn failures(&self) -> u64
        ensures { result ≡ (state self.now).failures };

    /// Reads a sector. After an `Err` nothing is known of `into`.
    fn read(&mut self, at: u64, into: &mut Sector) -> Result<(), DiskFault>
        // Promise: Over any disk: `Device` comes only where the count of failures rose in that call or stands at 2^64 - 1; an `Ok`
        // leaves the count; no call changes `sectors`, or lets more calls pass than were to; honesty is kept in both directions.
        // Also: SectorDisk::write, SectorDisk::sync.
        // Refuses: device_fault_without_failure.
        ensures counts { Counts (state self.old) (state self.new) (IsErrOf result Device) (IsOk result) }
        // Promise: Over any disk, honest or not: `OutOfRange` comes exactly where the sector isn't below `sectors`, and then
        // nothing was done; `sync` never answers it.
        // Also: unchanged, SectorDisk::write, SectorDisk::sync.
        // Refuses: last_sector_refused, out_of_range_counted.
        ensures refused { IsErrOf result OutOfRange ↔ ((state self.old).sectors ≤ at) }
        ensures unchanged { IsErrOf result OutOfRange → self.new ≡ self.old }
        // Promise: Over an honest disk: what reads give, which images a crash now or since an earlier moment may leave, after each
        // call.
        // Also: gives, SectorDisk::write, SectorDisk::sync.
        // Refuses: write_is_not_dirty, zeros_written, written_one_before, first_sector_read, read_dropped,
        // sync_makes_sure_of_nothing, sync_ends_no_time.
        ensures touches { IsTrue (state self.old).honest → Touches nothing (state self.old) (state self.new) }
        ensures gives { IsTrue (state self.old).honest → IsOk result → into.new ≡ sector_at (state self.old).contents at };

    /// Writes a sector. Until a sync, a crash may leave any bytes there, also where the write failed.
    fn write(&mut self, at: u64, from: &Sector) -> Result<(), DiskFault>
        ensures counts { Counts (state self.old) (state self.new) (IsErrOf result Device) (IsOk result) }
        ensures refused { IsErrOf result OutOfRange ↔ ((state self.old).sectors ≤ at) }
        ensures unchanged { IsErrOf result OutOfRange → self.new ≡ self.old }
        ensures touches { IsTrue (state self.old).honest → Touches (λ k. k ≡ at) (state self.old) (state self.new) }
        ensures gives { IsTrue (state self.old).honest → IsOk result → sector_at (state self.new).contents at ≡ from.now };

    /// After it, a crash leaves what reads give.
    fn sync(&mut self) -> Result<(), DiskFault>
        ensures counts { Counts (state self.old) (state self.new) (IsErrOf result Device) (IsOk result) }
        ensures refused { IsErrOf result OutOfRange ↔ ⊥ }
        ensures touches { IsTrue (state self.old).honest → Touches nothing (state self.old) (state self.new) }
        ensures syncs_all { IsTrue (state self.old).honest → IsOk result → AllSynced (state self.new) };

    /// A sync that may be left to the next one: of what was written, a crash may leave any part as before, and any as after a sync. It counts
    /// as the sync that it stands for, and fails as one; only a later `sync` makes sure.
    fn sync_later(&mut self) -> Result<(), DiskFault>
        ensures counts { Counts (state self.old) (state self.new) (IsErrOf result Device) (IsOk result) }
        ensures refused { IsErrOf result OutOfRange ↔ ⊥ }
        // Promise: Over an honest disk: a sync that is left to the next one changes nothing that reads give, and does to the images that a
        // crash may leave anything between nothing and a sync: a sector that was synced stays so, and no more is known.
        // Also: MemDisk::sync_later.
        // Refuses: job_journal::left_sync_taken_for_a_sync.
        ensures touches { IsTrue (state self.old).honest → Touches nothing (state self.old) (state self.new) };

    /// An honest disk keeps these.
    ghost laws: { (disk : Self) → IsTrue (state disk).honest → Laws (state disk) };
}
