// Slots that stand one behind another, unsealed together.
ghost use Rattle.std.specs.Prelude.{◌≡◌, ◌<◌, ◌≤◌, ◌+◌, ◌*◌, ◌^◌, ℕ, IsTrue, IsOk, None};
ghost use Rattle.sector_disk.specs.Disk.{AllSynced};
ghost use Rattle.slot_gate.specs.Slot.{slot_at, InSlots};
ghost use Rattle.slot_gate.specs.Writing.{CallWrites};

use sector_disk::{DiskFault, SectorDisk};

/// Unseals so many slots, one behind another from this body sector on, whatever their gates hold: one write
/// for each gate, in rising order, and one sync behind all of them. Until then a crash may leave any of
/// the slots sealed, over whatever its body holds: it is meant for slots that nobody reads yet.
pub fn unseal_all<D: SectorDisk>(disk: &mut D, first: u64, slots: u64) -> Result<(), DiskFault>
    requires on_disk { first + 2 * slots ≤ (D.state disk.old).sectors }
    requires fits { first + 2 * slots < 2 ^ 64 }

    // Promise: After unsealing slots together answers `Ok` each is unsealed, synced; no sector outside these slots changes in any
    // image.
    // Refuses: job_journal::second_area_left_sealed.
    ensures writes { CallWrites (InSlots first slots) D.state disk.old disk.new DiskFault.Device result }
    ensures unsealed { IsTrue (D.state disk.old).honest → IsOk result
        → (k : ℕ) → k < slots → slot_at (D.state disk.new).contents (first + 2 * k) ≡ None }
    ensures synced { IsTrue (D.state disk.old).honest → IsOk result
        → AllSynced (D.state disk.new) }
{
    for unsealed in 0..slots {
        disk.write(first + 2 * unsealed + 1, &[0; 512])?;
    }
    disk.sync()
}
