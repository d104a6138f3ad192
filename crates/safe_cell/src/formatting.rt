// A cell made on its disk.
ghost use Rattle.std.specs.Prelude.{◌≡◌, ◌<◌, ◌+◌, ◌^◌, IsTrue, IsOk, None};
ghost use Rattle.sector_disk.specs.Disk.{AllSynced};
ghost use Rattle.sector_disk.specs.Run.{Each};
ghost use Rattle.slot_gate.specs.Slot.{slot_at};
ghost use Rattle.slot_gate.specs.Writing.{CallWrites};
ghost use Rattle.safe_cell.specs.Cell.{InCell, AllHave};
ghost use Rattle.safe_cell.specs.Mounted.{AllStand};
ghost use Rattle.safe_cell.specs.Formatted.{formatted, IsGate, IsNotTorn};

use crate::body::body_for;
use crate::fault::CellFault;
use sector_disk::{DiskFault, SectorDisk};
use slot_gate::{store, unseal};

/// Makes a cell with this value in the four sectors from this one on, in eight device calls:
/// unseals both slots, fills slot A and seals it. `Device` is the only fault; whatever cell was
/// there before may then be lost.
pub fn format<D: SectorDisk>(disk: &mut D, at: u64, value: u64) -> Result<(), CellFault>
    requires on_disk { at + 3 < (D.state disk.old).sectors }
    requires fits { at + 3 < 2 ^ 64 }

    // Promise: `Device` comes only where the count of failures rose or stands at its greatest value, and every other answer leaves
    // the count, over any disk.
    // Also: SafeCell::raise.
    // Refuses: device_fault_without_failure.
    ensures writes { CallWrites (InCell at) D.state disk.old disk.new CellFault.Device result }

    // Where both bodies were synced, no image since the start has a slot that is sealed over a torn
    // one.
    ensures images { IsTrue (D.state disk.old).honest
        → (D.state disk.old).synced at → (D.state disk.old).synced (at + 2)
        → Each (D.state disk.old) (D.state disk.new)
        (IsNotTorn at value (D.state disk.old).contents) }

    // After `Ok` each image has the value and no other sealed slot, and nothing is unsynced.
    // Promise: After a formatting answers `Ok` every image has its value, nothing is unsynced; until then no slot is sealed over a
    // torn body, where both bodies were synced.
    // Also: formatted, synced, images.
    // Refuses: format_does_nothing, formatted_gate_before_body.
    ensures value { IsTrue (D.state disk.old).honest → IsOk result
        → AllHave at value (D.state disk.new) }
    ensures formatted { IsTrue (D.state disk.old).honest → IsOk result
        → AllStand (formatted at value) (D.state disk.new) }
    ensures synced { IsTrue (D.state disk.old).honest → IsOk result
        → AllSynced (D.state disk.new) }
{
    if erase(disk, at).is_err() {
        return Err(CellFault::Device);
    }
    store(disk, at, false, &body_for(value)).or(Err(CellFault::Device))
}

// Unseals both slots.
fn erase<D: SectorDisk>(disk: &mut D, at: u64) -> Result<(), DiskFault>
    requires on_disk { at + 3 < (D.state disk.old).sectors }
    requires fits { at + 3 < 2 ^ 64 }
    ensures writes { CallWrites (IsGate at) D.state disk.old disk.new DiskFault.Device result }
    ensures first { IsTrue (D.state disk.old).honest → IsOk result
        → slot_at (D.state disk.new).contents at ≡ None }
    ensures second { IsTrue (D.state disk.old).honest → IsOk result
        → slot_at (D.state disk.new).contents (at + 2) ≡ None }
    ensures synced { IsTrue (D.state disk.old).honest → IsOk result
        → AllSynced (D.state disk.new) }
{
    unseal(disk, at)?;
    unseal(disk, at + 2)
}
