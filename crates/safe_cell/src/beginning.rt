// A cell begun on a disk that has none.
ghost use Rattle.std.specs.Prelude.{◌≡◌, ◌⊎◌, ◌<◌, ◌+◌, ◌^◌, IsTrue, IsOk, Some, None, false};
ghost use Rattle.sector_disk.specs.Disk.{AllSynced};
ghost use Rattle.sector_disk.specs.Run.{Each};
ghost use Rattle.slot_gate.specs.Slot.{InSlot};
ghost use Rattle.slot_gate.specs.Stored.{Knows};
ghost use Rattle.slot_gate.specs.Writing.{CallWrites};
ghost use Rattle.safe_cell.specs.Cell.{cell_at, AllHave};

use crate::body::body_for;
use crate::fault::CellFault;
use sector_disk::SectorDisk;
use slot_gate::store;

/// Gives a cell of which no slot is sealed its first value, in four device calls: fills slot A and
/// seals it. `Device` is the only fault.
pub fn begin<D: SectorDisk>(disk: &mut D, at: u64, value: u64) -> Result<(), CellFault>
    requires on_disk { at + 3 < (D.state disk.old).sectors }
    requires fits { at + 3 < 2 ^ 64 }

    ensures writes { CallWrites (InSlot at) D.state disk.old disk.new CellFault.Device result }

    // Each image since the start has no value or this one.
    // Promise: A cell that is begun on a disk that has none: each image since the start has no value or this one.
    // Refuses: begun_with_another_value.
    ensures images { IsTrue (D.state disk.old).honest
        → Knows (D.state disk.old) at false → Knows (D.state disk.old) (at + 2) false
        → Each (D.state disk.old) (D.state disk.new)
        (λ c. (cell_at c at ≡ None) ⊎ (cell_at c at ≡ Some value)) }

    // After `Ok` each image has this one, and nothing is unsynced.
    ensures value { IsTrue (D.state disk.old).honest
        → Knows (D.state disk.old) (at + 2) false → IsOk result
        → AllHave at value (D.state disk.new) }
    ensures synced { IsTrue (D.state disk.old).honest → IsOk result
        → AllSynced (D.state disk.new) }
{
    store(disk, at, false, &body_for(value)).or(Err(CellFault::Device))
}
