// A cell read from its disk.
ghost use Rattle.std.specs.Prelude.{◌⊎◌, ◌<◌, ◌+◌, ◌^◌, ℕ, IsTrue, IsFalse, IsOk, IfOk, IfErr, IsErrOf};
ghost use Rattle.slot_gate.specs.Slot.{slot_at};
ghost use Rattle.safe_cell.specs.Answered.{OnlyReads};
ghost use Rattle.safe_cell.specs.Cell.{IsDamaged, InCell};
ghost use Rattle.safe_cell.specs.Mounted.{IsCellAt, IsRead, Stands, AllStand};
ghost use Rattle.safe_cell.specs.Mounting.{IsMountFault, AnswersFor};

use crate::body::value_in;
use crate::cell::SafeCell;
use crate::fault::CellFault;
use sector_disk::SectorDisk;
use slot_gate::look;

/// Reads the cell whose four sectors begin at this one: slot A, then slot B, of each the gate and
/// then, where it is sealed, the body; a body that is none of a cell is answered at once. The caller
/// sees to it, by a sync, that nothing in these sectors is unsynced: else a later crash may leave
/// another value than the one that was read.
pub fn mount<D: SectorDisk>(disk: &mut D, at: u64) -> Result<SafeCell, CellFault>
    requires on_disk { at + 3 < (D.state disk.old).sectors }
    requires fits { at + 3 < 2 ^ 64 }

    ensures place { IfOk result (λ cell. IsCellAt at cell × IsFalse cell.broken) }
    ensures mounted { IsTrue (D.state disk.old).honest
        → IfOk result (λ cell. Stands cell (D.state disk.old).contents) }

    // Device aside, it answers what the disk as it reads stands for.
    // Promise: A mounting answers what the disk as it reads stands for, and NotFormatted, Damaged(first), Damaged(second) exactly
    // where it stands for nothing, for that reason; Device aside.
    // Also: no_other.
    // Refuses: mounted_at_smaller_value, always_damaged.
    // Promise: Where slot A has the cell's value it is the present one, also where B has the same.
    // Refuses: second_slot_before_its_equal.
    ensures answers_for { IsTrue (D.state disk.old).honest → (IsErrOf result CellFault.Device → ⊥)
        → AnswersFor at (D.state disk.old).contents result }

    // Where nothing in its sectors is unsynced, each image has what the cell knows.
    // Promise: Where nothing in the cell's sectors was unsynced, every image has what the mounted cell knows.
    // Refuses: mounted_at_smaller_value.
    ensures stands { IsTrue (D.state disk.old).honest
        → ((k : ℕ) → InCell at k → (D.state disk.old).synced k)
        → IfOk result (λ cell. AllStand cell (D.state disk.new)) }

    ensures no_other { IfErr result (IsMountFault at) }

    // It writes nothing.
    ensures only_reads { OnlyReads (D.state disk.old) (D.state disk.new) (IsErrOf result CellFault.Device) }
{
    let first = read_slot(disk, at)?;
    let second = read_slot(disk, at + 2)?;
    SafeCell::of_values(at, first, second)
}

// The value of a slot, if it is sealed.
fn read_slot<D: SectorDisk>(disk: &mut D, slot: u64) -> Result<Option<u64>, CellFault>
    requires on_disk { slot + 1 < (D.state disk.old).sectors }
    requires fits { slot + 1 < 2 ^ 64 }
    ensures read { IsTrue (D.state disk.old).honest
        → IfOk result (λ value. IsRead (slot_at (D.state disk.old).contents slot) value) }
    ensures damaged { IsTrue (D.state disk.old).honest → IsErrOf result (CellFault.Damaged slot)
        → IsDamaged (slot_at (D.state disk.old).contents slot) }
    ensures no_other { IsErrOf result CellFault.Device
        ⊎ IsErrOf result (CellFault.Damaged slot) ⊎ IsOk result }
    ensures only_reads { OnlyReads (D.state disk.old) (D.state disk.new) (IsErrOf result CellFault.Device) }
{
    match look(disk, slot) {
        Err(_) => Err(CellFault::Device),
        Ok(None) => Ok(None),
        Ok(Some(body)) => match value_in(&body) {
            None => Err(CellFault::Damaged(slot)),
            Some(value) => Ok(Some(value)),
        },
    }
}
