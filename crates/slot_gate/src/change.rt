// A body put into a slot, in an order in which no crash leaves a torn one.
ghost use Rattle.std.specs.Prelude.{◌≡◌, ◌+◌, IsTrue, IsOk, Some, None};
ghost use Rattle.sector_disk.specs.Disk.{Image, IsImage, AllSynced};
ghost use Rattle.sector_disk.specs.Run.{Each};
ghost use Rattle.slot_gate.specs.Slot.{HasSlot, slot_at, InSlot};
ghost use Rattle.slot_gate.specs.Stored.{Knows, IsStored, IsCleared, Follows};
ghost use Rattle.slot_gate.specs.Writing.{CallWrites};

use crate::slot::{fill, seal, unseal};
use sector_disk::{DiskFault, Sector, SectorDisk};

/// Puts a body into a slot: unseals it where the caller knows it to be sealed, fills it, and seals
/// it. Six device calls over a sealed slot, four over an unsealed one, and no read: the caller says
/// which it is.
pub fn store<D: SectorDisk>(
    disk: &mut D,
    slot: u64,
    sealed: bool,
    body: &Sector,
) -> Result<(), DiskFault>
    requires on_disk { HasSlot slot (D.state disk.old) }

    // Promise: Storing a body: in every image since the start the slot is as it was, unsealed, or sealed over the whole new body;
    // after `Ok` sealed over it, nothing unsynced; no sector outside the slot changes in any image.
    // Refuses: sealed_before_body_synced, unsealed_again, stored_over_a_sealed_slot.
    ensures writes { CallWrites (InSlot slot) D.state disk.old disk.new DiskFault.Device result }

    // In each image since the start the slot is as it was, unsealed, or sealed over the whole new
    // body.
    ensures images { IsTrue (D.state disk.old).honest → Knows (D.state disk.old) slot sealed
        → Each (D.state disk.old) (D.state disk.new)
        (Follows (InSlot slot) (D.state disk.old) slot (IsStored body.now)) }

    ensures sealed { IsTrue (D.state disk.old).honest → IsOk result
        → slot_at (D.state disk.new).contents slot ≡ Some body.now }
    ensures synced { IsTrue (D.state disk.old).honest → IsOk result
        → AllSynced (D.state disk.new) }
{
    clear(disk, slot, sealed)?;
    fill(disk, slot, body)?;
    seal(disk, slot)
}

// Unseals the slot unless it is known to be unsealed: a torn write to an unsealed gate could seal
// any body.
fn clear<D: SectorDisk>(disk: &mut D, slot: u64, sealed: bool) -> Result<(), DiskFault>
    requires on_disk { HasSlot slot (D.state disk.old) }
    ensures writes { CallWrites (λ k. k ≡ slot + 1) D.state disk.old disk.new DiskFault.Device result }
    ensures images { IsTrue (D.state disk.old).honest → Knows (D.state disk.old) slot sealed
        → Each (D.state disk.old) (D.state disk.new)
        (Follows (λ k. k ≡ slot + 1) (D.state disk.old) slot IsCleared) }
    ensures cleared { IsTrue (D.state disk.old).honest → Knows (D.state disk.old) slot sealed
        → IsOk result → (d : Image) → IsImage (D.state disk.new) d → slot_at d slot ≡ None }
{
    if sealed { unseal(disk, slot) } else { Ok(()) }
}
