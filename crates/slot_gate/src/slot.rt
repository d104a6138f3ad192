// One slot, by the number of its body sector: its gate is the sector behind it.
ghost use Rattle.std.specs.Prelude.{◌≡◌, ◌<◌, ◌+◌, ℕ, IsTrue, IsOk, IsErrOf, IfOk, Some, None};
ghost use Rattle.sector_disk.specs.Disk.{Image, IsImage, Counts, AllSynced, nothing, sector_at};
ghost use Rattle.sector_disk.specs.Run.{Run, Each};
ghost use Rattle.slot_gate.specs.Slot.{HasSlot, slot_at, sealed_gate, unsealed_gate};
ghost use Rattle.slot_gate.specs.Stored.{TurnsGate};
ghost use Rattle.slot_gate.specs.Writing.{CallWrites};

use sector_disk::{DiskFault, Sector, SectorDisk};

const SEALED: u8 = 0xa5;

/// The gate of a sealed slot: one byte, and zeros. They are spelled out, since a constant is one expression.
const SEALED_GATE: Sector =
    *b"\xa5\0\0\0\0\0\0\0\0\0\0\0\0\0\0\0\0\0\0\0\0\0\0\0\0\0\0\0\0\0\0\0\0\0\0\0\0\0\0\0\0\0\0\0\0\0\0\0\
    \0\0\0\0\0\0\0\0\0\0\0\0\0\0\0\0\0\0\0\0\0\0\0\0\0\0\0\0\0\0\0\0\0\0\0\0\0\0\0\0\0\0\0\0\0\0\0\0\
    \0\0\0\0\0\0\0\0\0\0\0\0\0\0\0\0\0\0\0\0\0\0\0\0\0\0\0\0\0\0\0\0\0\0\0\0\0\0\0\0\0\0\0\0\0\0\0\0\
    \0\0\0\0\0\0\0\0\0\0\0\0\0\0\0\0\0\0\0\0\0\0\0\0\0\0\0\0\0\0\0\0\0\0\0\0\0\0\0\0\0\0\0\0\0\0\0\0\
    \0\0\0\0\0\0\0\0\0\0\0\0\0\0\0\0\0\0\0\0\0\0\0\0\0\0\0\0\0\0\0\0\0\0\0\0\0\0\0\0\0\0\0\0\0\0\0\0\
    \0\0\0\0\0\0\0\0\0\0\0\0\0\0\0\0\0\0\0\0\0\0\0\0\0\0\0\0\0\0\0\0\0\0\0\0\0\0\0\0\0\0\0\0\0\0\0\0\
    \0\0\0\0\0\0\0\0\0\0\0\0\0\0\0\0\0\0\0\0\0\0\0\0\0\0\0\0\0\0\0\0\0\0\0\0\0\0\0\0\0\0\0\0\0\0\0\0\
    \0\0\0\0\0\0\0\0\0\0\0\0\0\0\0\0\0\0\0\0\0\0\0\0\0\0\0\0\0\0\0\0\0\0\0\0\0\0\0\0\0\0\0\0\0\0\0\0\
    \0\0\0\0\0\0\0\0\0\0\0\0\0\0\0\0\0\0\0\0\0\0\0\0\0\0\0\0\0\0\0\0\0\0\0\0\0\0\0\0\0\0\0\0\0\0\0\0\
    \0\0\0\0\0\0\0\0\0\0\0\0\0\0\0\0\0\0\0\0\0\0\0\0\0\0\0\0\0\0\0\0\0\0\0\0\0\0\0\0\0\0\0\0\0\0\0\0\
    \0\0\0\0\0\0\0\0\0\0\0\0\0\0\0\0\0\0\0\0\0\0\0\0\0\0\0\0\0\0\0\0";

/// Opens the gate of a slot, in two device calls. Meant for a slot that is sealed: over a gate that
/// is unsealed already, a torn write could seal whatever bytes the body holds.
#[tactic(auto, unfolding(crate::specs::Slot::unsealed_gate))]
pub fn unseal<D: SectorDisk>(disk: &mut D, slot: u64) -> Result<(), DiskFault>
    requires on_disk { HasSlot slot (D.state disk.old) }

    // Promise: After unsealing answers `Ok` the slot is unsealed, synced; until then, over a synced body, unsealed or sealed over
    // that body; no sector but the gate changes in any image.
    // Refuses: unseal_that_seals.
    ensures writes { CallWrites (λ k. k ≡ slot + 1) D.state disk.old disk.new DiskFault.Device result }
    ensures images { TurnsGate slot (D.state disk.old) (D.state disk.new) }
    ensures written { IsTrue (D.state disk.old).honest → IsOk result → sector_at (D.state disk.new).contents (slot + 1) ≡ unsealed_gate }
    ensures unsealed { IsTrue (D.state disk.old).honest → IsOk result → slot_at (D.state disk.new).contents slot ≡ None }
    ensures synced { IsTrue (D.state disk.old).honest → IsOk result
        → AllSynced (D.state disk.new) }
{
    write_synced(disk, slot + 1, &[0; 512])
}

/// Writes the body of a slot that is unsealed, in two device calls.
pub fn fill<D: SectorDisk>(disk: &mut D, slot: u64, body: &Sector) -> Result<(), DiskFault>
    requires on_disk { HasSlot slot (D.state disk.old) }

    // Promise: Filling an unsealed slot leaves it unsealed in every image since the start; after `Ok` the body is the one handed
    // in, synced; no other sector changes in any image.
    // Refuses: fill_writes_the_gate.
    // Promise: `Device` comes only where the disk's count of failures rose in the call or stands at its greatest value, any other
    // answer leaves the count; no other fault of the disk comes.
    // Also: seal, unseal, unseal_all, store.
    // Refuses: device_fault_without_failure.
    ensures writes { CallWrites (λ k. k ≡ slot) D.state disk.old disk.new DiskFault.Device result }

    // An unsealed slot stays unsealed.
    ensures images { IsTrue (D.state disk.old).honest
        → ((d : Image) → IsImage (D.state disk.old) d → slot_at d slot ≡ None)
        → Each (D.state disk.old) (D.state disk.new) (λ c. slot_at c slot ≡ None) }

    ensures written { IsTrue (D.state disk.old).honest → IsOk result
        → sector_at (D.state disk.new).contents slot ≡ body.now }
    ensures synced { IsTrue (D.state disk.old).honest → IsOk result
        → AllSynced (D.state disk.new) }
{
    write_synced(disk, slot, body)
}

/// Seals a slot over the body that was filled in, in two device calls.
pub fn seal<D: SectorDisk>(disk: &mut D, slot: u64) -> Result<(), DiskFault>
    requires on_disk { HasSlot slot (D.state disk.old) }

    // Promise: Sealing a synced body: in every image since the start unsealed or sealed over that body; after `Ok` sealed over it,
    // synced; no sector but the gate changes in any image.
    // Refuses: seal_before_its_sync.
    ensures writes { CallWrites (λ k. k ≡ slot + 1) D.state disk.old disk.new DiskFault.Device result }
    ensures images { TurnsGate slot (D.state disk.old) (D.state disk.new) }
    ensures written { IsTrue (D.state disk.old).honest → IsOk result → sector_at (D.state disk.new).contents (slot + 1) ≡ sealed_gate }
    ensures sealed { IsTrue (D.state disk.old).honest → IsOk result
        → slot_at (D.state disk.new).contents slot ≡ Some (sector_at (D.state disk.old).contents slot) }
    ensures synced { IsTrue (D.state disk.old).honest → IsOk result
        → AllSynced (D.state disk.new) }
{
    write_synced(disk, slot + 1, sealed_gate_bytes())
}

/// The body of a slot that reads as sealed. Reads the gate, and the body only where it is sealed.
pub fn look<D: SectorDisk>(disk: &mut D, slot: u64) -> Result<Option<Sector>, DiskFault>
    requires on_disk { HasSlot slot (D.state disk.old) }

    // Promise: Looking at a slot gives what reads give: the body of a sealed slot, else nothing; no image changes.
    // Refuses: look_takes_any_gate.
    ensures counts { Counts (D.state disk.old) (D.state disk.new)
        (IsErrOf result DiskFault.Device) (IsOk result) }
    ensures in_range { IsErrOf result DiskFault.OutOfRange → ⊥ }
    ensures content { IsTrue (D.state disk.old).honest
        → IfOk result (λ content. content ≡ slot_at (D.state disk.old).contents slot) }
    ensures run { IsTrue (D.state disk.old).honest
        → Run nothing (D.state disk.old) (D.state disk.new) }
    ensures synced { IsTrue (D.state disk.old).honest
        → (k : ℕ) → (D.state disk.old).synced k → (D.state disk.new).synced k }
{
    let mut sector = [0; 512];
    disk.read(slot + 1, &mut sector)?;
    if sector[0] != SEALED {
        return Ok(None);
    }
    disk.read(slot, &mut sector)?;
    Ok(Some(sector))
}

// Writes a sector and makes sure of it.
fn write_synced<D: SectorDisk>(disk: &mut D, at: u64, sector: &Sector) -> Result<(), DiskFault>
    requires { at < (D.state disk.old).sectors }
    ensures writes { CallWrites (λ k. k ≡ at) D.state disk.old disk.new DiskFault.Device result }
    ensures written { IsTrue (D.state disk.old).honest → IsOk result
        → sector_at (D.state disk.new).contents at ≡ sector.now }
    ensures synced { IsTrue (D.state disk.old).honest → IsOk result
        → AllSynced (D.state disk.new) }
{
    disk.write(at, sector)?;
    disk.sync()
}

#[tactic(auto, unfolding(crate::specs::Slot::sealed_gate))]
pub(crate) fn sealed_gate_bytes() -> &'static Sector
    ensures { result.now ≡ sealed_gate }
{
    &SEALED_GATE
}
