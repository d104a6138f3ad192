// Slots that nobody reads yet: their calls, with each sync left to the next one.
ghost use Rattle.std.specs.Prelude.{◌≡◌, ◌<◌, ◌+◌, IsTrue, IsOk, Some, None};
ghost use Rattle.sector_disk.specs.Disk.{sector_at};
ghost use Rattle.slot_gate.specs.Slot.{HasSlot, slot_at, sealed_gate, unsealed_gate};
ghost use Rattle.slot_gate.specs.Writing.{CallWrites};

use crate::slot::sealed_gate_bytes;
use sector_disk::{DiskFault, Sector, SectorDisk};

/// Opens the gate of a slot, in two device calls. Until a sync a crash may leave the slot sealed, over whatever its body holds.
#[tactic(auto, unfolding(crate::specs::Slot::unsealed_gate))]
pub fn unseal_later<D: SectorDisk>(disk: &mut D, slot: u64) -> Result<(), DiskFault>
    requires on_disk { HasSlot slot (D.state disk.old) }

    // Promise: Unsealing, filling and sealing whose sync is left to the next one: after `Ok` reads give the slot unsealed, the body handed
    // in, the slot sealed over its body; no other sector changes in any image, and of this one no image is known until a sync.
    // Also: fill_later, seal_later.
    // Refuses: unseal_left_that_seals, fill_left_writes_the_gate, seal_left_out.
    ensures writes { CallWrites (λ k. k ≡ slot + 1) D.state disk.old disk.new DiskFault.Device result }
    ensures unsealed { IsTrue (D.state disk.old).honest → IsOk result → slot_at (D.state disk.new).contents slot ≡ None }
{
    write_left(disk, slot + 1, &[0; 512])
}

/// Writes the body of a slot, in two device calls.
pub fn fill_later<D: SectorDisk>(disk: &mut D, slot: u64, body: &Sector) -> Result<(), DiskFault>
    requires on_disk { HasSlot slot (D.state disk.old) }
    ensures writes { CallWrites (λ k. k ≡ slot) D.state disk.old disk.new DiskFault.Device result }
    ensures written { IsTrue (D.state disk.old).honest → IsOk result
        → sector_at (D.state disk.new).contents slot ≡ body.now }
{
    write_left(disk, slot, body)
}

/// Seals a slot over the body that was filled in, in two device calls. Until a sync a crash may leave it sealed over a torn body.
pub fn seal_later<D: SectorDisk>(disk: &mut D, slot: u64) -> Result<(), DiskFault>
    requires on_disk { HasSlot slot (D.state disk.old) }
    ensures writes { CallWrites (λ k. k ≡ slot + 1) D.state disk.old disk.new DiskFault.Device result }
    ensures sealed { IsTrue (D.state disk.old).honest → IsOk result
        → slot_at (D.state disk.new).contents slot ≡ Some (sector_at (D.state disk.old).contents slot) }
{
    write_left(disk, slot + 1, sealed_gate_bytes())
}

// Writes a sector, and leaves its sync to the next one.
fn write_left<D: SectorDisk>(disk: &mut D, at: u64, sector: &Sector) -> Result<(), DiskFault>
    requires { at < (D.state disk.old).sectors }
    ensures writes { CallWrites (λ k. k ≡ at) D.state disk.old disk.new DiskFault.Device result }
    ensures written { IsTrue (D.state disk.old).honest → IsOk result
        → sector_at (D.state disk.new).contents at ≡ sector.now }
{
    disk.write(at, sector)?;
    disk.sync_later()
}
