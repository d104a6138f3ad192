// A file made on its disk.
ghost use Rattle.std.specs.Prelude.{◌≡◌, ◌⊎◌, ◌≤◌, IsTrue, IsOk, None, Some};
ghost use Rattle.sector_disk.specs.Run.{Each};
ghost use Rattle.slot_gate.specs.Writing.{CallWrites};
ghost use Rattle.lease_file.specs.Kept.{HasNone, InFile, Lasts, kept, kept_in};

use crate::fault::LeaseFault;
use crate::mounting::{COUNT, KEEPS};
use sector_disk::SectorDisk;

/// Makes a file with this count on a disk that has none of its two cells, as a new one of zeros: the greatest time first, and then the count.
/// `Device` is the only fault.
pub fn format<D: SectorDisk>(disk: &mut D, first: u64) -> Result<(), LeaseFault>
    requires on_disk { 8 ≤ (D.state disk.old).sectors }
    ensures writes { CallWrites InFile D.state disk.old disk.new LeaseFault.Device result }

    // Promise: A file of leases that is made on a disk without one: each image since the start has nothing, or this count and no time for
    // which a grant was kept. After `Ok` each has these, and nothing is unsynced.
    // Also: lasts.
    // Refuses: another_count_formatted.
    ensures images { IsTrue (D.state disk.old).honest → HasNone (D.state disk.old)
        → Each (D.state disk.old) (D.state disk.new) (λ c. (kept_in c ≡ None) ⊎ (kept_in c ≡ Some (kept first 0))) }
    ensures lasts { IsTrue (D.state disk.old).honest → HasNone (D.state disk.old) → IsOk result
        → Lasts (kept first 0) (D.state disk.new) }
{
    safe_cell::begin(disk, KEEPS, 0).or(Err(LeaseFault::Device))?;
    safe_cell::begin(disk, COUNT, first).or(Err(LeaseFault::Device))
}
