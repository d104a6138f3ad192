//! A number that may have been given though the counter doesn't count it: a raise to it was cut off, or the write that sealed it was lost.

ghost use Rattle.std.specs.Prelude.{◌≡◌, ◌<◌, ◌≤◌, ◌+◌, ◌^◌, IfOk, IsTrue};
ghost use Rattle.slot_gate.specs.Slot.{slot_at};
ghost use Rattle.store_console.specs.Findings.{unsealed_at};
ghost use Rattle.store_console.specs.Held.{counter_of};
ghost use Rattle.store_console.specs.Unheard.{IsRead, has_unsealed_number};

use crate::found::Counter;
use crate::verifying::{number_in, unsealed_finding};
use safe_cell::CellFault;
use sector_disk::{DiskFault, SectorDisk};
use slot_gate::look;

/// Whether a slot of the counter that isn't sealed has the number that comes next. It is to be skipped then: some node may have heard of it.
pub fn has_unsealed_number<D: SectorDisk>(disk: &mut D) -> Result<bool, DiskFault>
    requires on_disk { 8 ≤ (D.state disk.old).sectors }
    // Promise: That a number may have been given though the counter doesn't count it is said of a disk exactly where `inspect --verify`
    // gives the hint.
    // Refuses: number_told_of_one_slot.
    ensures found { IsTrue (D.state disk.old).honest → IfOk result (λ found. found ≡ has_unsealed_number (D.state disk.old).contents) }
    ensures read { IsRead (D.state disk.old) (D.state disk.new) }
{
    let counter = counter(disk)?;
    let first = unsealed_at(disk, 0)?;
    let second = unsealed_at(disk, 2)?;
    Ok(unsealed_finding(counter, first).is_some() || unsealed_finding(counter, second).is_some())
}

/// The counter of a disk.
fn counter<D: SectorDisk>(disk: &mut D) -> Result<Counter, DiskFault>
    requires on_disk { 8 ≤ (D.state disk.old).sectors }
    ensures found { IsTrue (D.state disk.old).honest → IfOk result (λ counter. counter ≡ counter_of (D.state disk.old).contents) }
    ensures read { IsRead (D.state disk.old) (D.state disk.new) }
{
    match safe_cell::mount(disk, 0) {
        Ok(cell) => Ok(Counter::Value(cell.value())),
        Err(CellFault::NotFormatted) => Ok(Counter::Missing),
        Err(CellFault::Damaged(sector)) => Ok(Counter::Damaged(sector)),
        Err(_) => Err(DiskFault::Device),
    }
}

/// The number in a slot's body, where it isn't sealed.
fn unsealed_at<D: SectorDisk>(disk: &mut D, slot: u64) -> Result<Option<u64>, DiskFault>
    requires on_disk { slot + 2 ≤ (D.state disk.old).sectors }
    requires fits { slot + 2 < 2 ^ 64 }
    ensures found { IsTrue (D.state disk.old).honest → IfOk result (λ number. number ≡ unsealed_at (D.state disk.old).contents slot) }
    ensures read { IsRead (D.state disk.old) (D.state disk.new) }
{
    if look(disk, slot)?.is_some() {
        return Ok(None);
    }
    let mut body = [0; 512];
    disk.read(slot, &mut body)?;
    Ok(number_in(&body))
}
