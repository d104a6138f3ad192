// The cell: two slots, of which the one with the greater value counts.
ghost use Rattle.std.specs.Prelude.{◌≡◌, ◌⊎◌, ◌<◌, ◌+◌, ◌-◌, ◌^◌, ℕ, IsTrue, IsFalse, IsOk, IfOk, IfErr, IsSome, IsErrOf, Some, None, true, false};
ghost use Rattle.sector_disk.specs.Disk.{Image, Counts, AllSynced};
ghost use Rattle.sector_disk.specs.Run.{Run, Each};
ghost use Rattle.slot_gate.specs.Slot.{slot_at, InSlot};
ghost use Rattle.safe_cell.specs.Answered.{AnswersOr, FaultLeaves};
ghost use Rattle.safe_cell.specs.Cell.{cell_at, AllHave};
ghost use Rattle.safe_cell.specs.Mounted.{CellState, IsCellAt, IsRead, Stands, AllStand, raised, raised_to};
ghost use Rattle.safe_cell.specs.Raising.{broken_refusal, raise_refusal};

use crate::body::body_for;
use crate::fault::CellFault;
use sector_disk::SectorDisk;
use slot_gate::store;
use std::marker::Model;

/// A mounted cell. It knows the value and which slots are sealed, so a raise reads nothing; the
/// disk is lent to each call.
#[derive(Debug, Drop)]
pub struct SafeCell {
    present: u64,
    spare: u64,
    spare_sealed: bool,
    value: u64,
    broken: bool,
}

impl Model for SafeCell {
    ghost use Rattle.std.specs.Prelude.{◌<◌, ◌+◌, ◌^◌};
    ghost use Rattle.safe_cell.specs.Mounted.{CellState};

    ghost Value = { CellState };

    ghost view = { λ a. record {
      present = a.present;
      spare = a.spare;
      spare_sealed = a.spare_sealed;
      value = a.value;
      broken = a.broken;
    } };

    ghost invariant = { λ a. (a.present + 1 < 2 ^ 64) × (a.spare + 1 < 2 ^ 64) };
}

impl SafeCell {
    // The cell at a sector, by the values of its sealed slots: the first one counts where both are
    // equal.
    pub(crate) fn of_values(
        at: u64,
        first: Option<u64>,
        second: Option<u64>,
    ) -> Result<SafeCell, CellFault>
        requires { at + 3 < 2 ^ 64 }
        ensures none { IfErr result (λ fault. (fault ≡ CellFault.NotFormatted) × (first ≡ None) × (second ≡ None)) }
        ensures unsealed { first ≡ None → second ≡ None → IsErrOf result CellFault.NotFormatted }
        ensures place { IfOk result (λ cell. IsCellAt at cell × IsFalse cell.broken) }
        ensures stands { (c : Image)
            → IsRead (slot_at c at) first → IsRead (slot_at c (at + 2)) second
            → IfOk result (λ cell. Stands cell c) }
        ensures before { IfOk result (λ cell. first ≡ Some cell.value → cell.present ≡ at) }
    {
        let (present, spare, spare_sealed, value) = match (first, second) {
            (None, None) => return Err(CellFault::NotFormatted),
            (Some(first), None) => (at, at + 2, false, first),
            (None, Some(second)) => (at + 2, at, false, second),
            (Some(first), Some(second)) if first < second => (at + 2, at, true, second),
            (Some(first), Some(_)) => (at, at + 2, true, first),
        };
        Ok(SafeCell {
            present,
            spare,
            spare_sealed,
            value,
            broken: false,
        })
    }

    pub fn value(&self) -> u64
        // Promise: The value of a cell is the one that contracts see.
        // Refuses: value_of_the_slot.
        ensures { result ≡ self.now.value }
    {
        self.value
    }

    /// Adds one to the value and gives it. Works in the slot that doesn't count: four device calls
    /// where that is unsealed, else six. Refused in the order `Broken`, `Exhausted`, `Device`, the
    /// first two with no device call.
    pub fn raise<D: SectorDisk>(&mut self, disk: &mut D) -> Result<u64, CellFault>
        requires { self.old.spare + 1 < (D.state disk.old).sectors }

        ensures counts { Counts (D.state disk.old) (D.state disk.new)
            (IsErrOf result CellFault.Device) (IsErrOf result CellFault.Device → ⊥) }

        // Which answer comes when, and what it leaves.
        // Promise: A raise is refused in the order Broken, Exhausted, Device; the first two leave disk and cell as they were, the
        // third leaves the cell broken.
        // Also: refused, device.
        // Refuses: device_fault_without_failure.
        ensures answers { AnswersOr CellFault.Device (raise_refusal self.old) result }
        ensures refused { IsSome (raise_refusal self.old)
            → (disk.new ≡ disk.old) × (self.new ≡ self.old) }
        ensures device { IsErrOf result CellFault.Device
            → self.new ≡ record self.old { broken = true } }
        ensures ok { IfOk result (λ v. (v ≡ self.old.value + 1) × (self.new ≡ raised self.old)) }

        // No sector outside the spare slot changes in any image.
        // Promise: No sector outside the spare slot changes in any image.
        // Refuses: sealed_before_body_synced.
        ensures run { IsTrue (D.state disk.old).honest
            → Run (InSlot self.old.spare) (D.state disk.old) (D.state disk.new) }

        // Each image since the start has the value from before or the next one.
        // Promise: A raise leaves for every image since its start the value from before or the next one.
        // Refuses: sealed_before_body_synced, unsealed_again.
        ensures images { (at : ℕ) → IsTrue (D.state disk.old).honest
            → IsCellAt at self.old → AllStand self.old (D.state disk.old)
            → Each (D.state disk.old) (D.state disk.new) (λ c. (cell_at c at ≡ Some self.old.value)
            ⊎ (cell_at c at ≡ Some (self.old.value + 1))) }

        // After `Ok` there is the next one alone, as the cell knows it, and nothing is unsynced.
        // Promise: After `Ok` every image has the next value, which is the answer, and nothing is unsynced.
        // Also: synced, ok.
        // Refuses: raised_before_last_sync.
        ensures after { (at : ℕ) → IsTrue (D.state disk.old).honest
            → IsCellAt at self.old → AllStand self.old (D.state disk.old) → IsOk result
            → AllHave at (self.old.value + 1) (D.state disk.new) × AllStand self.new (D.state disk.new) }
        ensures synced { IsTrue (D.state disk.old).honest → IsOk result
            → AllSynced (D.state disk.new) }
    {
        if self.broken {
            return Err(CellFault::Broken);
        }
        if self.value == u64::MAX {
            return Err(CellFault::Exhausted);
        }
        let next = self.value + 1;
        self.raise_to(disk, next)?;
        Ok(next)
    }

    /// Makes the value this one, which is greater. Works in the slot that doesn't count: four device
    /// calls where that is unsealed, else six. Refused in the order `Broken`, `Device`, the first with
    /// no device call.
    pub fn raise_to<D: SectorDisk>(&mut self, disk: &mut D, value: u64) -> Result<(), CellFault>
        requires on_disk { self.old.spare + 1 < (D.state disk.old).sectors }
        requires greater { self.old.value < value }

        ensures counts { Counts (D.state disk.old) (D.state disk.new)
            (IsErrOf result CellFault.Device) (IsErrOf result CellFault.Device → ⊥) }

        // Which answer comes when, and what it leaves.
        // Promise: A raise to a greater value is refused in the order Broken, Device; the first leaves disk and cell as they were, the
        // second leaves the cell broken.
        // Also: faults.
        // Refuses: device_fault_of_a_greater_value.
        ensures answers { AnswersOr CellFault.Device (broken_refusal self.old) result }
        ensures faults { FaultLeaves CellFault.Device (broken_refusal self.old) result disk.old disk.new self.old self.new
            (self.new ≡ record self.old { broken = true }) }
        ensures ok { IsOk result → self.new ≡ raised_to value self.old }

        // No sector outside the spare slot changes in any image.
        ensures run { IsTrue (D.state disk.old).honest
            → Run (InSlot self.old.spare) (D.state disk.old) (D.state disk.new) }

        // Each image since the start has the value from before or the new one.
        // Promise: A raise to a greater value leaves for every image since its start the value from before or that one.
        // Refuses: sealed_before_body_synced, unsealed_again, raised_past_the_value.
        ensures images { (at : ℕ) → IsTrue (D.state disk.old).honest
            → IsCellAt at self.old → AllStand self.old (D.state disk.old)
            → Each (D.state disk.old) (D.state disk.new) (λ c. (cell_at c at ≡ Some self.old.value)
            ⊎ (cell_at c at ≡ Some value)) }

        // After `Ok` there is the new one alone, as the cell knows it, and nothing is unsynced.
        // Promise: After `Ok` every image has the value that was asked for, and nothing is unsynced.
        // Also: synced, ok.
        // Refuses: raised_before_last_sync, raised_past_the_value.
        ensures after { (at : ℕ) → IsTrue (D.state disk.old).honest
            → IsCellAt at self.old → AllStand self.old (D.state disk.old) → IsOk result
            → AllHave at value (D.state disk.new) × AllStand self.new (D.state disk.new) }
        ensures synced { IsTrue (D.state disk.old).honest → IsOk result
            → AllSynced (D.state disk.new) }
    {
        if self.broken {
            return Err(CellFault::Broken);
        }
        if store(disk, self.spare, self.spare_sealed, &body_for(value)).is_err() {
            self.broken = true;
            return Err(CellFault::Device);
        }
        *self = SafeCell {
            present: self.spare,
            spare: self.present,
            spare_sealed: true,
            value,
            broken: false,
        };
        Ok(())
    }
}
