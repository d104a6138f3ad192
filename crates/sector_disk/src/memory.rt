// A disk in memory that fails and crashes on demand.
ghost use Rattle.std.specs.Prelude.{◌≡◌, ◌<◌, ◌≤◌, ◌⊎◌, ◌↔◌, ◌∷◌, [], ◌++◌, length, set, get_or, replicate, IsOk, IsTrue, IsFalse, IsErrOf, IfOk, OnErr, Vec, is_ok, false, true, Some, Option, ℕ};
ghost use Rattle.sector_disk.specs.Disk.{Counts, Touches, AllSynced, IsImage, nothing, sector_at};
ghost use Rattle.sector_disk.specs.Memory.{Memory, IsSync, state_of, passes, spent, risen, blank, all_synced, is_unsynced};
ghost use Rattle.sector_disk.specs.Crash.{IsCrashed, torn_at};
ghost use Rattle.sector_disk.specs.Moments.{laws};
ghost use Rattle.sector_disk.specs.Undo.{AddsNote, IsNoted, EndsTime, EndsNothing, undone};
ghost use Rattle.sector_disk.specs.declared.fault.DiskFault.TheVariants.{Device, OutOfRange};

use crate::disk::SectorDisk;
use crate::fault::DiskFault;
use crate::notes::Notes;
use crate::overwritten::{note, note_unsynced, undo};
use crate::sector::Sector;
use crate::sectors::Sectors;
use std::alloc::{AllocError, Global};
use std::marker::Model;

/// A disk in memory. It is always honest.
///
/// It keeps what its calls changed since it was made, last crashed or last forgot, so that a proof
/// knows of each moment since then what a crash might have left. A call that finds no memory for
/// that fails as `Device`.
#[derive(Debug, Drop)]
pub struct MemDisk {
    alloc: Global,
    sectors: Sectors,
    // Which sectors a write took since the last sync, done or failed.
    unsynced: Vec<bool>,
    // What the writes took the place of, since it was made, last crashed or last forgot.
    notes: Notes,
    // Whether a write since the last sync failed: then not every unsynced sector has a note.
    torn: bool,
    failures: u64,
    // How many calls still pass, where it is armed.
    left: Option<u64>,
}

impl Model for MemDisk {
    ghost use Rattle.sector_disk.specs.Memory.{Memory};

    ghost Value = { Memory };

    ghost use Rattle.sector_disk.specs.Inside.{memory_of, HasNotes};

    ghost view = { memory_of };

    ghost invariant = { HasNotes };
}

impl MemDisk {
    /// A disk of zeros, on which nothing is unsynced.
    pub fn new(alloc: Global, sectors: u64) -> Result<MemDisk, AllocError>
        // Promise: A new disk in memory is all zeros, of the length asked for, synced, with no failure and not armed; a copy holds
        // what reads of its disk give, synced, not armed, and has failed as often.
        // Also: MemDisk::copy.
        // Refuses: ones_for_zeros, half_the_sectors, copy_of_zeros, copy_never_failed.
        ensures { IfOk result (λ disk. disk ≡ blank sectors) }
    {
        let zeros = Sectors::zeros(alloc, sectors as usize)?;
        MemDisk::over(alloc, zeros, 0)
    }

    /// A disk with what this one holds, on which nothing is unsynced. It isn't armed, and has failed as
    /// often.
    pub fn copy(&self, alloc: Global) -> Result<MemDisk, AllocError>
        ensures { IfOk result (λ copy. copy ≡ all_synced self.now.contents self.now.failures) }
    {
        let copy = self.sectors.copy(alloc)?;
        MemDisk::over(alloc, copy, self.failures)
    }

    // A disk of these sectors, on which nothing is unsynced.
    fn over(alloc: Global, sectors: Sectors, failures: u64) -> Result<MemDisk, AllocError>
        ensures { IfOk result (λ disk. disk ≡ all_synced sectors failures) }
    {
        let unsynced = vec![in alloc; false; sectors.len()]?;
        Ok(MemDisk {
            alloc,
            sectors,
            unsynced,
            notes: Notes::new(alloc),
            torn: false,
            failures,
            left: None,
        })
    }

    /// Lets so many more calls of `read`, `write` and `sync` pass, and fails all later ones, until
    /// it is armed anew, disarmed or crashes. A call that is out of range isn't counted.
    pub fn arm(&mut self, calls: u64)
        // Promise: `arm(k)` changes nothing but the number of calls that are left; each read, write and sync in range takes one off
        // it, and a call with none left fails as `Device`, as does each later one; `armed` answers that number.
        // Also: MemDisk::armed, MemDisk::read, MemDisk::write, MemDisk::sync.
        // Refuses: one_call_too_many, armed_call_too_late.
        ensures { self.new ≡ record self.old { left = Some calls } }
    {
        self.left = Some(calls);
    }

    /// Lets all later calls pass, until it is armed anew.
    pub fn disarm(&mut self)
        ensures { self.new ≡ record self.old { left = None } }
    {
        let _ = self.left.take();
    }

    /// How many calls of `read`, `write` and `sync` still pass. None where it isn't armed.
    pub fn armed(&self) -> Option<u64>
        ensures { result ≡ self.now.left }
    {
        self.left
    }

    /// Forgets the moments before this one: no crash takes back a write that was synced, so
    /// its note serves a proof alone. What reads give and what a crash may leave stay.
    pub fn forget(&mut self)
        // Promise: `forget` changes nothing but that no earlier moment is known, and `shrink_to_fit` nothing at all.
        // Also: MemDisk::shrink_to_fit, node_store::NodeStore::forget.
        // Refuses: forget_does_nothing, unsynced_writes_forgotten, notes_shrunk_away.
        ensures { self.new ≡ record self.old { spans = [] } }
    {
        self.notes.forget();
    }

    /// Gives back the memory that its notes don't need: after a format that is forgotten, all that
    /// the notes of its writes took. Nothing else changes.
    pub fn shrink_to_fit(&mut self)
        ensures { self.new ≡ self.old }
    {
        self.notes.shrink_to_fit();
    }

    /// Stops the disk here and starts it again. The unsynced sectors, in rising order, take the
    /// bytes of `fill`, 512 each; where it ends, what the last sync left stays. Bytes too many
    /// aren't used. It takes no memory.
    pub fn crash(&mut self, fill: &[u8])
        // Promise: `crash(fill)` leaves exactly the stated image; that image is one of those that a crash might have left; then
        // nothing is unsynced, it isn't armed, no earlier moment is known, and the count of failures is as before.
        // Also: left, anew.
        // Refuses: crash_changes_synced_sector, fill_of_one_sector, fill_ends_in_zeros, crash_keeps_flags,
        // still_armed_after_a_crash, crash_after_a_failed_write_fills_nothing.
        ensures image { IsCrashed self.old fill.now self.new.contents }
        ensures left { IsImage (state_of self.old) self.new.contents }
        // Nothing is unsynced, no earlier moment is known, and it isn't armed.
        ensures anew { self.new ≡ all_synced self.new.contents self.old.failures }
    {
        let synced = is_synced(&self.notes, self.torn);
        undo(&mut self.sectors, &mut self.notes);
        tear(&mut self.sectors, &self.unsynced, synced, fill);
        mark_synced(&mut self.unsynced, synced);
        self.notes.clear();
        self.torn = false;
        self.left = None;
    }
}

impl SectorDisk for MemDisk {
    // Promise: `MemDisk` is always honest.
    ghost state = { state_of };

    ghost laws = { λ disk honest. laws disk };

    // Promise: `sectors` and `failures` answer what the contracts speak of.
    // Also: MemDisk::failures.
    // Refuses: no_sectors_after_a_failure, failures_uncounted.
    fn sectors(&self) -> u64 {
        self.sectors.len() as u64
    }

    fn failures(&self) -> u64 {
        self.failures
    }

    fn read(&mut self, at: u64, into: &mut Sector) -> Result<(), DiskFault>
        ensures counts { Counts (state_of self.old) (state_of self.new) (IsErrOf result Device) (IsOk result) }
        ensures refused { IsErrOf result OutOfRange ↔ (length self.old.contents ≤ at) }
        // Promise: A call out of range isn't counted.
        // Also: MemDisk::write.
        // Refuses: out_of_range_counted.
        ensures unchanged { IsErrOf result OutOfRange → self.new ≡ self.old }
        ensures touches { IsTrue true → Touches nothing (state_of self.old) (state_of self.new) }
        ensures gives { IsTrue true → IsOk result → into.new ≡ sector_at self.old.contents at }

        // Where it is armed, exactly the calls that are left pass.
        ensures armed { at < length self.old.contents → (IsErrOf result Device ↔ IsFalse (passes self.old.left)) }
        ensures ok { IsOk result → self.new ≡ record self.old { left = spent self.old.left } }
        // Promise: The count of failures rises by one with each `Device` and stays at its greatest value.
        // Also: MemDisk::write, MemDisk::sync.
        // Refuses: device_fault_without_failure, failures_start_over.
        ensures failed { IsErrOf result Device
            → self.new ≡ record self.old { failures = risen self.old.failures; left = spent self.old.left } }
    {
        if at >= self.sectors.len() as u64 {
            return Err(DiskFault::OutOfRange);
        }
        if !spend(&mut self.left) {
            return failed(&mut self.failures);
        }
        self.sectors.read(at as usize, into);
        Ok(())
    }

    fn write(&mut self, at: u64, from: &Sector) -> Result<(), DiskFault>
        // Promise: A write that fails, armed or for want of memory, leaves what reads give and makes its sector unsynced; a sync
        // that fails changes nothing but the counts.
        // Also: MemDisk::sync.
        // Refuses: failed_write_is_forgotten, failed_write_changes_sector, failed_sync_makes_sure.
        ensures counts { Counts (state_of self.old) (state_of self.new) (IsErrOf result Device) (IsOk result) }
        ensures refused { IsErrOf result OutOfRange ↔ (length self.old.contents ≤ at) }
        ensures unchanged { IsErrOf result OutOfRange → self.new ≡ self.old }
        ensures touches { IsTrue true → Touches (λ k. k ≡ at) (state_of self.old) (state_of self.new) }
        ensures gives { IsTrue true → IsOk result → sector_at self.new.contents at ≡ from.now }

        // Where it is armed, no call passes but those that are left.
        ensures armed { IsOk result → IsTrue (passes self.old.left) }
        ensures ok { IsOk result → self.new ≡ record self.old {
          contents = set self.old.contents at from.now;
          unsynced = set self.old.unsynced at true;
          left = spent self.old.left;
        } }

        // A write that fails leaves what reads give, and the sector is unsynced.
        ensures failed { IsErrOf result Device → self.new ≡ record self.old {
          unsynced = set self.old.unsynced at true;
          failures = risen self.old.failures;
          left = spent self.old.left;
        } }
    {
        if self.sectors.len() as u64 <= at {
            return Err(DiskFault::OutOfRange);
        }
        let at = at as usize;
        self.unsynced[at] = true;
        if !may_write(
            &mut self.left,
            self.alloc,
            &self.sectors,
            &mut self.notes,
            at,
        ) {
            self.torn = true;
            return failed(&mut self.failures);
        }
        self.sectors.write(at, from);
        Ok(())
    }

    fn sync(&mut self) -> Result<(), DiskFault>
        ensures counts { Counts (state_of self.old) (state_of self.new) (IsErrOf result Device) (IsOk result) }
        ensures refused { IsErrOf result OutOfRange ↔ ⊥ }
        ensures touches { IsTrue true → Touches nothing (state_of self.old) (state_of self.new) }
        ensures syncs_all { IsTrue true → IsOk result → AllSynced (state_of self.new) }

        // Promise: With calls left a read passes, and a sync where nothing is unsynced; a write or another sync fails only for want
        // of memory.
        // Also: MemDisk::read, MemDisk::write.
        // Refuses: sync_of_a_great_disk_fails.
        ensures sync { IsSync self.old self.new result }
    {
        let passes = spend(&mut self.left);
        if !passes {
            return failed(&mut self.failures);
        }
        if end_time(
            self.alloc,
            &self.sectors,
            &mut self.unsynced,
            &mut self.notes,
            &mut self.torn,
        )
        .is_err()
        {
            return failed(&mut self.failures);
        }
        Ok(())
    }

    /// Syncs at once.
    fn sync_later(&mut self) -> Result<(), DiskFault>
        ensures counts { Counts (state_of self.old) (state_of self.new) (IsErrOf result Device) (IsOk result) }
        ensures refused { IsErrOf result OutOfRange ↔ ⊥ }
        ensures touches { IsTrue true → Touches nothing (state_of self.old) (state_of self.new) }

        // It is a sync, counted as one.
        ensures syncs_all { IsTrue true → IsOk result → AllSynced (state_of self.new) }
        // Promise: A disk in memory makes a sync that may be left at once, and it is one call.
        // Refuses: left_sync_uncounted, left_sync_not_made.
        ensures sync { IsSync self.old self.new result }
    {
        self.sync()
    }
}

// One call more: whether it passes.
fn spend(left: &mut Option<u64>) -> bool
    ensures passes { result ≡ passes left.old }
    ensures spent { left.new ≡ spent left.old }
{
    match left {
        None => true,
        Some(calls) => {
            let more = *calls > 0;
            *calls = calls.saturating_sub(1);
            more
        }
    }
}

// Counts a call that failed.
fn failed(failures: &mut u64) -> Result<(), DiskFault>
    ensures counted { failures.new ≡ risen failures.old }
    ensures device { result ≡ Err Device }
{
    *failures = failures.saturating_add(1);
    Err(DiskFault::Device)
}

// Whether a write goes through: the call passes, and there is memory for a note of the sector.
fn may_write(
    left: &mut Option<u64>,
    alloc: Global,
    sectors: &Sectors,
    notes: &mut Notes,
    at: usize,
) -> bool
    requires { at < length sectors.now }
    ensures spent { left.new ≡ spent left.old }
    ensures passes { IsTrue result → IsTrue (passes left.old) }
    ensures noted { IsTrue result → AddsNote sectors.now at notes.old.since notes.new.since }
    ensures refused { IsFalse result → notes.new.since ≡ notes.old.since }
    ensures times { notes.new.times ≡ notes.old.times }
{
    if !spend(left) {
        return false;
    }
    note(alloc, sectors, notes, at).is_ok()
}

// Ends the time since the last sync, if there is memory for it.
fn end_time(
    alloc: Global,
    sectors: &Sectors,
    unsynced: &mut [bool],
    notes: &mut Notes,
    torn: &mut bool,
) -> Result<(), AllocError>
    requires { IsNoted sectors.now unsynced.old notes.old.since torn.old }
    ensures noted { IsNoted sectors.now unsynced.new notes.new.since torn.new }
    ensures idle { ((at : ℕ) → IsFalse (get_or unsynced.old at false)) → IsOk result }
    ensures synced { IsOk result → unsynced.new ≡ replicate (length unsynced.old) false }
    ensures begun { IsOk result → notes.new.since ≡ [] }
    ensures ended { IsOk result → EndsTime sectors.now unsynced.old notes.old.since notes.old.times notes.new.times
        ⊎ EndsNothing unsynced.old notes.old.times notes.new.times }
    ensures unsynced { OnErr result (unsynced.new ≡ unsynced.old) }
    ensures spans { OnErr result (notes.new.times ≡ notes.old.times) }
    ensures back { OnErr result (undone notes.new.since sectors.now ≡ undone notes.old.since sectors.now) }
{
    note_torn(alloc, sectors, unsynced, notes, torn)?;
    if notes.since().is_empty() {
        return Ok(());
    }
    notes.end(unsynced)
}

// Sees to it that each unsynced sector has a note.
fn note_torn(
    alloc: Global,
    sectors: &Sectors,
    unsynced: &[bool],
    notes: &mut Notes,
    torn: &mut bool,
) -> Result<(), AllocError>
    requires { IsNoted sectors.now unsynced.now notes.old.since torn.old }
    ensures noted { IsNoted sectors.now unsynced.now notes.new.since torn.new }
    ensures back { undone notes.new.since sectors.now ≡ undone notes.old.since sectors.now }
    ensures idle { ((at : ℕ) → IsFalse (get_or unsynced.now at false)) → IsOk result }
    ensures untorn { IsOk result → IsFalse torn.new }
    ensures times { notes.new.times ≡ notes.old.times }
{
    if !*torn {
        return Ok(());
    }
    note_unsynced(alloc, sectors, unsynced, notes)?;
    *torn = false;
    Ok(())
}

// Whether nothing was written since the last sync.
fn is_synced(notes: &Notes, torn: bool) -> bool
    ensures untorn { IsTrue result → IsFalse torn }
    ensures none { IsTrue result → notes.now.since ≡ [] }
{
    !torn && notes.since().is_empty()
}

// Clears the flags of the unsynced sectors. Where all are synced, it looks at none.
#[tactic(auto, using(crate::proofs::Calls::all_are_synced))]
fn mark_synced(unsynced: &mut Vec<bool>, synced: bool)
    requires { IsTrue synced → (at : ℕ) → IsFalse (get_or unsynced.old.items at false) }
    ensures { unsynced.new.items ≡ replicate (length unsynced.old.items) false }
{
    if !synced {
        unsynced.fill(false);
    }
}

// Writes a fill over the unsynced sectors, in rising order. Where all are synced, it looks at none.
fn tear(sectors: &mut Sectors, unsynced: &[bool], synced: bool, fill: &[u8])
    requires flags { length unsynced.now ≡ length sectors.old }
    requires synced { IsTrue synced → (at : ℕ) → IsFalse (get_or unsynced.now at false) }
    ensures size { length sectors.new ≡ length sectors.old }
    ensures torn { (at : ℕ) → at < length sectors.old
        → sector_at sectors.new at ≡ torn_at unsynced.now fill.now at (sector_at sectors.old at) }
{
    if synced {
        return;
    }
    let mut rest = fill;
    for at in 0..sectors.len() {
        if !unsynced[at] {
            continue;
        }
        rest = sectors.fill_from(at, rest);
    }
}
