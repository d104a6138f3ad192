// What it takes to undo the writes of a time between two syncs.
ghost use Rattle.std.specs.Prelude.{◌≡◌, ◌<◌, ◌⊎◌, ℕ, [], length, set, get_or, replicate, false, IsOk, IsTrue, IsFalse, OnErr};
ghost use Rattle.sector_disk.specs.Undo.{AddsNote, undone, was_of, has_touched};

use crate::notes::Notes;
use crate::sectors::Sectors;
use std::alloc::{AllocError, Global};

/// A sector that a write took, and the bytes that it held before.
#[derive(Debug, Drop)]
pub struct Overwritten {
    pub at: usize,
    /// Its first bytes.
    pub short: [u8; 32],
    /// All its bytes without zeros at the end, where there are others than zeros behind the first ones. Most sectors have none, and then
    /// it takes no memory.
    pub long: Vec<u8>,
}

// Notes what a sector holds, so that a write to it can be undone.
pub fn note(
    alloc: Global,
    sectors: &Sectors,
    notes: &mut Notes,
    at: usize,
) -> Result<(), AllocError>
    requires { at < length sectors.now }
    ensures ok { IsOk result → AddsNote sectors.now at notes.old.since notes.new.since }
    ensures err { OnErr result (notes.new ≡ notes.old) }
    ensures times { notes.new.times ≡ notes.old.times }
{
    let (short, long) = sectors.parts(at);
    let short = *short;
    let long = long.to_vec(alloc)?;
    notes.add(Overwritten { at, short, long })
}

// Notes each unsynced sector as it stands.
pub fn note_unsynced(
    alloc: Global,
    sectors: &Sectors,
    unsynced: &[bool],
    notes: &mut Notes,
) -> Result<(), AllocError>
    requires { length unsynced.now ≡ length sectors.now }
    ensures same { undone notes.new.since sectors.now ≡ undone notes.old.since sectors.now }
    ensures unsynced { (at : ℕ) → IsTrue (has_touched notes.new.since at)
        → IsTrue (has_touched notes.old.since at) ⊎ IsTrue (get_or unsynced.now at false) }
    ensures kept { (at : ℕ) → IsTrue (has_touched notes.old.since at) → IsTrue (has_touched notes.new.since at) }
    ensures times { notes.new.times ≡ notes.old.times }
    ensures idle { ((at : ℕ) → IsFalse (get_or unsynced.now at false)) → IsOk result }
    ensures all { IsOk result → (at : ℕ) → IsTrue (get_or unsynced.now at false) → IsTrue (has_touched notes.new.since at) }
{
    for at in 0..unsynced.len() {
        if !unsynced[at] {
            continue;
        }
        note(alloc, sectors, notes, at)?;
    }
    Ok(())
}

// Clears the flag of each sector with a note.
pub fn clear_noted(unsynced: &mut [bool], notes: &[Overwritten])
    requires { (at : ℕ) → IsTrue (get_or unsynced.old at false) → IsTrue (has_touched notes.now at) }
    ensures { unsynced.new ≡ replicate (length unsynced.old) false }
{
    for i in 0..notes.len() {
        let at = notes[i].at;
        if at < unsynced.len() {
            unsynced[at] = false;
        }
    }
}

// Takes a noted write back.
fn undo_one(sectors: &mut Sectors, note: Overwritten)
    ensures { sectors.new ≡ set sectors.old note.at (was_of note) }
{
    if note.at >= sectors.len() {
        return;
    }
    if note.long.is_empty() {
        sectors.restore(note.at, &note.short);
    } else {
        sectors.restore(note.at, &note.long);
    }
}

// Takes the noted writes back, the last one first.
pub fn undo(sectors: &mut Sectors, notes: &mut Notes)
    ensures back { sectors.new ≡ undone notes.old.since sectors.old }
    ensures none { notes.new.since ≡ [] }
{
    while let Some(note) = notes.pop() {
        undo_one(sectors, note);
    }
}
