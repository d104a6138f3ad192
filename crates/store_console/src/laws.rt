//! A law of the definitions: the contract of a function that does nothing.

ghost use Rattle.std.specs.Prelude.{◌≡◌, ◌↔◌, ℕ, None};
ghost use Rattle.sector_disk.specs.Disk.{Image};
ghost use Rattle.job_journal.specs.Areas.{IsPrefix, slots_from};
ghost use Rattle.store_console.specs.Findings.{sealed_behind};

/// No slot behind the journal's end is found sealed exactly where none is. No crash image of a sound disk has one, and each change of a journal
/// keeps its disk sound: so of what a crash leaves nothing is told that is broken in this way.
#[tactic(auto, using(crate::proofs::Silence::silent))]
pub fn sound_is_silent()
    ensures { (slots : ℕ) (image : Image) (first : ℕ) → (sealed_behind slots image first ≡ None) ↔ IsPrefix (slots_from image first slots) }
{}
