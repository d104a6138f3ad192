//! The commands `inspect` and `export`.

ghost use Rattle.std.specs.Prelude.{◌≡◌, ◌≤◌, ◌+◌, IfOk, length};
ghost use Rattle.console_text.specs.Ends.{Prints, printout_of};
ghost use Rattle.node_store.specs.Store.{slots_for};
ghost use Rattle.store_console.specs.Held.{journal_of};
ghost use Rattle.store_console.specs.declared.inspecting.Shown.TheVariants.{All, Verified};
ghost use Rattle.store_console.specs.Printed.{IsShown, export_text, held_text};

use crate::copying::disk_of;
use crate::finding_text::with_findings;
use crate::found::Owner;
use crate::found_text::{described, jobs_alone, too_small};
use crate::looking::{counter, journal, owner_of, used};
use crate::verifying::findings;
use console_text::{ExitKind, Output, Source, outcome_of, print};
use node_store::slots_of;
use sector_disk::{MemDisk, SectorDisk};
use std::alloc::{AllocError, Global};
use std::io::{Read, Write};

/// What is printed of a file.
#[derive(Clone, Copy, Debug, PartialEq, Eq)]
pub enum Shown {
    /// Whose it is, the count of groups, the next id, the jobs by queue and the slots that are used, or what is damaged, and where.
    All,
    /// All that, and then what no crash leaves, and what may tell of an older state.
    Verified,
    /// Its jobs, a line each.
    Jobs,
}

/// Reads the bytes of a file, and prints what it holds. It ends well where nothing of that is damaged or missing.
pub fn inspect<R: Read, W: Write>(
    alloc: Global,
    shown: Shown,
    file: &mut Source<R>,
    output: &mut W,
) -> ExitKind
    // Promise: What `inspect` prints is a stated function of the bytes of a file: whose it is, its counts, its jobs by queue, or
    // the sector of the first thing that isn't allowed.
    // Also: reads.
    // Refuses: any_label_taken_as_a_nodes, damaged_counter_shown_as_missing, every_slot_used, first_sector_left_out,
    // jobs_of_other_queues_counted, missing_counter_taken_as_good.
    // Promise: What `export` prints is a line for each job that the bytes of a file hold, or what is damaged.
    // Also: reads.
    // Refuses: damage_exported_as_no_jobs.
    // Promise: What `inspect --verify` prints behind that is a line for each finding of its definitions, and no other: numbers in the slots of
    // a cell that no raise leaves, the next number in a slot of the counter that isn't sealed, the first sealed slot behind the journal's
    // end, a greater next id of the other area, a job that stands differently there. It ends badly where one of them is broken, and not for
    // a hint.
    // Also: sound_is_silent.
    // Refuses: slots_compared_by_order, last_gate_not_looked_at, hint_told_as_broken, other_area_is_the_present_one,
    // number_not_skipped, sealed_slot_told_as_unsealed, any_greater_number_told.
    // Promise: The sectors of a file are read where its label says that they lie.
    // Refuses: spaced_file_read_as_packed.
    ensures prints { Prints (IsShown shown) (R.remaining file.old.reader) (W.contents output.old) (W.contents output.new) result }
    ensures reads { file.old.left ≤ file.new.left + 16777216 }
{
    let outcome = outcome_of(alloc, file, |bytes| shown_of(alloc, shown, &bytes));
    print(output, outcome)
}

/// What is printed of a file with these bytes.
fn shown_of(alloc: Global, shown: Shown, bytes: &[u8]) -> Result<Output, AllocError>
    ensures { IfOk result (λ printout. IsShown shown bytes.now (printout_of printout)) }
{
    let mut disk = disk_of(alloc, bytes)?;
    let sectors = disk.sectors();
    if sectors < 24 {
        return too_small(alloc, sectors);
    }
    match shown {
        Shown::All => inspection(alloc, owner_of(bytes), &mut disk),
        Shown::Verified => verification(alloc, owner_of(bytes), &mut disk),
        Shown::Jobs => exported(alloc, &mut disk),
    }
}

/// Whose a disk is, and what it holds.
fn inspection(alloc: Global, owner: Owner, disk: &mut MemDisk) -> Result<Output, AllocError>
    requires { 24 ≤ length disk.old.contents }
    ensures found { IfOk result (λ printout. printout_of printout ≡ held_text All owner disk.old.contents) }
    ensures kept { disk.new.contents ≡ disk.old.contents }
{
    let slots = slots_of(disk.sectors());
    let used = used(disk, slots)?;
    let counter = counter(disk)?;
    let journal = journal(alloc, disk, slots)?;
    described(alloc, owner, slots, used, counter, &journal)
}

/// The same, and what its bytes show of rot.
fn verification(alloc: Global, owner: Owner, disk: &mut MemDisk) -> Result<Output, AllocError>
    requires { 24 ≤ length disk.old.contents }
    ensures { IfOk result (λ printout. printout_of printout ≡ held_text Verified owner disk.old.contents) }
{
    let slots = slots_of(disk.sectors());
    let printout = inspection(alloc, owner, disk)?;
    let findings = findings(alloc, disk, slots)?;
    with_findings(printout, &findings)
}

/// The jobs of a disk.
fn exported(alloc: Global, disk: &mut MemDisk) -> Result<Output, AllocError>
    requires { 24 ≤ length disk.old.contents }
    ensures { IfOk result (λ printout. printout_of printout ≡ export_text (journal_of (slots_for (length disk.old.contents)) disk.old.contents)) }
{
    let slots = slots_of(disk.sectors());
    let journal = journal(alloc, disk, slots)?;
    jobs_alone(alloc, &journal)
}
