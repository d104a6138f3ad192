//! The command `export --salvage`.

ghost use Rattle.std.specs.Prelude.{◌≡◌, ◌≤◌, ◌+◌, ◌++◌, IfOk, OnOk, length, flat_map, None, ℕ};
ghost use Rattle.std.specs.Ordering.{nat_cmp};
ghost use Rattle.std.specs.BTreeMap.{IsOrdered, get};
ghost use Rattle.console_text.specs.Ends.{Prints, printout_of};
ghost use Rattle.node_store.specs.Store.{slots_for};
ghost use Rattle.store_console.specs.Salvaged.{AreSalvaged, IsSalvage, IsSalvagePrintout, IsSalvaged, area_reason, content_reason, contents_reasons, entry_line, journal_reason, put_behind, reasoned, salvage_why};
ghost use Rattle.store_console.specs.Held.{found_in};
ghost use Rattle.store_console.specs.Session.{Tells};

use crate::copying::disk_of;
use crate::explaining::push_apart;
use crate::found_text::too_small;
use crate::looking::journal;
use crate::salvage_reading::{contents, sure_area};
use crate::slot_content::{Said, SlotContent};
use console_text::{
    CommandError, Ended, Output, Source, outcome_of, print_explained, push_named_number, push_text,
    push_work,
};
use job_journal::JobJournal;
use job_model::Work;
use node_store::slots_of;
use sector_disk::{MemDisk, SectorDisk};
use std::alloc::{AllocError, Global};
use std::collections::BTreeMap;
use std::io::{Read, Write};

/// Reads the bytes of a file, and prints the jobs that can still be read of it, a line each, also where its journal can't be mounted. It ends well
/// where nothing that it reads is damaged; else it says what is, for standard error.
pub fn salvage<R: Read, W: Write>(alloc: Global, file: &mut Source<R>, output: &mut W) -> Ended
    // Promise: What `export --salvage` prints is a line for each job that the last Put or Keep of its id says which can be read in the present
    // area up to its last sealed slot, less those that a Done which can be read names; in both areas, where the area cell leaves a doubt.
    // Refuses: salvage_of_a_done_job, jobs_behind_the_damage_dropped, unsealed_slot_passed_over, older_area_salvaged.
    ensures prints { Prints IsSalvagePrintout (R.remaining file.old.reader) (W.contents output.old) (W.contents output.new) result.ending }
    // Promise: Standard error says of each slot that a mounting can't read whether it is lost, and why the journal can't be mounted; it ends
    // badly exactly where something is said.
    // Refuses: damage_taken_without_a_word.
    ensures told { Tells IsSalvage (R.remaining file.old.reader) (W.contents output.old) (W.contents output.new) result.ending result.why.items }
    ensures reads { file.old.left ≤ file.new.left + 16777216 }
{
    let outcome = outcome_of(alloc, file, |bytes| salvage_of(alloc, &bytes));
    print_explained(alloc, output, outcome)
}

/// What is printed of a file with these bytes, and what is said.
fn salvage_of(alloc: Global, bytes: &[u8]) -> Result<CommandError, AllocError>
    ensures { IfOk result (λ explained. IsSalvage bytes.now (printout_of explained.printout) explained.why.items) }
{
    let mut disk = disk_of(alloc, bytes)?;
    let sectors = disk.sectors();
    if sectors < 24 {
        return Ok(too_small(alloc, sectors)?.without_why(alloc));
    }
    salvaged(alloc, &mut disk)
}

/// The same of a disk with as many sectors as a store has.
fn salvaged(alloc: Global, disk: &mut MemDisk) -> Result<CommandError, AllocError>
    requires { 24 ≤ length disk.old.contents }
    ensures { IfOk result (λ explained. IsSalvaged (slots_for (length disk.old.contents)) disk.old.contents (printout_of explained.printout) explained.why.items) }
{
    let slots = slots_of(disk.sectors());
    let area = sure_area(disk, slots)?;
    let contents = contents(alloc, disk, slots, area)?;
    let mut why = Vec::new(alloc);
    push_journal_reason(&mut why, &journal(alloc, disk, slots)?)?;
    push_area_reason(&mut why, area)?;
    push_content_reasons(&mut why, &contents)?;
    let text = jobs_text(alloc, &jobs_in(alloc, &contents)?)?;
    let good = why.is_empty();
    Ok(CommandError {
        printout: Output { text, good },
        why,
    })
}

/// The jobs that were put or kept and aren't done.
fn jobs_in(alloc: Global, contents: &[SlotContent]) -> Result<BTreeMap<u64, Work>, AllocError>
    ensures { IfOk result (λ jobs. AreSalvaged contents.now jobs) }
{
    let mut jobs = put_in(alloc, contents)?;
    for content in contents {
        if let Said::Done(id) = &content.says {
            let _ = jobs.remove(id);
        }
    }
    Ok(jobs)
}

/// The jobs that were put or kept.
fn put_in(alloc: Global, contents: &[SlotContent]) -> Result<BTreeMap<u64, Work>, AllocError>
    ensures ordered { IfOk result (λ jobs. IsOrdered nat_cmp jobs) }
    ensures each { IfOk result (λ jobs. (id : ℕ) → get nat_cmp jobs id ≡ put_behind id None contents.now) }
{
    let mut jobs = BTreeMap::new(alloc);
    for content in contents {
        match &content.says {
            Said::Kept(id, work) => {
                jobs.insert(*id, *work)?;
            }
            Said::Done(_) | Said::Nothing | Said::Unread => {}
        }
    }
    Ok(jobs)
}

/// A line for each of these jobs.
fn jobs_text(alloc: Global, jobs: &BTreeMap<u64, Work>) -> Result<Vec<u8>, AllocError>
    ensures { IfOk result (λ text. text.items ≡ flat_map entry_line jobs.now.entries) }
{
    let mut text = Vec::new(alloc);
    for (id, work) in jobs {
        push_entry(&mut text, *id, work)?;
    }
    Ok(text)
}

fn push_entry(text: &mut Vec<u8>, id: u64, work: &Work) -> Result<(), AllocError>
    ensures { OnOk result (text.new.items ≡ text.old.items ++ entry_line (id, work.now)) }
{
    push_named_number(text, "job ", id)?;
    push_text(text, " ")?;
    push_work(
        text,
        work.queue.number(),
        work.payload.as_slice(),
        work.priority,
    )?;
    push_text(text, "\n")
}

/// Adds why the journal can't be mounted, where it can't.
fn push_journal_reason(
    why: &mut Vec<u8>,
    journal: &Result<JobJournal, u64>,
) -> Result<(), AllocError>
    ensures { OnOk result (why.new.items ≡ why.old.items ++ journal_reason (found_in journal.now)) }
{
    match journal {
        Ok(_) => Ok(()),
        Err(sector) => push_named_number(why, "damaged_journal ", *sector),
    }
}

/// Adds that both areas are read, where they are.
fn push_area_reason(why: &mut Vec<u8>, area: Option<u64>) -> Result<(), AllocError>
    ensures { OnOk result (why.new.items ≡ area_reason why.old.items area) }
{
    match area {
        Some(_) => Ok(()),
        None => {
            push_apart(why)?;
            push_text(why, "the present area isn't known, so both are read")
        }
    }
}

/// Adds each slot that a mounting can't read.
fn push_content_reasons(why: &mut Vec<u8>, contents: &[SlotContent]) -> Result<(), AllocError>
    ensures { OnOk result (why.new.items ≡ contents_reasons why.old.items contents.now) }
{
    for content in contents {
        if !content.whole {
            push_content_reason(why, content)?;
        }
    }
    Ok(())
}

fn push_content_reason(why: &mut Vec<u8>, content: &SlotContent) -> Result<(), AllocError>
    ensures { OnOk result (why.new.items ≡ reasoned why.old.items (content_reason content.now)) }
{
    push_apart(why)?;
    push_named_number(why, "sector ", content.sector)?;
    match content.says {
        Said::Kept(_, _) | Said::Done(_) | Said::Nothing => {
            push_text(why, " is damaged, and taken for what it says")
        }
        Said::Unread => push_text(why, " can't be read"),
    }
}
