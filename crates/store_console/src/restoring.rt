//! Jobs read from lines, as `export` prints them, for a file that is made with them.

ghost use Rattle.std.specs.Prelude.{◌≡◌, ◌≤◌, ◌+◌, [], length, IfOk, IfErr, OnOk};
ghost use Rattle.disk_layout.specs.declared.layout.TheConstants.{LEAST_SLOTS, MOST_SLOTS};
ghost use Rattle.job_journal.specs.Jobs.{jobs_of};
ghost use Rattle.line_words.specs.Words.{words_of};
ghost use Rattle.store_console.specs.Restored.{IsInputFault, IsLineNotTaken, TakesInput, TakesLine, job_of, job_with};

use job_model::{Job, JobTable};
use line_words::{LineFault, cut_line, cut_word, is_word, number};
use schedule::fields::{new_job, priority};
use std::alloc::{AllocError, Global};

/// No jobs, and this id for the next one.
pub fn no_jobs(alloc: Global, next: u64) -> JobTable
    ensures { result ≡ record { next = next; pending = []; room = 0 } }
{
    let mut table = JobTable::empty(alloc);
    table.restart(next);
    table
}

/// The jobs of an input, a line each, whose ids rise and are below the next one: as many as areas of so many slots take. The fault names the
/// first line that isn't taken.
pub fn read_jobs(alloc: Global, slots: u64, next: u64, input: &[u8]) -> Result<JobTable, LineFault>
    requires least { LEAST_SLOTS ≤ slots }
    requires most { slots ≤ MOST_SLOTS }
    // Promise: Jobs are read from lines as they are exported, under their ids, each above the one before it and below the next id,
    // which is the one given; else the first line that can't be taken is named.
    // Also: next, fits, fault.
    // Refuses: ids_begin_at_zero, job_above_the_next_id_taken.
    ensures taken { IfOk result (λ table. TakesInput slots next input.now (jobs_of table)) }
    ensures next { IfOk result (λ table. table.next ≡ next) }
    ensures fits { IfOk result (λ table. length table.pending + 2 ≤ slots) }
    ensures fault { IfErr result (IsInputFault slots next input.now) }
{
    let mut table = JobTable::with_room(alloc, slots as usize)?;
    table.restart(next);
    let mut number = 0u64;
    let mut left = input;
    while let Some((line, behind)) = cut_line(left) {
        number += 1;
        take_line(alloc, slots, number, line, &mut table)?;
        left = behind;
    }
    take_line(alloc, slots, number + 1, left, &mut table)?;
    Ok(table)
}

/// Takes the job of the line of this number, which is passed over where it is empty.
fn take_line(
    alloc: Global,
    slots: u64,
    number: u64,
    line: &[u8],
    table: &mut JobTable,
) -> Result<(), LineFault>
    requires room { slots ≤ table.old.room }
    requires most { slots ≤ MOST_SLOTS }
    requires fits { length table.old.pending + 2 ≤ slots }
    ensures taken { OnOk result (TakesLine slots (jobs_of table.old) line.now (jobs_of table.new)) }
    ensures fault { IfErr result (IsLineNotTaken slots (jobs_of table.old) number line.now) }
    ensures next { table.new.next ≡ table.old.next }
    ensures room { table.new.room ≡ table.old.room }
    ensures fits { length table.new.pending + 2 ≤ slots }
{
    if line.is_empty() {
        return Ok(());
    }
    let Some(job) = job(alloc, line)? else {
        return Err(LineFault::BadLine(number));
    };
    if !table.can_keep(job.id) {
        return Err(LineFault::BadLine(number));
    }
    if slots - 2 <= table.pending().len() as u64 {
        return Err(LineFault::BadLine(number));
    }
    table.keep(job);
    Ok(())
}

/// The job of the words of a line.
pub(crate) fn job(alloc: Global, line: &[u8]) -> Result<Option<Job>, AllocError>
    ensures { IfOk result (λ job. job ≡ job_of (words_of line.now)) }
{
    let Some((name, fields)) = cut_word(line) else {
        return Ok(None);
    };
    let Some((id, fields)) = cut_word(fields) else {
        return Ok(None);
    };
    let Some((queue, fields)) = cut_word(fields) else {
        return Ok(None);
    };
    match cut_word(fields) {
        None => job_with(alloc, name, id, queue, fields, Some(0)),
        Some((payload, last)) => match cut_word(last) {
            None => job_with(alloc, name, id, queue, payload, priority(last)),
            Some(_) => Ok(None),
        },
    }
}

fn job_with(
    alloc: Global,
    name: &[u8],
    id: &[u8],
    first: &[u8],
    second: &[u8],
    priority: Option<u8>,
) -> Result<Option<Job>, AllocError>
    ensures { IfOk result (λ job. job ≡ job_with name.now id.now first.now second.now priority) }
{
    if !is_word(name, "job") {
        return Ok(None);
    }
    let (Some(id), Some(new)) = (number(id), new_job(alloc, first, second, priority)?) else {
        return Ok(None);
    };
    let work = new.work();
    Ok(Some(Job { id, work }))
}
