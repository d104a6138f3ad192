//! What was found, as text: a line for each name and its value.

ghost use Rattle.std.specs.Prelude.{◌≡◌, ◌++◌, OnOk, IfOk};
ghost use Rattle.console_text.specs.Ends.{printout_of};
ghost use Rattle.job_journal.specs.Jobs.{jobs_of};
ghost use Rattle.store_console.specs.Held.{found_in};
ghost use Rattle.store_console.specs.Printed.{all_queues_text, counter_text, export_text, found_text, has_jobs, has_value, jobs_in_queue, jobs_text, journal_text, named, owner_text, queue_text, too_small};

use crate::found::{Counter, Owner};
use crate::text::push_jobs;
use console_text::{Output, push_named_number, push_text};
use job_journal::JobJournal;
use job_model::{JobTable, PendingJobs, QUEUES};
use std::alloc::{AllocError, Global};

/// What is printed of a file with too few sectors.
pub fn too_small(alloc: Global, sectors: u64) -> Result<Output, AllocError>
    ensures { IfOk result (λ printout. printout_of printout ≡ too_small sectors) }
{
    let mut text = Vec::new(alloc);
    push_named(&mut text, "too_small", sectors)?;
    Ok(Output { text, good: false })
}

/// What is printed of what was found.
pub fn described(
    alloc: Global,
    owner: Owner,
    slots: u64,
    used: u64,
    counter: Counter,
    journal: &Result<JobJournal, u64>,
) -> Result<Output, AllocError>
    ensures { IfOk result (λ printout. printout_of printout ≡ found_text owner slots used counter (found_in journal.now)) }
{
    let mut text = Vec::new(alloc);
    push_owner(&mut text, owner)?;
    push_named(&mut text, "slots", slots)?;
    push_named(&mut text, "used", used)?;
    push_counter(&mut text, counter)?;
    push_journal(&mut text, journal)?;
    let good = has_value(counter) && has_jobs(journal);
    Ok(Output { text, good })
}

/// What is printed of the jobs alone.
pub fn jobs_alone(alloc: Global, journal: &Result<JobJournal, u64>) -> Result<Output, AllocError>
    ensures { IfOk result (λ printout. printout_of printout ≡ export_text (found_in journal.now)) }
{
    let mut text = Vec::new(alloc);
    match journal {
        Ok(journal) => push_jobs(&mut text, &journal.table().pending())?,
        Err(sector) => push_named(&mut text, "damaged_journal", *sector)?,
    }
    Ok(Output {
        text,
        good: has_jobs(journal),
    })
}

/// Whether the counter has a value.
fn has_value(counter: Counter) -> bool
    ensures { result ≡ has_value counter }
{
    match counter {
        Counter::Value(_) => true,
        Counter::Missing | Counter::Damaged(_) => false,
    }
}

/// Whether the journal has jobs.
fn has_jobs(journal: &Result<JobJournal, u64>) -> bool
    ensures { result ≡ has_jobs (found_in journal.now) }
{
    match journal {
        Ok(_) => true,
        Err(_) => false,
    }
}

/// Adds a line of a name and its value.
pub fn push_named(text: &mut Vec<u8>, name: &str, value: u64) -> Result<(), AllocError>
    ensures { OnOk result (text.new.items ≡ text.old.items ++ named name.now value) }
{
    push_text(text, name)?;
    push_named_number(text, " ", value)?;
    push_text(text, "\n")
}

fn push_owner(text: &mut Vec<u8>, owner: Owner) -> Result<(), AllocError>
    ensures { OnOk result (text.new.items ≡ text.old.items ++ owner_text owner) }
{
    match owner {
        Owner::Store => push_text(text, "kind store\n"),
        Owner::Node(id, nodes) => {
            push_text(text, "kind node\n")?;
            push_named(text, "node", u64::from(id))?;
            push_named(text, "nodes", u64::from(nodes))
        }
        Owner::Unknown => push_text(text, "kind unknown\n"),
    }
}

fn push_counter(text: &mut Vec<u8>, counter: Counter) -> Result<(), AllocError>
    ensures { OnOk result (text.new.items ≡ text.old.items ++ counter_text counter) }
{
    match counter {
        Counter::Missing => push_text(text, "count none\n"),
        Counter::Value(value) => push_named(text, "count", value),
        Counter::Damaged(sector) => push_named(text, "damaged_counter", sector),
    }
}

fn push_journal(text: &mut Vec<u8>, journal: &Result<JobJournal, u64>) -> Result<(), AllocError>
    ensures { OnOk result (text.new.items ≡ text.old.items ++ journal_text (found_in journal.now)) }
{
    match journal {
        Ok(journal) => push_table(text, journal.table()),
        Err(sector) => push_named(text, "damaged_journal", *sector),
    }
}

/// Adds lines for the next id and the jobs.
fn push_table(text: &mut Vec<u8>, table: &JobTable) -> Result<(), AllocError>
    ensures { OnOk result (text.new.items ≡ text.old.items ++ jobs_text (jobs_of table.now)) }
{
    push_named(text, "next", table.next())?;
    push_named(text, "jobs", table.pending().len() as u64)?;
    push_queues(text, &table.pending())
}

/// Adds a line for each queue that has jobs.
#[tactic(auto, unfolding(crate::specs::Printed::all_queues_text))]
fn push_queues(text: &mut Vec<u8>, jobs: &PendingJobs<'_>) -> Result<(), AllocError>
    ensures { OnOk result (text.new.items ≡ text.old.items ++ all_queues_text jobs.now) }
{
    for queue in 0..QUEUES {
        push_queue(text, queue, jobs_in_queue(jobs, queue))?;
    }
    Ok(())
}

fn push_queue(text: &mut Vec<u8>, queue: u8, count: u64) -> Result<(), AllocError>
    ensures { OnOk result (text.new.items ≡ text.old.items ++ queue_text queue count) }
{
    if count == 0 {
        return Ok(());
    }
    push_named_number(text, "queue_", u64::from(queue))?;
    push_named_number(text, " ", count)?;
    push_text(text, "\n")
}

/// How many jobs there are in a queue.
fn jobs_in_queue(jobs: &PendingJobs<'_>, queue: u8) -> u64
    ensures { result ≡ jobs_in_queue jobs.now queue }
{
    let mut count = 0;
    for at in 0..jobs.len() {
        if jobs.get(at).unwrap().queue().number() == queue {
            count += 1;
        }
    }
    count
}
