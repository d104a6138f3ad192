//! Replies as text.

ghost use Rattle.std.specs.Prelude.{◌≡◌, ◌++◌, OnOk, flat_map};
ghost use Rattle.job_model.specs.Table.{durable_of};
ghost use Rattle.console_text.specs.Ends.{line};
ghost use Rattle.store_console.specs.Replies.{fault_text, job_text, list_text, mount_text, reply_text};

use crate::reply::Reply;
use console_text::{push_named_number, push_text, push_work};
use file_disk::FileDisk;
use job_journal::JournalFault;
use job_model::{JobRef, JobTable, PendingJobs};
use node_store::{NodeStore, StoreFault};
use std::alloc::AllocError;

/// Adds a reply, with what is mounted then.
pub fn push_reply(
    text: &mut Vec<u8>,
    mounted: &Option<NodeStore<FileDisk>>,
    reply: Reply,
) -> Result<(), AllocError>
    ensures { OnOk result (text.new.items ≡ text.old.items ++ reply_text mounted.now reply) }
{
    match reply {
        Reply::Done => push_text(text, "ok\n"),
        Reply::Value(value) => {
            push_named_number(text, "ok ", value)?;
            push_text(text, "\n")
        }
        Reply::Refused(fault) => {
            push_text(text, "refused ")?;
            push_fault(text, fault)?;
            push_text(text, "\n")
        }
        Reply::Unmounted(fault) => {
            push_text(text, "refused ")?;
            push_mount_fault(text, fault)?;
            push_text(text, "\n")
        }
        Reply::Barred(_) => push_text(text, "refused Device\n"),
        Reply::Locked => push_text(text, "refused Locked\n"),
        Reply::Foreign => push_text(text, "refused Foreign\n"),
        Reply::Listed => match mounted {
            None => Ok(()),
            Some(store) => push_list(text, store.counter(), store.table()),
        },
    }
}

fn push_fault(text: &mut Vec<u8>, fault: JournalFault) -> Result<(), AllocError>
    ensures { OnOk result (text.new.items ≡ text.old.items ++ fault_text fault) }
{
    match fault {
        JournalFault::Device => push_text(text, "Device"),
        JournalFault::Broken => push_text(text, "Broken"),
        JournalFault::Exhausted | JournalFault::AreaExhausted => push_text(text, "Exhausted"),
        JournalFault::Damaged(sector) => push_named_number(text, "Damaged ", sector),
        JournalFault::Full => push_text(text, "Full"),
        JournalFault::NoSuchJob => push_text(text, "NoSuchJob"),
        JournalFault::NoMemory => push_text(text, "NoMemory"),
    }
}

fn push_mount_fault(text: &mut Vec<u8>, fault: StoreFault) -> Result<(), AllocError>
    ensures { OnOk result (text.new.items ≡ text.old.items ++ mount_text fault) }
{
    match fault {
        StoreFault::Device => push_text(text, "Device"),
        StoreFault::NotFormatted => push_text(text, "NotFormatted"),
        StoreFault::Damaged(sector) => push_named_number(text, "Damaged ", sector),
        StoreFault::NoMemory => push_text(text, "NoMemory"),
        StoreFault::TooSmall => push_text(text, "TooSmall"),
    }
}

/// Adds a line on the counter and the next id, and one for each pending job.
fn push_list(text: &mut Vec<u8>, count: u64, table: &JobTable) -> Result<(), AllocError>
    ensures { OnOk result (text.new.items ≡ text.old.items ++ list_text (durable_of count table.now)) }
{
    push_named_number(text, "count ", count)?;
    push_named_number(text, " next ", table.next())?;
    push_text(text, "\n")?;
    push_jobs(text, &table.pending())
}

/// Adds a line for each of these jobs.
pub fn push_jobs(text: &mut Vec<u8>, jobs: &PendingJobs<'_>) -> Result<(), AllocError>
    ensures { OnOk result (text.new.items ≡ text.old.items ++ flat_map (λ job. line (job_text job)) jobs.now) }
{
    for job in jobs.iter() {
        push_job(text, &job)?;
    }
    Ok(())
}

fn push_job(text: &mut Vec<u8>, job: &JobRef<'_>) -> Result<(), AllocError>
    ensures { OnOk result (text.new.items ≡ text.old.items ++ line (job_text job.now)) }
{
    push_named_number(text, "job ", job.id())?;
    push_text(text, " ")?;
    push_work(text, job.queue().number(), job.payload(), job.priority())?;
    push_text(text, "\n")
}
