//! What is wrong with a line of jobs.

ghost use Rattle.std.specs.Prelude.{◌≡◌, ◌↔◌, ◌≤◌, IfOk, None};
ghost use Rattle.disk_layout.specs.declared.layout.TheConstants.{LEAST_SLOTS, MOST_SLOTS};
ghost use Rattle.line_words.specs.Words.{words_of};
ghost use Rattle.line_words.specs.Lines.{line_numbered, lines_of};
ghost use Rattle.store_console.specs.Restored.{job_of};

use crate::restoring::{job, read_jobs};
use line_words::{cut_line, line_numbered};
use std::alloc::{AllocError, Global};
use thiserror::Error;

/// Why a line isn't taken as a job.
#[derive(Clone, Copy, Debug, PartialEq, Eq, Error)]
pub enum JobFlaw {
    #[error("not of the form job ID QUEUE HEX [P]")]
    Form,
    #[error("its ID isn't below FIRST")]
    NotBelow,
    #[error("its ID isn't above those before it")]
    NotAbove,
    #[error("too many jobs for SLOTS, which takes two fewer")]
    TooMany,
}

/// What is wrong with the line of this number, the first of an input that [`read_jobs`](crate::read_jobs) doesn't take.
pub fn job_flaw(
    alloc: Global,
    slots: u64,
    next: u64,
    input: &[u8],
    number: u64,
) -> Result<JobFlaw, AllocError>
    requires least { LEAST_SLOTS ≤ slots }
    requires most { slots ≤ MOST_SLOTS }
    ensures { IfOk result (λ flaw. (flaw ≡ JobFlaw.Form) ↔ (job_of (words_of (line_numbered number (lines_of input.now))) ≡ None)) }
{
    let Some(job) = job(alloc, line_numbered(input, number))? else {
        return Ok(JobFlaw::Form);
    };
    if next <= job.id {
        return Ok(JobFlaw::NotBelow);
    }
    match read_jobs(alloc, slots, next, in_front(input, number)) {
        Ok(table) if !table.can_keep(job.id) => Ok(JobFlaw::NotAbove),
        _ => Ok(JobFlaw::TooMany),
    }
}

/// The lines in front of that of this number.
fn in_front(input: &[u8], number: u64) -> &[u8] {
    let mut left = input;
    for _line in 1..number {
        match cut_line(left) {
            Some((_, behind)) => left = behind,
            None => return input,
        }
    }
    let (front, _) = input.split_at(input.len().saturating_sub(left.len()));
    front
}
