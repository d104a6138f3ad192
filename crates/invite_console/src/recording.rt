//! The command `record`: a schedule in, the trace of its run out, with the order of its turns.
ghost use Rattle.std.specs.Prelude.{◌≡◌, ◌≤◌, ◌+◌, IfOk};
ghost use Rattle.console_text.specs.Ends.{printout_of, IsWhy, Prints};
ghost use Rattle.invite_console.specs.Reasons.{schedule_flaw};
ghost use Rattle.invite_console.specs.Recording.{IsRecordText, IsRecording};
ghost use Rattle.schedule.specs.Limits.{IsWithinLimits};
ghost use Rattle.schedule.specs.Text.{script};

use crate::reasons::bad_schedule;
use cluster_sim::record_of;
use console_text::{CommandError, Ended, Output, Source, outcome_of, print_explained, push_text};
use line_words::LineFault;
use schedule::{Schedule, read_schedule};
use std::alloc::{AllocError, Global};
use std::io::{Read, Write};
use trace_text::{WriteFault, write_ordered};

/// Reads a schedule, runs it on a simulated cluster, and prints the trace of the run with the order of its turns as one line of JSON.
pub fn record<R: Read, W: Write>(alloc: Global, input: &mut Source<R>, output: &mut W) -> Ended
    // Promise: What `record` writes is the text of such a trace with the order of the turns of that very run, in which all entries can be
    // taken, or the first bad line.
    // Refuses: record_without_order, order_of_the_checker_recorded.
    ensures prints { Prints IsRecording (R.remaining input.old.reader) (W.contents output.old) (W.contents output.new) result.ending }
    ensures why { IsWhy schedule_flaw (R.remaining input.old.reader) result.ending result.why.items }
    ensures reads { input.old.left ≤ input.new.left + 16777216 }
{
    let outcome = outcome_of(alloc, input, |bytes| record_text(alloc, &bytes));
    print_explained(alloc, output, outcome)
}

/// What `record` prints for an input, and what is wrong with it.
fn record_text(alloc: Global, input: &[u8]) -> Result<CommandError, AllocError>
    ensures printed { IfOk result (λ explained. IsRecording input.now (printout_of explained.printout)) }
    ensures why { IfOk result (λ explained. explained.why.items ≡ schedule_flaw input.now) }
{
    match read_schedule(alloc, input) {
        Ok(schedule) => {
            let mut text = recorded(alloc, &schedule)?;
            push_text(&mut text, "\n")?;
            let printout = Output { text, good: true };
            Ok(printout.without_why(alloc))
        }
        Err(LineFault::BadLine(number)) => bad_schedule(alloc, input, number),
        Err(LineFault::NoMemory) => Err(AllocError),
    }
}

/// The trace of a schedule's run with the order of its turns, as text.
fn recorded(alloc: Global, schedule: &Schedule) -> Result<Vec<u8>, AllocError>
    requires { IsWithinLimits schedule.now.size schedule.now.acts.items }
    ensures { IfOk result (λ text. IsRecordText (script schedule.now.size schedule.now.acts.items) text.items) }
{
    let run = record_of(alloc, schedule)?;
    match write_ordered(alloc, &run.trace, &run.order) {
        Ok(text) => Ok(text),
        Err(WriteFault::NoMemory) => Err(AllocError),
        Err(WriteFault::Unwritable) => unreachable!(),
    }
}
