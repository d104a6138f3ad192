ghost use Rattle.std.specs.Prelude.{◌≡◌, ◌≤◌, ◌+◌, ◌++◌, ◌∷◌, [], ℕ, List, codes, IfOk, OnOk};
ghost use Rattle.console_text.specs.Ends.{Prints, printout_of, refused};
ghost use Rattle.trace_console.specs.Judged.{bad_trace, verdict_printed, words};
ghost use Rattle.trace_console.specs.Answers.{IsJudgedAt, IsJudgementAsTold, IsReportAsTold, IsReportedAsTold, IsVerdictTold, UntoldIsJudgedAlone};
ghost use Rattle.trace_console.specs.Ongoing.{printed_at};

use crate::comparing::{compare, printout_as_told, report_as_told};
use crate::ongoing::ongoing_printout;
use crate::told::Told;
use console_text::{
    CommandError, Ended, Output, Source, outcome_of, print_explained, push_number, push_text,
};
use group_task::NodeId;
use std::alloc::{AllocError, Global};
use std::io::{Read, Write};
use trace_check::{Examined, Trace, Verdict, examine};
use trace_text::{Location, TraceFault, read};

/// Whether a run is over, or may go on: then each node's history is the front of what it will have done.
#[derive(Clone, Copy, Debug, PartialEq, Eq)]
pub enum Stage {
    Over,
    Ongoing,
}

/// Reads a trace, and prints the verdict on it: `Run` and the nodes in the order in which their entries can be taken, or `NotARun` with
/// the least node that has entries left once none can be taken, and the index of its next. Of a run that may go on it is `Ongoing` and
/// the nodes of the entries that can be taken, where each entry left waits for a message, and else `NotARun` with the first that can't be,
/// whatever others send. A text that is no trace is a `bad trace`, with the node and the index of the first bad entry where the whole has
/// the shape of a trace. What holds up the entries that are left is handed on. Where an entry says what its node told behind it, and the node tells
/// something else, that entry can't be.
pub fn trace<R: Read, W: Write>(
    alloc: Global,
    stage: Stage,
    input: &mut Source<R>,
    output: &mut W,
) -> Ended
    // Promise: What `trace` writes is the verdict on what was read; of a run that may go on it is `Ongoing` exactly where no order takes all
    // entries and each that is left merely waits, and `NotARun` names an entry that can't be, whatever others send.
    // Refuses: index_before_node, place_of_a_bad_trace_left_out, no_run_with_status_of_done, waiting_is_a_fault, ongoing_though_refused.
    // Promise: Where the text says what nodes told, it is `Run` exactly where some order of all entries is a run in which each node would also have told
    // so; else `NotARun` names the first entry, in the order in which they are taken, of which its node tells something else.
    // Also: answers_decide, untold_is_judged_alone.
    // Refuses: answer_not_compared, group_told_as_before, finished_job_told_as_dropped, told_of_the_next_entry, later_false_answer_named,
    // false_answer_printed_as_a_run.
    ensures prints { Prints (IsJudgedAt stage) (R.remaining input.old.reader) (W.contents output.old) (W.contents output.new) result.ending }
    // Promise: Where no order takes all entries, standard error says of each node with entries left why its next one can't be taken: it
    // waits for a message that none sent, or it can't be at the node's state.
    // Refuses: trace_check::waiting_told_as_impossible, trace_check::reason_of_another_entry.
    ensures why { IsVerdictTold (R.remaining input.old.reader) result.ending result.why.items }
    ensures reads { input.old.left ≤ input.new.left + 16777216 }
{
    let outcome = outcome_of(alloc, input, |bytes| judge_text(alloc, stage, &bytes));
    print_explained(alloc, output, outcome)
}

/// Of a text in which the key `told` doesn't stand, the verdict is that on its entries alone.
pub fn untold_is_judged_alone()
    ensures { UntoldIsJudgedAlone }
{}

/// What `trace` prints for an input, and what it says of it.
fn judge_text(alloc: Global, stage: Stage, text: &[u8]) -> Result<CommandError, AllocError>
    ensures printed { IfOk result (λ explained. IsJudgedAt stage text.now (printout_of explained.printout)) }
    ensures why { IfOk result (λ explained. IsReportedAsTold text.now explained.why.items) }
{
    match read(alloc, text) {
        Ok(trace) => judge(alloc, stage, &trace, &Told::read(alloc, text)?),
        Err(TraceFault::BadTrace(location)) => {
            let printout = bad_printout(alloc, location)?;
            Ok(printout.without_why(alloc))
        }
        Err(TraceFault::NoMemory) => Err(AllocError),
    }
}

/// The verdict on a trace and on what was told, and what is said of it.
pub(crate) fn judge(
    alloc: Global,
    stage: Stage,
    trace: &Trace,
    told: &Told,
) -> Result<CommandError, AllocError>
    ensures printed { IfOk result (λ explained. IsJudgementAsTold stage trace.now told.now (printout_of explained.printout)) }
    ensures why { IfOk result (λ explained. IsReportAsTold trace.now told.now explained.why.items) }
{
    let examined = examine(alloc, trace)?;
    let found = compare(alloc, trace, told, &examined)?;
    let why = report_as_told(alloc, trace, &examined, &found)?;
    let printout = printout_as_told(alloc, stage, &examined, &found)?;
    Ok(CommandError { printout, why })
}

/// What is printed of what was found.
pub(crate) fn printout_at(
    alloc: Global,
    stage: Stage,
    examined: &Examined,
) -> Result<Output, AllocError>
    ensures { IfOk result (λ printout. printout_of printout ≡ printed_at stage examined.now) }
{
    match stage {
        Stage::Over => verdict_printout(alloc, &examined.verdict),
        Stage::Ongoing => ongoing_printout(alloc, examined),
    }
}

/// What is printed for a verdict.
pub(crate) fn verdict_printout(alloc: Global, verdict: &Verdict) -> Result<Output, AllocError>
    ensures { IfOk result (λ printout. printout_of printout ≡ verdict_printed verdict.now) }
{
    let mut text = Vec::new(alloc);
    match verdict {
        Verdict::Run(order) => {
            push_text(&mut text, "Run")?;
            push_nodes(&mut text, order)?;
            push_text(&mut text, "\n")?;
            Ok(Output { text, good: true })
        }
        Verdict::NotARun(node, index) => {
            push_text(&mut text, "NotARun")?;
            push_place(&mut text, u64::from(node.number()), *index as u64)?;
            push_text(&mut text, "\n")?;
            Ok(Output { text, good: false })
        }
    }
}

/// What is printed for a text that is no trace.
pub(crate) fn bad_printout(alloc: Global, location: Option<Location>) -> Result<Output, AllocError>
    ensures { IfOk result (λ printout. printout_of printout ≡ refused (bad_trace location)) }
{
    let mut text = Vec::new(alloc);
    push_text(&mut text, "bad trace")?;
    if let Some(location) = location {
        push_place(&mut text, location.node as u64, location.index as u64)?;
    }
    push_text(&mut text, "\n")?;
    Ok(Output { text, good: false })
}

/// Adds the nodes, each behind a space.
pub(crate) fn push_nodes(text: &mut Vec<u8>, nodes: &[NodeId]) -> Result<(), AllocError>
    ensures { OnOk result (text.new.items ≡ text.old.items ++ words nodes.now) }
{
    for node in nodes {
        push_word(text, u64::from(node.number()))?;
    }
    Ok(())
}

/// Adds a node and an index.
pub(crate) fn push_place(text: &mut Vec<u8>, node: u64, index: u64) -> Result<(), AllocError>
    ensures { OnOk result (text.new.items ≡ text.old.items ++ words (node ∷ index ∷ [])) }
{
    push_word(text, node)?;
    push_word(text, index)
}

/// Adds a number behind a space.
pub(crate) fn push_word(text: &mut Vec<u8>, number: u64) -> Result<(), AllocError>
    ensures { OnOk result (text.new.items ≡ text.old.items ++ words (number ∷ [])) }
{
    push_text(text, " ")?;
    push_number(text, number)
}
