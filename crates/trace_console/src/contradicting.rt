//! What of a trace can't be by itself, whatever the other nodes did.
ghost use Rattle.std.specs.Prelude.{◌≡◌, ◌≤◌, ◌<◌, ◌+◌, ◌++◌, length, IfOk, OnOk};
ghost use Rattle.console_text.specs.Ends.{Prints, printout_of, refused};
ghost use Rattle.trace_check.specs.declared.contradiction.Contradiction.{Contradiction};
ghost use Rattle.trace_check.specs.Contradictions.{IsCore, IsStopped};
ghost use Rattle.trace_check.specs.Leftovers.{AreLeftovers, CanReplay};
ghost use Rattle.trace_check.specs.Orders.{history};
ghost use Rattle.trace_console.specs.Answers.{IsReportAsTold, IsReportedAsTold, IsVerdictTold};
ghost use Rattle.trace_console.specs.Contradicting.{IsContradictionOf, IsShowing, IsShown, IsShownAt, IsShownLeft, IsShownUpTo, all_wait, before_text};
ghost use Rattle.trace_console.specs.Ongoing.{first_stopped};

use crate::answers::FalseAnswer;
use crate::comparing::{compare, report_as_told};
use crate::judging::{bad_printout, verdict_printout};
use crate::node_states::push_node_state;
use crate::ongoing::first_stopped;
use crate::told::Told;
use console_text::{
    CommandError, Ended, Output, Source, outcome_of, print_explained, push_named_number, push_text,
};
use std::alloc::{AllocError, Global};
use std::io::{Read, Write};
use trace_check::{
    Contradiction, Examined, Leftover, Trace, Verdict, contradiction_at, core_at, examine,
    leftovers_stop,
};
use trace_text::{TraceFault, read, write_text};

/// Reads a trace, and prints the entries of one node by which it contradicts itself, where no order takes all entries and one is left that can't
/// come, whatever others send: how the node stands before them, and a trace in which it alone has them. Where each entry that is left waits, it
/// says so. Where an entry that can be taken says that its node told something else than it tells, those up to that one are printed. The verdict
/// on a run, and what is no trace, are answered as `trace` does, and so are the ending and what is handed on.
pub fn contradiction<R: Read, W: Write>(
    alloc: Global,
    input: &mut Source<R>,
    output: &mut W,
) -> Ended
    // Promise: `trace --core` prints, where an entry can't come whatever others send, the last entries of its node up to that one, as a trace, and how
    // the node stands before them: no run has them behind that, whatever the other nodes do. Else it says that each entry that is left waits, or
    // prints the order of a run.
    // Refuses: core_of_an_entry_that_waits, next_id_told_as_count, unready_told_as_found, doubt_left_out.
    // Promise: So it prints those up to the first entry of which something else is told than its node tells: no run has them behind that in which the
    // node tells so of the last.
    // Refuses: core_of_what_was_told_passed_over, told_core_of_the_first_entry.
    ensures prints { Prints IsContradictionOf (R.remaining input.old.reader) (W.contents output.old) (W.contents output.new) result.ending }
    ensures why { IsVerdictTold (R.remaining input.old.reader) result.ending result.why.items }
    ensures reads { input.old.left ≤ input.new.left + 16777216 }
{
    let outcome = outcome_of(alloc, input, |bytes| show_text(alloc, &bytes));
    print_explained(alloc, output, outcome)
}

/// What is printed for an input, and what is said of it.
fn show_text(alloc: Global, text: &[u8]) -> Result<CommandError, AllocError>
    ensures printed { IfOk result (λ explained. IsContradictionOf text.now (printout_of explained.printout)) }
    ensures why { IfOk result (λ explained. IsReportedAsTold text.now explained.why.items) }
{
    match read(alloc, text) {
        Ok(trace) => show_trace(alloc, &trace, &Told::read(alloc, text)?),
        Err(TraceFault::BadTrace(location)) => {
            let printout = bad_printout(alloc, location)?;
            Ok(printout.without_why(alloc))
        }
        Err(TraceFault::NoMemory) => Err(AllocError),
    }
}

/// What is printed of a trace and of what was told, and what is said of it.
fn show_trace(alloc: Global, trace: &Trace, told: &Told) -> Result<CommandError, AllocError>
    ensures printed { IfOk result (λ explained. IsShowing trace.now told.now (printout_of explained.printout)) }
    ensures why { IfOk result (λ explained. IsReportAsTold trace.now told.now explained.why.items) }
{
    let examined = examine(alloc, trace)?;
    let found = compare(alloc, trace, told, &examined)?;
    let why = report_as_told(alloc, trace, &examined, &found)?;
    let printout = match &found {
        Some(answer) => told_printout(alloc, trace, answer)?,
        None => found_printout(alloc, trace, &examined)?,
    };
    Ok(CommandError { printout, why })
}

/// What is printed up to an entry of which something else is told.
fn told_printout(alloc: Global, trace: &Trace, answer: &FalseAnswer) -> Result<Output, AllocError>
    requires there { answer.now.index < length (history trace.now answer.now.node) }
    requires before { CanReplay trace.now answer.now.node answer.now.index }
    ensures { IfOk result (λ printout. (c : Contradiction) × IsCore trace.now answer.now.node answer.now.index c × IsShown c (printout_of printout)) }
{
    let found = core_at(alloc, trace, answer.node, answer.index)?;
    core_printout(alloc, &found)
}

/// What is printed of what was found.
fn found_printout(alloc: Global, trace: &Trace, examined: &Examined) -> Result<Output, AllocError>
    requires { AreLeftovers trace.now examined.now.left.items }
    ensures { IfOk result (λ printout. IsShownAt trace.now examined.now.verdict examined.now.left.items (printout_of printout)) }
{
    match &examined.verdict {
        Verdict::Run(_) => verdict_printout(alloc, &examined.verdict),
        Verdict::NotARun(_, _) => left_printout(alloc, trace, &examined.left),
    }
}

/// What is printed where entries are left.
fn left_printout(alloc: Global, trace: &Trace, left: &[Leftover]) -> Result<Output, AllocError>
    requires { AreLeftovers trace.now left.now }
    ensures { IfOk result (λ printout. IsShownLeft trace.now (first_stopped left.now) (printout_of printout)) }
{
    leftovers_stop();
    match first_stopped(left) {
        Some(stopped) => stopped_printout(alloc, trace, stopped),
        None => waiting_printout(alloc),
    }
}

/// What is printed up to an entry that can't come.
fn stopped_printout(alloc: Global, trace: &Trace, left: &Leftover) -> Result<Output, AllocError>
    requires { IsStopped trace.now left.now.node left.now.index }
    ensures { IfOk result (λ printout. IsShownUpTo trace.now left.now (printout_of printout)) }
{
    let found = contradiction_at(alloc, trace, left.node, left.index)?;
    core_printout(alloc, &found)
}

/// What is printed of entries of one node.
fn core_printout(alloc: Global, found: &Contradiction) -> Result<Output, AllocError>
    ensures { IfOk result (λ printout. IsShown found.now (printout_of printout)) }
{
    let written = write_text(alloc, &found.trace)?;
    let mut text = Vec::new(alloc);
    push_before(&mut text, found)?;
    text.extend_from_slice(&written)?;
    push_text(&mut text, "\n")?;
    Ok(Output { text, good: false })
}

/// Adds how the node stands before the first of the entries, and the end of the last line of that.
#[tactic(auto, unfolding(crate::specs::Contradicting::before_text))]
fn push_before(text: &mut Vec<u8>, found: &Contradiction) -> Result<(), AllocError>
    ensures { OnOk result (text.new.items ≡ text.old.items ++ before_text found.now) }
{
    push_named_number(text, "node ", u64::from(found.node.number()))?;
    push_named_number(text, " entry ", found.first as u64)?;
    push_text(text, " ")?;
    push_node_state(text, &found.before)?;
    push_text(text, "\n")
}

/// What is printed where each entry that is left waits.
fn waiting_printout(alloc: Global) -> Result<Output, AllocError>
    ensures { IfOk result (λ printout. printout_of printout ≡ refused all_wait) }
{
    let mut text = Vec::new(alloc);
    push_text(
        &mut text,
        "each entry that is left waits for a message that none sent\n",
    )?;
    Ok(Output { text, good: false })
}
