//! What of a trace is told otherwise than its nodes tell it.
ghost use Rattle.std.specs.Prelude.{◌≡◌, ◌++◌, IfOk, OnOk};
ghost use Rattle.console_text.specs.Ends.{printout_of};
ghost use Rattle.trace_check.specs.Leftovers.{AreLeftovers};
ghost use Rattle.trace_check.specs.Verdicts.{AreTaken, DecidesRun, IsVerdict};
ghost use Rattle.trace_console.specs.Answers.{IsComparison, IsSaidOf, false_text, printed_as_told};

use crate::answers::{FalseAnswer, first_false};
use crate::judging::{Stage, printout_at, verdict_printout};
use crate::reporting::{push_place, report};
use crate::told::Told;
use console_text::{Output, push_text};
use std::alloc::{AllocError, Global};
use trace_check::{Examined, Trace, Verdict};

/// Of the entries that can be taken the first of which something else is told than its node tells.
pub(crate) fn compare(
    alloc: Global,
    trace: &Trace,
    told: &Told,
    examined: &Examined,
) -> Result<Option<FalseAnswer>, AllocError>
    requires verdict { IsVerdict trace.now examined.now.verdict }
    requires decides { DecidesRun trace.now examined.now.verdict }
    requires taken { AreTaken trace.now examined.now.verdict examined.now.taken.items }
    ensures { IfOk result (IsComparison trace.now told.now) }
{
    first_false(alloc, trace, told, &examined.taken)
}

/// What is printed of what was found.
pub(crate) fn printout_as_told(
    alloc: Global,
    stage: Stage,
    examined: &Examined,
    found: &Option<FalseAnswer>,
) -> Result<Output, AllocError>
    ensures { IfOk result (λ printout. printout_of printout ≡ printed_as_told stage examined.now found.now) }
{
    match found {
        Some(answer) => verdict_printout(alloc, &Verdict::NotARun(answer.node, answer.index)),
        None => printout_at(alloc, stage, examined),
    }
}

/// What is said of what was found.
pub(crate) fn report_as_told(
    alloc: Global,
    trace: &Trace,
    examined: &Examined,
    found: &Option<FalseAnswer>,
) -> Result<Vec<u8>, AllocError>
    requires { AreLeftovers trace.now examined.now.left.items }
    ensures { IfOk result (λ why. IsSaidOf trace.now found.now why.items) }
{
    match found {
        Some(answer) => false_report(alloc, answer),
        None => report(alloc, trace, &examined.left),
    }
}

/// Where something else is told.
#[tactic(auto, unfolding(crate::specs::Answers::false_text))]
fn false_report(alloc: Global, answer: &FalseAnswer) -> Result<Vec<u8>, AllocError>
    ensures { IfOk result (λ why. why.items ≡ false_text answer.now) }
{
    let mut why = Vec::new(alloc);
    push_text(
        &mut why,
        "no order takes all entries as they were told: look first at node ",
    )?;
    push_place(&mut why, answer.node, ", entry ", answer.index)?;
    Ok(why)
}
