//! What is printed of a run that may go on.
ghost use Rattle.std.specs.Prelude.{◌≡◌, IfOk, None, option_map};
ghost use Rattle.console_text.specs.Ends.{printout_of};
ghost use Rattle.trace_console.specs.Ongoing.{first_stopped, left_printed, ongoing_printed};

use crate::judging::{push_nodes, verdict_printout};
use crate::reporting::waits;
use console_text::{Output, push_text};
use group_task::NodeId;
use std::alloc::{AllocError, Global};
use trace_check::{Examined, Leftover, Verdict};

/// What is printed of a run that may go on.
pub(crate) fn ongoing_printout(alloc: Global, examined: &Examined) -> Result<Output, AllocError>
    ensures { IfOk result (λ printout. printout_of printout ≡ ongoing_printed examined.now.verdict examined.now.taken.items examined.now.left.items) }
{
    match &examined.verdict {
        Verdict::Run(_) => verdict_printout(alloc, &examined.verdict),
        Verdict::NotARun(_, _) => left_printout(alloc, &examined.taken, &examined.left),
    }
}

/// What is printed where entries are left: those that were taken, where all others wait, or the first that can't be.
fn left_printout(alloc: Global, taken: &[NodeId], left: &[Leftover]) -> Result<Output, AllocError>
    ensures { IfOk result (λ printout. printout_of printout ≡ left_printed taken.now (first_stopped left.now)) }
{
    match first_stopped(left) {
        Some(stopped) => verdict_printout(alloc, &Verdict::NotARun(stopped.node, stopped.index)),
        None => taken_printout(alloc, taken),
    }
}

/// Of entries that are left the first that can't be, whatever others send.
pub(crate) fn first_stopped(left: &[Leftover]) -> Option<&Leftover>
    ensures { option_map (λ l. l.now) result ≡ first_stopped left.now }
{
    for leftover in left {
        if !waits(&leftover.holdup) {
            return Some(leftover);
        }
    }
    None
}

fn taken_printout(alloc: Global, taken: &[NodeId]) -> Result<Output, AllocError>
    ensures { IfOk result (λ printout. printout_of printout ≡ left_printed taken.now None) }
{
    let mut text = Vec::new(alloc);
    push_text(&mut text, "Ongoing")?;
    push_nodes(&mut text, taken)?;
    push_text(&mut text, "\n")?;
    Ok(Output { text, good: true })
}
