//! The turns of a run, as lines: in which order they are, a line for each turn, a line for each entry that is left.
ghost use Rattle.std.specs.Prelude.{◌≡◌, ◌≤◌, ◌+◌, ◌++◌, reverse, option_map, IfOk, OnOk};
ghost use Rattle.std.specs.List.{flat_map};
ghost use Rattle.console_text.specs.Ends.{Prints, printout_of};
ghost use Rattle.trace_text.specs.Ordered.{ordered_by};
ghost use Rattle.trace_check.specs.Orders.{IsLegal};
ghost use Rattle.trace_check.specs.Verdicts.{AreTaken};
ghost use Rattle.trace_console.specs.Answers.{IsReportAsTold, IsReportedAsTold, IsVerdictTold};
ghost use Rattle.trace_console.specs.Turning.{AreToldOf, IsTelling, Tells, TellsIn, after_text, is_run, members_text, order_text, stand_text, turn_text};

use crate::comparing::{compare, report_as_told};
use crate::judging::{bad_printout, push_place, push_word};
use crate::reporting::push_leftovers;
use crate::told::Told;
use crate::turn::{Stand, Turn};
use crate::walk::walk;
use console_text::{CommandError, Ended, Output, Source, outcome_of, print_explained, push_text};
use group_task::NodeId;
use node_words::{phase_word, push_group, push_ids};
use std::alloc::{AllocError, Global};
use std::io::{Read, Write};
use trace_check::{Examined, Leftover, Order, Trace, Verdict, examine, is_order};
use trace_text::{TraceFault, read, read_order};

/// Reads a trace, and prints its turns: in the order that is recorded beside it where all entries can be taken in that, else in the order
/// in which the checker takes them. Where no order takes all, the turns that were taken are printed, and what is left with its reason; the
/// ending and what is handed on are then those of `trace`. A text that is no trace is answered as `trace` does.
pub fn turns<R: Read, W: Write>(alloc: Global, input: &mut Source<R>, output: &mut W) -> Ended
    // Promise: `trace --turns` prints the turns of the run that was recorded: in the order that stands beside the trace exactly where all
    // entries can be taken in it, and it says which order it is.
    // Refuses: order_of_the_checker_told, other_order_said_to_be_recorded, every_order_is_recorded, recorded_run_ends_badly.
    // Promise: Each turn is printed with its node, the index of its entry, and how the node stands then: its phase, its group, its
    // coordinator, its members and how many jobs it works on, or that it is down.
    // Refuses: stands_as_before_its_turn, creator_for_the_coordinator, down_where_it_elects, hand_is_empty.
    // Promise: Of a trace that is no run the turns that can be taken are printed, and each entry that is left, and it ends as `trace` does, also
    // where of a turn something else was told than its node tells.
    // Refuses: no_run_ends_as_a_run, nothing_is_left, false_answer_ends_as_a_run.
    ensures prints { Prints AreToldOf (R.remaining input.old.reader) (W.contents output.old) (W.contents output.new) result.ending }
    ensures why { IsVerdictTold (R.remaining input.old.reader) result.ending result.why.items }
    ensures reads { input.old.left ≤ input.new.left + 16777216 }
{
    let outcome = outcome_of(alloc, input, |bytes| tell_text(alloc, &bytes));
    print_explained(alloc, output, outcome)
}

/// What is printed for an input, and what is said of it.
fn tell_text(alloc: Global, text: &[u8]) -> Result<CommandError, AllocError>
    ensures printed { IfOk result (λ explained. AreToldOf text.now (printout_of explained.printout)) }
    ensures why { IfOk result (λ explained. IsReportedAsTold text.now explained.why.items) }
{
    match read(alloc, text) {
        Ok(trace) => {
            let order = read_order(alloc, text)?;
            tell_trace(alloc, &trace, &Told::read(alloc, text)?, &order)
        }
        Err(TraceFault::BadTrace(location)) => {
            let printout = bad_printout(alloc, location)?;
            Ok(printout.without_why(alloc))
        }
        Err(TraceFault::NoMemory) => Err(AllocError),
    }
}

/// What is printed of a trace beside which this order stands, and of what was told.
fn tell_trace(
    alloc: Global,
    trace: &Trace,
    told: &Told,
    order: &Option<Order>,
) -> Result<CommandError, AllocError>
    ensures printed { IfOk result (λ explained. IsTelling (option_map ordered_by order.now) trace.now told.now (printout_of explained.printout)) }
    ensures why { IfOk result (λ explained. IsReportAsTold trace.now told.now explained.why.items) }
{
    let examined = examine(alloc, trace)?;
    let found = compare(alloc, trace, told, &examined)?;
    let why = report_as_told(alloc, trace, &examined, &found)?;
    let text = turns_in(alloc, trace, order, &examined)?;
    let good = is_run(&examined.verdict) && found.is_none();
    Ok(CommandError {
        printout: Output { text, good },
        why,
    })
}

/// The turns in this order, if all entries can be taken in it; else what was taken, and what is left.
fn turns_in(
    alloc: Global,
    trace: &Trace,
    order: &Option<Order>,
    examined: &Examined,
) -> Result<Vec<u8>, AllocError>
    requires { AreTaken trace.now examined.now.verdict examined.now.taken.items }
    ensures { IfOk result (λ text. TellsIn trace.now (option_map ordered_by order.now) examined.now.taken.items examined.now.left.items text.items) }
{
    let Some(order) = order else {
        return told(alloc, trace, &examined.taken, false, &examined.left);
    };
    if is_order(alloc, trace, &order.nodes)? {
        told(alloc, trace, &order.nodes, true, &[])
    } else {
        told(alloc, trace, &examined.taken, false, &examined.left)
    }
}

/// Whether all entries can be taken.
fn is_run(verdict: &Verdict) -> bool
    ensures { result ≡ is_run verdict.now }
{
    match verdict {
        Verdict::Run(_) => true,
        Verdict::NotARun(_, _) => false,
    }
}

/// The text of the turns of an order, and of the entries that are left.
#[tactic(auto, unfolding(crate::specs::Turning::turns_text))]
fn told(
    alloc: Global,
    trace: &Trace,
    order: &[NodeId],
    recorded: bool,
    left: &[Leftover],
) -> Result<Vec<u8>, AllocError>
    requires { IsLegal trace.now (reverse order.now) }
    ensures { IfOk result (λ text. Tells trace.now order.now recorded left.now text.items) }
{
    let turns = walk(alloc, trace, order)?;
    let mut text = Vec::new(alloc);
    push_order(&mut text, recorded)?;
    push_turns(&mut text, &turns)?;
    push_leftovers(alloc, &mut text, trace, left)?;
    push_text(&mut text, "\n")?;
    Ok(text)
}

fn push_order(text: &mut Vec<u8>, recorded: bool) -> Result<(), AllocError>
    ensures { OnOk result (text.new.items ≡ text.old.items ++ order_text recorded) }
{
    push_text(text, if recorded { "recorded" } else { "possible" })
}

fn push_turns(text: &mut Vec<u8>, turns: &[Turn]) -> Result<(), AllocError>
    ensures { OnOk result (text.new.items ≡ text.old.items ++ flat_map turn_text turns.now) }
{
    for turn in turns {
        push_turn(text, turn)?;
    }
    Ok(())
}

#[tactic(auto, unfolding(crate::specs::Turning::turn_text))]
fn push_turn(text: &mut Vec<u8>, turn: &Turn) -> Result<(), AllocError>
    ensures { OnOk result (text.new.items ≡ text.old.items ++ turn_text turn.now) }
{
    push_text(text, "\nturn")?;
    push_place(text, u64::from(turn.node.number()), turn.index as u64)?;
    push_after(text, &turn.stand)
}

/// Adds how a node stands after its turn.
fn push_after(text: &mut Vec<u8>, stand: &Option<Stand>) -> Result<(), AllocError>
    ensures { OnOk result (text.new.items ≡ text.old.items ++ after_text stand.now) }
{
    match stand {
        Some(stand) => push_stand(text, stand),
        None => push_text(text, " Down"),
    }
}

#[tactic(auto, unfolding(crate::specs::Turning::stand_text))]
fn push_stand(text: &mut Vec<u8>, stand: &Stand) -> Result<(), AllocError>
    ensures { OnOk result (text.new.items ≡ text.old.items ++ stand_text stand.now) }
{
    push_text(text, " ")?;
    push_text(text, phase_word(stand.phase))?;
    push_text(text, " ")?;
    push_group(text, stand.group)?;
    push_members(text, stand)
}

/// Adds the coordinator and the members of a node's group, and the number of its jobs in hand.
#[tactic(auto, unfolding(crate::specs::Turning::members_text))]
fn push_members(text: &mut Vec<u8>, stand: &Stand) -> Result<(), AllocError>
    ensures { OnOk result (text.new.items ≡ text.old.items ++ members_text stand.now) }
{
    push_word(text, u64::from(stand.coordinator.number()))?;
    push_text(text, " ")?;
    push_ids(text, stand.members)?;
    push_word(text, stand.in_hand as u64)
}
