//! The command `sim`: a schedule in, what each act did and the nodes at its end out.

ghost use Rattle.std.specs.Prelude.{◌≡◌, ◌≤◌, ◌+◌, length, true, Some, None, Ok};
ghost use Rattle.schedule.specs.Limits.{IsWithinLimits};
ghost use Rattle.schedule.specs.Text.{script};
ghost use Rattle.console_text.specs.Ends.{IsWhy, Prints};
ghost use Rattle.invite_console.specs.Kept.{run_text, AreKept};
ghost use Rattle.invite_console.specs.Reasons.{schedule_flaw};
ghost use Rattle.invite_console.specs.Sim.{IsSimPrintout, PrintsScript};

use crate::details::Details;
use crate::printing::print_run;
use crate::reasons::bad_schedule;
use crate::running::{Simulation, run_schedule};
use console_text::{
    Ended, ExitKind, IoTrouble, Source, new_page, print, print_explained, print_page, read_source,
};
use line_words::LineFault;
use schedule::{Schedule, read_schedule};
use std::alloc::Global;
use std::io::{Read, Write};
use wire_msg::BODY_CAPACITY;

/// So many bytes the longest spelling of a message has.
const LONGEST_SPELLING: usize = BODY_CAPACITY + 6;

/// Reads a schedule, runs it on a simulated cluster, and prints a line for each act and then one for each node.
pub fn sim<R: Read, W: Write>(
    alloc: Global,
    details: Details,
    input: &mut Source<R>,
    output: &mut W,
) -> Ended
    // Promise: What `sim` writes is the text of some run of the acts that were read: a line for each act, in order, and then the
    // nodes; the laws of every run of a schedule (`runs::every_schedule`) hold of this run.
    // Refuses: sim_without_its_input, acts_counted_from_one, lines_run_together, message_misnumbered, neighbour_printed,
    // nodes_left_out, refusal_answered_as_done, hand_in_its_own_order, count_of_a_job_for_its_id.
    // Promise: With `--names` each message is printed by name, and with `--nodes` the nodes as they are before each act, of the
    // same run; for a text with a line that can't be read, `bad line N` alone.
    // Refuses: nodes_not_asked_for.
    ensures prints { Prints (IsSimPrintout details) (R.remaining input.old.reader) (W.contents output.old) (W.contents output.new) result.ending }
    ensures why { IsWhy schedule_flaw (R.remaining input.old.reader) result.ending result.why.items }
    ensures reads { input.old.left ≤ input.new.left + 16777216 }
{
    match read_source(alloc, input) {
        Ok(bytes) => sim_to(alloc, details, bytes, output),
        Err(trouble) => print_explained(alloc, output, Err(trouble)),
    }
}

/// Prints what `sim` prints for the bytes of an input. Their memory is the run's, once they are read.
fn sim_to<W: Write>(alloc: Global, details: Details, input: Vec<u8>, output: &mut W) -> Ended
    ensures prints { Prints (IsSimPrintout details) (Some input.items) (W.contents output.old) (W.contents output.new) result.ending }
    ensures why { IsWhy schedule_flaw (Some input.items) result.ending result.why.items }
{
    match read_schedule(alloc, &input) {
        Ok(schedule) => {
            let ending = simulate(alloc, details, &schedule, input, output);
            Ended {
                ending,
                why: Vec::new(alloc),
            }
        }
        Err(LineFault::BadLine(number)) => match bad_schedule(alloc, &input, number) {
            Ok(explained) => print_explained(alloc, output, Ok(explained)),
            Err(_) => print_explained(alloc, output, Err(IoTrouble::NoMemory)),
        },
        Err(LineFault::NoMemory) => print_explained(alloc, output, Err(IoTrouble::NoMemory)),
    }
}

/// Runs a schedule in the memory of its input, and prints its run.
fn simulate<W: Write>(
    alloc: Global,
    details: Details,
    schedule: &Schedule,
    input: Vec<u8>,
    output: &mut W,
) -> ExitKind
    requires { IsWithinLimits schedule.now.size schedule.now.acts.items }
    ensures { Prints (λ _ printout. PrintsScript details (Ok (script schedule.now.size schedule.now.acts.items)) printout) None (W.contents output.old) (W.contents output.new) result }
{
    match run_schedule(alloc, details, schedule, input) {
        Ok(run) => print_pages(alloc, output, details.names, &run),
        Err(_) => print(output, Err(IoTrouble::NoMemory)),
    }
}

/// Prints a run. All memory for it is taken first, so that nothing is printed where there is none.
fn print_pages<W: Write>(alloc: Global, output: &mut W, names: bool, run: &Simulation) -> ExitKind
    requires { AreKept run.now.kept.items (length run.now.world.net.sent) (length run.now.text.items) }
    ensures { Prints (λ _ outcome. outcome ≡ record { text = run_text names run.now.kept.items run.now.text.items run.now.world.net.sent; good = true }) None
        (W.contents output.old) (W.contents output.new) result }
{
    let Ok(mut page) = new_page(alloc) else {
        return print(output, Err(IoTrouble::NoMemory));
    };
    let Ok(mut bytes) = Vec::with_capacity(alloc, LONGEST_SPELLING) else {
        return print(output, Err(IoTrouble::NoMemory));
    };
    if print_run(output, &mut page, &mut bytes, names, run).is_err() {
        return ExitKind::Unwritten;
    }
    if print_page(output, &mut page).is_err() || output.flush().is_err() {
        return ExitKind::Unwritten;
    }
    ExitKind::Done
}
