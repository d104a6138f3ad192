//! The command `threads`.

ghost use Rattle.std.specs.Prelude.{◌≡◌, ◌≤◌, ◌+◌, ◌++◌, IfOk, MatchResult, OnOk, codes, decimal, false, vec_len};
ghost use Rattle.group_task.specs.declared.node.TheConstants.{NODES};
ghost use Rattle.console_text.specs.Ends.{printout_of, refused, IsWhy, Prints};
ghost use Rattle.threads_console.specs.Printed.{IsThreading, IsRunPrinted, PrintsRun, fault_text, worker_name};
ghost use Rattle.threads_console.specs.Reasons.{plans_flaw};
ghost use Rattle.threads_console.specs.Scripts.{CanRun};

use crate::kind::TraceKind;
use crate::reading::{Setup, read_plans};
use crate::reasons::bad_plans;
use crate::writing::write_trace;
use console_text::{
    CommandError, Ended, Output, Source, outcome_of, print_explained, push_named_number, push_text,
};
use group_task::NodeId;
use line_words::LineFault;
use node_lock::{Gate, Worker};
use node_threads::{Gathered, ThreadsFault, run_threads};
use std::alloc::{AllocError, Global};
use std::io::{Read, Write};
use std::sync::Wait;
use std::thread::Threads;

/// The gate that lets all pass.
#[derive(Clone, Copy)]
struct Open;

impl Gate for Open {
    ghost may_shut = { λ _ _. false };

    fn reach(&self, _node: NodeId, _worker: Worker) -> bool {
        true
    }

    fn pass(&self, _node: NodeId, _worker: Worker, _index: u64) -> bool {
        true
    }
}

/// Reads plans, runs them on nodes in threads, and prints the trace of the run as one line of JSON, alone or with its order, or why there is
/// none: `unfinished`, with the first node whose workers have more than 65,536 turns and one that has some, or `unpaired`. Its gate lets all
/// pass, so `gate shut` never comes. Where no order is asked for none is made.
pub fn threads<T: Threads + Wait + Sync, R: Read, W: Write>(
    rt: &T,
    alloc: Global,
    kind: TraceKind,
    input: &mut Source<R>,
    output: &mut W,
) -> Ended
    // Promise: What `threads` writes is the text of the trace of a whole run of the plans that were read, or of a fault that has
    // its reason in them, or the first bad line.
    // Also: read_plans.
    // Refuses: entry_left_out, line_of_another_worker, schedule::sizes_swapped, fault_answered_as_another.
    // Promise: Without the order that text is the compact text of an object of `nodes` and `histories` and of nothing else.
    // Refuses: order_printed_unasked.
    ensures prints { Prints (IsThreading kind) (R.remaining input.old.reader) (W.contents output.old) (W.contents output.new) result.ending }
    ensures why { IsWhy plans_flaw (R.remaining input.old.reader) result.ending result.why.items }
    ensures reads { input.old.left ≤ input.new.left + 16777216 }
{
    let outcome = outcome_of(alloc, input, |bytes| run_text(rt, alloc, kind, &bytes));
    print_explained(alloc, output, outcome)
}

/// What `threads` prints for an input, and what is wrong with it. A run that faults has nothing wrong with its input.
fn run_text<T: Threads + Wait + Sync>(
    rt: &T,
    alloc: Global,
    kind: TraceKind,
    input: &[u8],
) -> Result<CommandError, AllocError>
    ensures printed { IfOk result (λ explained. IsThreading kind input.now (printout_of explained.printout)) }
    ensures why { IfOk result (λ explained. explained.why.items ≡ plans_flaw input.now) }
{
    match read_plans(alloc, input) {
        Ok(setup) => {
            let printout = run(rt, alloc, kind, &setup)?;
            Ok(printout.without_why(alloc))
        }
        Err(LineFault::BadLine(number)) => bad_plans(alloc, input, number),
        Err(LineFault::NoMemory) => Err(AllocError),
    }
}

/// What is printed for plans that were read.
fn run<T: Threads + Wait + Sync>(
    rt: &T,
    alloc: Global,
    kind: TraceKind,
    setup: &Setup,
) -> Result<Output, AllocError>
    requires { CanRun setup.now.size setup.now.plans.items }
    ensures { IfOk result (λ printout. PrintsRun kind setup.now.size setup.now.plans.items (printout_of printout)) }
{
    let outcome = run_threads(rt, alloc, setup.size, &setup.plans, &Open);
    print_outcome(alloc, kind, outcome)
}

/// What is printed of a run that ended so.
fn print_outcome(
    alloc: Global,
    kind: TraceKind,
    outcome: Result<Gathered, ThreadsFault>,
) -> Result<Output, AllocError>
    requires { IfOk outcome (λ run. vec_len run.histories ≤ NODES) }
    // Promise: A run that was gathered is printed as its trace, and each fault by its own name: what `run_threads` answered is what is told.
    // Refuses: every_fault_is_unpaired, fault_answered_as_another.
    ensures { IfOk result (λ printout. MatchResult outcome (λ run. IsRunPrinted kind run.histories.items (printout_of printout)) (λ fault. printout_of printout ≡ refused (fault_text fault))) }
{
    match outcome {
        Ok(run) => print_run(alloc, kind, run),
        Err(ThreadsFault::NoMemory) => Err(AllocError),
        Err(fault) => refuse(alloc, fault),
    }
}

/// The line of the trace of a run.
fn print_run(alloc: Global, kind: TraceKind, run: Gathered) -> Result<Output, AllocError>
    requires { vec_len run.histories ≤ NODES }
    ensures { IfOk result (λ printout. IsRunPrinted kind run.histories.items (printout_of printout)) }
{
    let mut text = write_trace(alloc, kind, run)?;
    push_text(&mut text, "\n")?;
    Ok(Output { text, good: true })
}

/// The line that says why there is no trace.
fn refuse(alloc: Global, fault: ThreadsFault) -> Result<Output, AllocError>
    ensures { IfOk result (λ printout. printout_of printout ≡ refused (fault_text fault)) }
{
    let mut text = Vec::new(alloc);
    match fault {
        ThreadsFault::GateShut => push_text(&mut text, "gate shut")?,
        ThreadsFault::Unfinished(node, worker) => push_unfinished(&mut text, node, worker)?,
        ThreadsFault::NoMemory => push_text(&mut text, "no memory")?,
        ThreadsFault::Unpaired => push_text(&mut text, "unpaired")?,
    }
    push_text(&mut text, "\n")?;
    Ok(Output { text, good: false })
}

fn push_unfinished(text: &mut Vec<u8>, node: NodeId, worker: Worker) -> Result<(), AllocError>
    ensures { OnOk result (text.new.items ≡ text.old.items ++ (codes "unfinished " ++ decimal node ++ codes " " ++ worker_name worker)) }
{
    push_named_number(text, "unfinished ", u64::from(node.number()))?;
    push_text(text, " ")?;
    push_worker(text, worker)
}

fn push_worker(text: &mut Vec<u8>, worker: Worker) -> Result<(), AllocError>
    ensures { OnOk result (text.new.items ≡ text.old.items ++ worker_name worker) }
{
    match worker {
        Worker::Intake => push_text(text, "intake"),
        Worker::Clock => push_text(text, "clock"),
        Worker::Operator => push_text(text, "operator"),
    }
}
