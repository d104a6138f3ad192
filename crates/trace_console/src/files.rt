//! A run whose records stand in several files.
ghost use Rattle.std.specs.Prelude.{◌≡◌, ◌<◌, ◌≤◌, ◌+◌, ◌++◌, IfOk, OnOk, None, Ok};
ghost use Rattle.console_text.specs.Ends.{printout_of, refused};
ghost use Rattle.group_task.specs.declared.node.TheConstants.{NODES};
ghost use Rattle.trace_console.specs.Files.{IsFilesPrintout, IsFilesReport, IsFilesTold, IsReportBehind, PrintsFiles, bad_text, run_of, spot_behind, spot_text, too_many_text};
ghost use Rattle.trace_console.specs.Judged.{bad_trace};
ghost use Rattle.trace_console.specs.Answers.{IsJudgementAsTold, IsPrintedWith};

use crate::judging::{Stage, bad_printout, judge};
use crate::told::Told;
use console_text::{CommandError, Ended, IoTrouble, print_explained, push_number, push_text};
use group_task::NODES;
use std::alloc::{AllocError, Global};
use std::io::Write;
use trace_check::{History, Trace};
use trace_text::{Location, TraceFault, read};

/// A file of a run: its text is a trace of some of the run's nodes, often of one.
#[derive(Debug, Drop)]
pub struct TraceFile<'a> {
    pub name: &'a str,
    pub text: Vec<u8>,
}

/// Prints the verdict on a run whose records stand in these files, as `trace` does on that of one text: the nodes of each file come behind
/// those of the files before it. Where a file is no trace, that is what is printed, with the place of its first bad entry in the run, and
/// what is handed on names the file.
pub fn trace_files<W: Write>(
    alloc: Global,
    stage: Stage,
    files: &[TraceFile<'_>],
    output: &mut W,
) -> Ended
    // Promise: Of a run whose records stand in several files the trace that is judged has the histories of all files, in their order; of
    // files that are no traces the first is named, with the place in it.
    // Refuses: later_files_passed_over, bad_file_counted_from_itself.
    // Promise: What each file says that its nodes told is compared, as `trace` compares it.
    // Also: judge_files, Told::append_nodes.
    // Refuses: told_of_later_files_passed_over, told_of_the_first_nodes.
    ensures prints { PrintsFiles stage files.now (W.contents output.old) (W.contents output.new) result.ending }
    ensures why { IsFilesTold files.now result.ending result.why.items }
{
    let outcome = judge_files(alloc, stage, files).map_err(IoTrouble::from);
    print_explained(alloc, output, outcome)
}

/// What is printed of files, and what is said of them.
fn judge_files(
    alloc: Global,
    stage: Stage,
    files: &[TraceFile<'_>],
) -> Result<CommandError, AllocError>
    ensures printed { IfOk result (λ explained. IsFilesPrintout stage files.now (printout_of explained.printout)) }
    ensures why { IfOk result (λ explained. IsFilesReport files.now explained.why.items) }
{
    let mut histories = Vec::new(alloc);
    let mut told = Told::nothing(alloc);
    for file in files {
        match read(alloc, &file.text) {
            Ok(trace) => {
                told.append_nodes(alloc, histories.len(), Told::read(alloc, &file.text)?)?;
                histories.append(&mut trace.into_histories())?;
            }
            Err(TraceFault::BadTrace(location)) => {
                return bad_file(alloc, file.name, histories.len(), location);
            }
            Err(TraceFault::NoMemory) => return Err(AllocError),
        }
    }
    judge_all(alloc, stage, histories, &told)
}

/// What is printed of the histories of all files.
fn judge_all(
    alloc: Global,
    stage: Stage,
    histories: Vec<History>,
    told: &Told,
) -> Result<CommandError, AllocError>
    ensures printed { IfOk result (λ explained. IsPrintedWith (IsJudgementAsTold stage) (λ d. d ≡ told.now) (run_of (Ok histories.items)) (printout_of explained.printout)) }
    ensures why { IfOk result (λ explained. IsReportBehind (λ d. d ≡ told.now) (Ok histories.items) explained.why.items) }
{
    if usize::from(NODES) < histories.len() {
        return too_many(alloc);
    }
    judge(alloc, stage, &Trace::new(histories), told)
}

/// What is printed where the files have too many nodes.
fn too_many(alloc: Global) -> Result<CommandError, AllocError>
    ensures printed { IfOk result (λ explained. printout_of explained.printout ≡ refused (bad_trace None)) }
    ensures why { IfOk result (λ explained. explained.why.items ≡ too_many_text) }
{
    let mut why = Vec::new(alloc);
    push_text(&mut why, "the files have more than ")?;
    push_number(&mut why, u64::from(NODES))?;
    push_text(&mut why, " nodes")?;
    Ok(CommandError {
        printout: bad_printout(alloc, None)?,
        why,
    })
}

/// What is printed where a file is no trace: the place of its first bad entry, where it has one, counts all nodes of the files before it.
fn bad_file(
    alloc: Global,
    name: &str,
    before: usize,
    location: Option<Location>,
) -> Result<CommandError, AllocError>
    ensures printed { IfOk result (λ explained. printout_of explained.printout ≡ refused (bad_trace (spot_behind before location))) }
    ensures why { IfOk result (λ explained. explained.why.items ≡ bad_text name.now location) }
{
    let mut why = Vec::new(alloc);
    push_text(&mut why, name)?;
    push_text(&mut why, ": ")?;
    push_spot(&mut why, location)?;
    let printout = bad_printout(alloc, spot_behind(before, location)?)?;
    Ok(CommandError { printout, why })
}

/// The place of an entry in a run, behind so many nodes.
fn spot_behind(before: usize, location: Option<Location>) -> Result<Option<Location>, AllocError>
    ensures { IfOk result (λ place. place ≡ spot_behind before location) }
{
    let Some(Location { node, index }) = location else {
        return Ok(None);
    };
    // the histories before it, and its own, stand in memory
    let Some(node) = before.checked_add(node) else {
        return Err(AllocError);
    };
    Ok(Some(Location { node, index }))
}

/// Adds which entry of a file is bad.
fn push_spot(text: &mut Vec<u8>, location: Option<Location>) -> Result<(), AllocError>
    ensures { OnOk result (text.new.items ≡ text.old.items ++ spot_text location) }
{
    let Some(Location { node, index }) = location else {
        return push_text(text, "this is no trace");
    };
    push_text(text, "history ")?;
    push_number(text, node as u64)?;
    push_text(text, ": entry ")?;
    push_number(text, index as u64)?;
    push_text(text, " can't be read")
}
