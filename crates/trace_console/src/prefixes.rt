//! A run as it comes: lines bring entries, and an empty one asks for the verdict on all that came.
ghost use Rattle.std.specs.Prelude.{◌≡◌, ◌≤◌, ◌+◌, [], IfErr, IfOk, IsTrue, OnOk};
ghost use Rattle.console_text.specs.Ends.{ending_of, printout_of};
ghost use Rattle.trace_text.specs.Wholes.{IsFaultOf};
ghost use Rattle.trace_console.specs.declared.judging.Stage.TheVariants.{Ongoing};
ghost use Rattle.trace_console.specs.Answers.{IsJudgementAsTold};
ghost use Rattle.trace_console.specs.Prefixes.{BringsTo, EndsLine, EndsPiece, HasNoFeed, Joins, JudgesPrefixes, PrintsMade, fits, piece_of};

use crate::appending::append_all;
use crate::comparing::{compare, printout_as_told};
use crate::judging::{Stage, bad_printout};
use crate::told::Told;
use console_text::{ExitKind, IoTrouble, MAX_READS, Output, Source, print};
use memchr::memchr;
use std::alloc::{AllocError, Global};
use std::io::{Read, Write};
use std::mem;
use trace_check::{Trace, examine};
use trace_text::{TraceFault, read};

/// How many bytes one read may give.
const PIECE: usize = 65_536;

/// What came of a run by now.
#[derive(Drop)]
pub(crate) struct Prefix {
    pub(crate) trace: Trace,
    /// What was told of its entries.
    pub(crate) told: Told,
    /// Whether each verdict that was asked for is that of a run, or of one that may go on.
    pub(crate) good: bool,
}

/// Reads entries of a run as they come, and prints the verdict on all that came where that is asked for. A line is a trace of all nodes, whose entries
/// come behind those before; an empty line asks. The verdict is that of `trace` of a run that may go on. A line that is no trace, or one of another
/// number of nodes than the first, is answered as `trace` answers it, and ends it. Of a last line that isn't whole nothing comes.
pub fn judge_prefixes<R: Read, W: Write>(
    alloc: Global,
    input: &mut Source<R>,
    output: &mut W,
) -> ExitKind
    // Promise: At each line of `judge` that asks, the verdict on all entries that came before it is printed, as `trace --ongoing` prints that
    // on their trace, and nothing else is; each line is taken once, in its order, whatever pieces the input comes in.
    // Also: take_bytes, take_line, tell, verdict_on, take_piece, append_all.
    // Refuses: prefix_verdict_of_the_whole, last_piece_judged_alone, prefix_judged_as_over, end_of_a_line_lost.
    // Promise: What the lines of `judge` say that nodes told is compared, as `trace --ongoing` compares it: what a line tells is told of the
    // entries that it brings.
    // Also: take_piece, join, Told::append_entries.
    // Refuses: told_of_a_line_passed_over, told_at_the_entries_before.
    // Promise: A line that is no trace of as many nodes as the first ends `judge`, answered as `trace` answers it, and nothing behind it is
    // taken; at the end of its input the status is 0 exactly where no verdict was `NotARun`.
    // Also: take_piece, ending_of.
    // Refuses: piece_of_other_nodes_taken, bad_verdict_forgotten.
    ensures judges { JudgesPrefixes (R.remaining input.old.reader) (R.remaining input.new.reader) (W.contents output.old) (W.contents output.new) result }
    ensures reads { input.old.left ≤ input.new.left + 16777216 }
{
    let mut prefix = Prefix {
        trace: Trace::new(Vec::new(alloc)),
        told: Told::nothing(alloc),
        good: true,
    };
    let mut unread = Vec::new(alloc);
    let mut piece = [0u8; PIECE];
    for _read in 0..MAX_READS {
        let Ok(count) = input.read(&mut piece) else {
            return ExitKind::Unread;
        };
        if count == 0 {
            return ending_of(prefix.good);
        }
        if let Some(ending) = take_bytes(alloc, &mut prefix, &mut unread, &piece[..count], output) {
            return ending;
        }
    }
    ExitKind::Unread
}

/// How it ends at the end of the input.
fn ending_of(good: bool) -> ExitKind
    ensures { result ≡ ending_of good }
{
    if good {
        ExitKind::Done
    } else {
        ExitKind::Refused
    }
}

/// Takes what was read behind the beginning of a line, and keeps what is behind the last whole line. Gives the ending, where it ends.
fn take_bytes<W: Write>(
    alloc: Global,
    prefix: &mut Prefix,
    unread: &mut Vec<u8>,
    piece: &[u8],
    output: &mut W,
) -> Option<ExitKind>
    requires { HasNoFeed unread.old.items }
    ensures { EndsPiece prefix.old unread.old.items piece.now prefix.new unread.new.items (W.contents output.old) (W.contents output.new) result }
{
    let mut left = piece;
    while let Some(end) = memchr(b'\n', left) {
        let Ok(()) = unread.extend_from_slice(&left[..end]) else {
            return Some(print_made(output, Err(AllocError)));
        };
        if let Some(ending) = take_line(alloc, prefix, unread, output) {
            return Some(ending);
        }
        unread.clear();
        let (_, behind) = left.split_at(end + 1);
        left = behind;
    }
    let Ok(()) = unread.extend_from_slice(left) else {
        return Some(print_made(output, Err(AllocError)));
    };
    None
}

/// Takes a line: an empty one asks for the verdict on what came, and any other brings entries. Gives the ending, where it ends.
fn take_line<W: Write>(
    alloc: Global,
    prefix: &mut Prefix,
    line: &[u8],
    output: &mut W,
) -> Option<ExitKind>
    ensures { EndsLine prefix.old line.now prefix.new (W.contents output.old) (W.contents output.new) result }
{
    if line.is_empty() {
        return tell(alloc, prefix, output);
    }
    match take_piece(alloc, prefix, line) {
        Ok(()) => None,
        Err(TraceFault::BadTrace(location)) => {
            Some(print_made(output, bad_printout(alloc, location)))
        }
        Err(TraceFault::NoMemory) => Some(print_made(output, Err(AllocError))),
    }
}

/// Prints the verdict on what came. Gives the ending, where that fails.
fn tell<W: Write>(alloc: Global, prefix: &mut Prefix, output: &mut W) -> Option<ExitKind>
    ensures { EndsLine prefix.old [] prefix.new (W.contents output.old) (W.contents output.new) result }
{
    match print_made(output, verdict_on(alloc, prefix)) {
        ExitKind::Done => None,
        ExitKind::Refused => {
            prefix.good = false;
            None
        }
        ExitKind::NoMemory => Some(ExitKind::NoMemory),
        ExitKind::Unread => Some(ExitKind::Unread),
        ExitKind::Unwritten => Some(ExitKind::Unwritten),
    }
}

/// What is printed of what came, which may go on.
fn verdict_on(alloc: Global, prefix: &Prefix) -> Result<Output, AllocError>
    ensures { IfOk result (λ printout. IsJudgementAsTold Ongoing prefix.now.trace prefix.now.told (printout_of printout)) }
{
    let examined = examine(alloc, &prefix.trace)?;
    let found = compare(alloc, &prefix.trace, &prefix.told, &examined)?;
    printout_as_told(alloc, Stage::Ongoing, &examined, &found)
}

/// Prints a text, or that there was no memory for it.
fn print_made<W: Write>(output: &mut W, made: Result<Output, AllocError>) -> ExitKind
    ensures { PrintsMade made (W.contents output.old) (W.contents output.new) result }
{
    match made {
        Ok(printout) => print(output, Ok(printout)),
        Err(AllocError) => print(output, Err(IoTrouble::NoMemory)),
    }
}

/// Adds the entries that a line brings behind those that came, and what it tells of them.
fn take_piece(alloc: Global, prefix: &mut Prefix, line: &[u8]) -> Result<(), TraceFault>
    ensures came { OnOk result (BringsTo prefix.old line.now prefix.new) }
    ensures fault { IfErr result (λ fault. IsFaultOf (piece_of prefix.old.trace line.now) fault) }
{
    let piece = read(alloc, line)?;
    let nodes = prefix.trace.nodes();
    if nodes != 0 && piece.nodes() != nodes {
        return Err(TraceFault::BadTrace(None));
    }
    match join(alloc, prefix, piece, line) {
        Ok(()) => Ok(()),
        Err(AllocError) => Err(TraceFault::NoMemory),
    }
}

/// Adds the entries of a line behind those that came, and what it tells of them.
fn join(alloc: Global, prefix: &mut Prefix, piece: Trace, line: &[u8]) -> Result<(), AllocError>
    requires { IsTrue (fits prefix.old.trace piece) }
    ensures { OnOk result (Joins prefix.old line.now piece prefix.new) }
{
    let told = Told::read(alloc, line)?;
    if prefix.trace.nodes() == 0 {
        prefix.trace = piece;
        prefix.told = told;
        return Ok(());
    }
    let came = mem::replace(&mut prefix.trace, Trace::new(Vec::new(alloc)));
    let mut histories = came.into_histories();
    prefix.told.append_entries(alloc, &histories, &told)?;
    append_all(alloc, &mut histories, piece.histories())?;
    prefix.trace = Trace::new(histories);
    Ok(())
}
