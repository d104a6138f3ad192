ghost use Rattle.std.specs.Prelude.{◌≡◌, ◌++◌, IfOk, codes, decimal};
ghost use Rattle.console_text.specs.Ends.{HandsOn, PrintsIt, PrintsExplained, printout_of, refused};
ghost use Rattle.console_text.specs.Output.{TellsProgress};

use crate::ends::{CommandError, Ended, ExitKind, IoTrouble, Output};
use crate::progress::{Progress, flush_to, write_to};
use crate::words::{push_number, push_text};
use std::alloc::{AllocError, Global};
use std::io::Write;

/// Prints what a command came to, in one write, and nothing else.
pub fn print<W: Write>(output: &mut W, outcome: Result<Output, IoTrouble>) -> ExitKind
    // Promise: What a command came to is written, and nothing else: its text, `no memory` where memory ran out, nothing where the
    // input couldn't be read; how it ended goes with it.
    // Refuses: refusal_ends_well.
    ensures { PrintsIt outcome (W.contents output.old) (W.contents output.new) result }
{
    print_to(output, &mut Progress::new(), outcome)
}

/// The same, while the progress of its writes and flushes is kept.
fn print_to<W: Write>(
    output: &mut W,
    progress: &mut Progress,
    outcome: Result<Output, IoTrouble>,
) -> ExitKind
    ensures prints { PrintsIt outcome (W.contents output.old) (W.contents output.new) result }
    // Promise: A text is told as unwritten only where a write or a flush of the output failed, and as written only where none did
    // and a flush came last.
    // Also: print.
    // Refuses: unwritten_though_written, never_flushed.
    ensures told { TellsProgress progress.old progress.new result }
{
    let (text, ending) = match &outcome {
        Ok(printout) if printout.good => (printout.text.as_slice(), ExitKind::Done),
        Ok(printout) => (printout.text.as_slice(), ExitKind::Refused),
        Err(IoTrouble::NoMemory) => (b"no memory\n".as_slice(), ExitKind::NoMemory),
        Err(IoTrouble::Unread) => return ExitKind::Unread,
    };
    if write_to(output, progress, text) && flush_to(output, progress) {
        return ending;
    }
    ExitKind::Unwritten
}

/// Prints what a command came to, as `print` does, and hands on what was wrong with the input.
pub fn print_explained<W: Write>(
    alloc: Global,
    output: &mut W,
    outcome: Result<CommandError, IoTrouble>,
) -> Ended
    ensures prints { PrintsExplained outcome (W.contents output.old) (W.contents output.new) result.ending }
    ensures why { HandsOn outcome result.why.items }
{
    match outcome {
        Ok(explained) => {
            let CommandError { printout, why } = explained;
            Ended {
                ending: print(output, Ok(printout)),
                why,
            }
        }
        Err(trouble) => Ended {
            ending: print(output, Err(trouble)),
            why: Vec::new(alloc),
        },
    }
}

/// What a command prints where the line of this number can't be read.
pub fn bad_line(alloc: Global, number: u64) -> Result<Output, AllocError>
    ensures { IfOk result (λ printout. printout_of printout ≡ refused (codes "bad line " ++ decimal number)) }
{
    let mut text = Vec::new(alloc);
    push_text(&mut text, "bad line ")?;
    push_number(&mut text, number)?;
    push_text(&mut text, "\n")?;
    Ok(Output { text, good: false })
}
