//! What is wrong with an input, as standard error says it.

ghost use Rattle.std.specs.Prelude.{◌≡◌, ◌++◌, IfOk, OnOk, codes, decimal};
ghost use Rattle.line_words.specs.Lines.{line_numbered, lines_of};
ghost use Rattle.console_text.specs.Ends.{printout_of, refused};
ghost use Rattle.console_text.specs.Reasons.{line_head};
ghost use Rattle.invite_console.specs.Reasons.{act_flaw, flaw_text, hex_flaw, stream_flaw};

use console_text::{CommandError, Output, bad_line, line_reason, push_text, push_unknown};
use line_words::{first_word, line_numbered};
use schedule::{Flaw, flaw_in};
use std::alloc::{AllocError, Global};

/// What is printed for a schedule of which the line of this number can't be read, where it is known that it can't.
pub(crate) fn bad_schedule(
    alloc: Global,
    input: &[u8],
    number: u64,
) -> Result<CommandError, AllocError>
    ensures printed { IfOk result (λ explained. printout_of explained.printout ≡ refused (codes "bad line " ++ decimal number)) }
    ensures why { IfOk result (λ explained. explained.why.items ≡ line_head number ++ act_flaw (line_numbered number (lines_of input.now))) }
{
    let line = line_numbered(input, number);
    let flaw = flaw_in(alloc, line)?;
    let mut why = line_reason(alloc, number)?;
    push_flaw(&mut why, line, flaw)?;
    Ok(CommandError {
        printout: bad_line(alloc, number)?,
        why,
    })
}

/// Adds what is wrong with a line of a schedule.
fn push_flaw(text: &mut Vec<u8>, line: &[u8], flaw: Flaw) -> Result<(), AllocError>
    ensures { OnOk result (text.new.items ≡ text.old.items ++ flaw_text line.now flaw) }
{
    match flaw {
        Flaw::Nothing => push_text(text, "there is no line cluster NODES SLOTS"),
        Flaw::Cluster => push_text(
            text,
            "not of the form cluster NODES SLOTS, or not the first line",
        ),
        Flaw::NoAct => push_unknown(text, "no such act: ", first_word(line)),
        Flaw::Fields(verb) => {
            push_text(text, "not of the form ")?;
            push_text(text, verb.word())?;
            push_text(text, verb.fields())
        }
        Flaw::Misplaced => push_text(
            text,
            "an act in front of the line cluster NODES SLOTS, or behind 65536 acts",
        ),
    }
}

/// What is printed for hex lines of which the line of this number can't be read.
pub(crate) fn bad_hex(alloc: Global, number: u64) -> Result<CommandError, AllocError>
    ensures printed { IfOk result (λ explained. printout_of explained.printout ≡ refused (codes "bad line " ++ decimal number)) }
    ensures why { IfOk result (λ explained. explained.why.items ≡ line_head number ++ hex_flaw) }
{
    let mut why = line_reason(alloc, number)?;
    push_text(&mut why, "neither pairs of hex digits nor a dash")?;
    Ok(CommandError {
        printout: bad_line(alloc, number)?,
        why,
    })
}

/// What is printed for a stream of messages, with what is wrong with it.
pub(crate) fn with_reason(alloc: Global, printout: Output) -> Result<CommandError, AllocError>
    ensures printed { IfOk result (λ explained. printout_of explained.printout ≡ printout_of printout) }
    ensures why { IfOk result (λ explained. explained.why.items ≡ stream_flaw (printout_of printout)) }
{
    let mut why = Vec::new(alloc);
    push_text(&mut why, stream_word(&printout))?;
    Ok(CommandError { printout, why })
}

fn stream_word(printout: &Output) -> &'static str
    ensures { result.now ≡ stream_flaw (printout_of printout.now) }
{
    if printout.good {
        ""
    } else if printout.text.ends_with(b"malformed\n".as_slice()) {
        "a message can't be read"
    } else {
        "a message is for another node, or names one outside of the cluster"
    }
}
