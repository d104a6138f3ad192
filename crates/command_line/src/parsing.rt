// From the words of the process to what they ask for, or to what is printed in place of that.
ghost use Rattle.std.specs.Prelude.{◌≡◌, ◌⊎◌, IfOk, IsErr, IsErrAnd, map, string_bytes};
ghost use Rattle.clap.specs.Words.{app_of, kind_of};
ghost use Rattle.command_line.specs.Mistakes.{AreRead, IsAskedOrTold};

use crate::asking;
use crate::invocation::Invocation;
use crate::mistake::mistake_in;
use crate::status::UNREADABLE;
use clap::error::ErrorKind;
use clap::{ArgMatches, Command};
use std::alloc::Global;
use std::io;
use std::io::Write;

/// Reads the words of the process by these commands. Where they ask for no work, prints what is wrong with them, the help or the version, and
/// answers the exit status.
pub(crate) fn read_words<'a, W: Write>(
    alloc: Global,
    command: Command<'a>,
    words: &'a [String],
    output: &mut W,
) -> io::Result<Result<Invocation, u8>>
    // Promise: Words that ask for work are taken as what `clap` reads of them, and nothing is printed; of words that `clap` takes and that have an argument
    // out of its range just that is printed, and the exit status is 2; of others the exit status is 2, or 0 for the version.
    // Also: asked_or_told, unread.
    // Refuses: mistake_told_with_status_zero, words_passed_over.
    ensures { IfOk result (AreRead (app_of command.entry) (map string_bytes words.now) (W.contents output.old) (W.contents output.new)) }
{
    match command.try_get_matches_from(words) {
        Ok(matches) => {
            let Some((name, arguments)) = matches.subcommand() else {
                return Ok(Err(UNREADABLE));
            };
            asked_or_told(alloc, name, arguments, output)
        }
        Err(error) => unread(words, error, output),
    }
}

/// What the command of this name asks for. Where an argument is out of its range, prints which, and answers the exit status.
fn asked_or_told<W: Write>(
    alloc: Global,
    name: &str,
    arguments: &ArgMatches<'_>,
    output: &mut W,
) -> io::Result<Result<Invocation, u8>>
    // Promise: Of a command with an argument out of its range that argument is printed, and no more, and the exit status is 2; of any other nothing is printed.
    // Also: mistake_in.
    // Refuses: another_mistake_told, stride_told_as_first.
    ensures { IfOk result (IsAskedOrTold name.now arguments.now (W.contents output.old) (W.contents output.new)) }
{
    if let Some(invocation) = asking::invocation(alloc, name, arguments)? {
        return Ok(Ok(invocation));
    }
    let mistake = mistake_in(name, arguments);
    writeln!(
        output,
        "error: {mistake}\n\nFor more information, try '--help'."
    )?;
    Ok(Err(UNREADABLE))
}

/// Prints what `clap` found in place of a command, and answers the exit status.
fn unread<W: Write>(
    words: &[String],
    error: clap::Error,
    output: &mut W,
) -> io::Result<Result<Invocation, u8>>
    ensures memory { kind_of error ≡ ErrorKind.OutOfMemory → IsErr result }
    ensures told { IfOk result (λ read. IsErrAnd read (λ code. (code ≡ 0) ⊎ (code ≡ 2))) }
{
    if error.kind() == ErrorKind::OutOfMemory {
        return Err(io::Error::from(io::ErrorKind::OutOfMemory));
    }
    let is_version = error.kind() == ErrorKind::DisplayVersion;
    let is_mistake = error.use_stderr();
    write!(output, "{error}")?;
    if is_mistake {
        hint(words, output)?;
    }
    Ok(Err(if is_version { 0 } else { UNREADABLE }))
}

/// Where a file was named for a command that reads standard input, says so.
fn hint<W: Write>(words: &[String], output: &mut W) -> io::Result<()> {
    if words.len() < 3 {
        return Ok(());
    }
    let name = words[1].as_str();
    if matches!(name, "show" | "sim" | "record" | "threads") {
        writeln!(
            output,
            "\n{name} reads standard input, as in: invite {name} < FILE"
        )?;
    }
    Ok(())
}
