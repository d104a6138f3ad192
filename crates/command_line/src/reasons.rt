// What standard error says of how a command ended.
use console_text::{Ended, ExitKind, MAX_READS};
use std::io;
use std::io::Write;

/// Why a command didn't end well. What was wrong with an input the command wrote itself: a line, and more of them where entries are left.
#[derive(Drop)]
pub enum Reason {
    Input(Vec<u8>),
    NoMemory,
    /// A read failed with this error; with none, the input had no end within the reads that are made of it.
    Unread(Option<io::Error>),
    Unwritten(Option<io::Error>),
}

/// Why the command didn't end well, where it didn't, or which entries of a run that goes on wait. What is wrong with a text that is no trace is
/// printed, and isn't said again.
pub fn reason_of(
    ended: Ended,
    unread: Option<io::Error>,
    unwritten: Option<io::Error>,
) -> Option<Reason> {
    let Ended { ending, why } = ended;
    match ending {
        ExitKind::Done | ExitKind::Refused => {
            if why.is_empty() {
                None
            } else {
                Some(Reason::Input(why))
            }
        }
        ExitKind::NoMemory => Some(Reason::NoMemory),
        ExitKind::Unread => Some(Reason::Unread(unread)),
        ExitKind::Unwritten => Some(Reason::Unwritten(unwritten)),
    }
}

/// Says to standard error why.
pub fn explain<E: Write>(errors: &mut E, reason: Reason) -> io::Result<()> {
    match reason {
        Reason::Input(line) => {
            errors.write_all(b"invite: ")?;
            errors.write_all(&line)?;
            errors.write_all(b"\n")
        }
        Reason::NoMemory => writeln!(errors, "invite: no memory"),
        Reason::Unread(Some(error)) => writeln!(errors, "invite: can't read: {error}"),
        Reason::Unread(None) => writeln!(
            errors,
            "invite: can't read: the input has no end within {MAX_READS} reads"
        ),
        Reason::Unwritten(Some(error)) => writeln!(errors, "invite: can't write: {error}"),
        Reason::Unwritten(None) => writeln!(errors, "invite: can't write"),
    }
}
