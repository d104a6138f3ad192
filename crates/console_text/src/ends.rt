ghost use Rattle.std.specs.Prelude.{◌≡◌};

use std::alloc::{AllocError, Global};
use thiserror::Error;

/// How a command ended.
#[derive(Clone, Copy, Debug, PartialEq, Eq)]
pub enum ExitKind {
    /// All was printed, and nothing was wrong.
    Done,
    /// What was printed says what was wrong.
    Refused,
    /// Memory ran out; `no memory` was printed, and nothing else.
    NoMemory,
    /// A read failed, or the input had no end within the reads that are made of it. Nothing was printed.
    Unread,
    /// A write failed. How much went out is not known.
    Unwritten,
}

/// Why a command has nothing to print for an input.
#[derive(Clone, Copy, Debug, Drop, PartialEq, Eq, Error)]
pub enum IoTrouble {
    #[error("no memory")]
    NoMemory,
    /// A read failed, or the input had no end within the reads that are made of it.
    #[error("the input can't be read")]
    Unread,
}

/// What a command prints, and whether it ends with status 0.
#[derive(Debug, Drop)]
pub struct Output {
    pub text: Vec<u8>,
    pub good: bool,
}

/// What a command prints for an input, and what is wrong with the input: a line without its line feed, empty where nothing is.
#[derive(Debug, Drop)]
pub struct CommandError {
    pub printout: Output,
    pub why: Vec<u8>,
}

/// How a command ended. Where it was refused, `why` says what was wrong with the input.
#[derive(Debug, Drop)]
pub struct Ended {
    pub ending: ExitKind,
    pub why: Vec<u8>,
}

impl Output {
    ghost use Rattle.std.specs.Prelude.{◌≡◌, []};
    ghost use Rattle.console_text.specs.Ends.{printout_of};

    /// What is printed where nothing is wrong with the input.
    pub fn without_why(self, alloc: Global) -> CommandError
        ensures printout { printout_of result.printout ≡ printout_of self }
        ensures why { result.why.items ≡ [] }
    {
        CommandError {
            printout: self,
            why: Vec::new(alloc),
        }
    }
}

impl From<AllocError> for IoTrouble {
    ghost use Rattle.console_text.specs.declared.ends.IoTrouble.TheVariants.{NoMemory};

    ghost from_gives = { λ _ trouble. trouble ≡ NoMemory };

    fn from(_error: AllocError) -> IoTrouble {
        IoTrouble::NoMemory
    }
}

impl ExitKind {
    ghost use Rattle.console_text.specs.Ends.{status_of};

    /// The exit status of the program.
    pub fn status(self) -> u8
        // Promise: The exit status is 0 where all was printed and nothing was wrong, else 1.
        // Refuses: done_with_status_one.
        ensures { result ≡ status_of self }
    {
        match self {
            ExitKind::Done => 0,
            ExitKind::Refused | ExitKind::NoMemory | ExitKind::Unread | ExitKind::Unwritten => 1,
        }
    }
}
