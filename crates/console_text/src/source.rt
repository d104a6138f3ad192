//! The input of a command, which keeps the error that it failed with.

ghost use Rattle.std.specs.Prelude.{◌≡◌, ◌<◌, ◌≤◌, ◌+◌, IsOk, IsErr, IfErr, Some, None};
ghost use Rattle.std.specs.Io.{ReadsAtMost};
ghost use Rattle.std.specs.Io.KnownBytes.{ReadConsumes};
ghost use Rattle.console_text.specs.declared.source.TheConstants.{MAX_READS};

use std::io;
use std::io::{ErrorKind, Read};
use std::marker::Model;

/// At most so many reads are made of an input. The read that finds its end is one of them.
pub const MAX_READS: u32 = 16_777_216;

/// An input of which at most so many reads are made: one that has no end gives an error then.
#[derive(Debug, Drop)]
pub struct Source<R: Read> {
    reader: R,
    left: u32,
    fault: Option<io::Error>,
}

impl<R: Read> Model for Source<R> {
    ghost use Rattle.console_text.specs.Input.{Feed};

    ghost Value = { Feed R };

    ghost view = { λ a. record { reader = a.reader; left = a.left; fault = a.fault } };

    ghost use Rattle.std.specs.Prelude.{◌≤◌};
    ghost use Rattle.console_text.specs.declared.source.TheConstants.{MAX_READS};

    ghost invariant = { λ a. a.left ≤ MAX_READS };
}

impl<R: Read> Source<R> {
    /// An input that nothing was read of.
    pub fn new(reader: R) -> Source<R>
        ensures reader { result.reader ≡ reader }
        ensures left { result.left ≡ MAX_READS }
        ensures fault { result.fault ≡ None }
    {
        Source {
            reader,
            left: MAX_READS,
            fault: None,
        }
    }

    /// The error of the last read that failed. None where no read failed, also where too many were asked for.
    pub fn fault(&self) -> Option<io::Error>
        ensures { result ≡ self.now.fault }
    {
        self.fault
    }
}

impl<R: Read> Read for Source<R> {
    ghost remaining = { λ a. R.remaining a.reader };

    fn read(&mut self, buf: &mut [u8]) -> io::Result<usize>
        // Promise: Each read of a `Source` takes one of those that are left; with none left it reaches nothing, and fails.
        // Refuses: reads_not_counted, read_past_the_last.
        ensures bound { ReadsAtMost result buf.new }
        ensures bytes { ReadConsumes (R.remaining self.old.reader) (R.remaining self.new.reader) result buf.new }
        ensures most { self.old.left ≤ MAX_READS }
        ensures counted { self.old.left ≤ self.new.left + 1 }
        ensures taken { 0 < self.old.left → self.new.left + 1 ≡ self.old.left }
        ensures spent { self.old.left ≡ 0 → IsErr result × (self.new ≡ self.old) }

        // A read that fails leaves its error, and one that doesn't leaves what was there.
        // Promise: A read of a `Source` that failed leaves its error, which `fault` answers.
        // Also: Source::fault.
        // Refuses: failed_read_keeps_no_error.
        ensures failed { 0 < self.old.left → IfErr result (λ error. self.new.fault ≡ Some error) }
        ensures read { IsOk result → self.new.fault ≡ self.old.fault }
    {
        if self.left == 0 {
            return Err(io::Error::from(ErrorKind::Other));
        }
        self.left -= 1;
        let result = self.reader.read(buf);
        if let Err(error) = &result {
            self.fault = Some(*error);
        }
        result
    }
}
