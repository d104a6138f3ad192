//! The output of a command, which keeps the error that it failed with.

ghost use Rattle.std.specs.Prelude.{◌≡◌, IsOk, IfErr, OnOk, Some, None};
ghost use Rattle.std.specs.Io.{WritesAtMost};
ghost use Rattle.std.specs.Io.KnownBytes.{Appends, Keeps, WriteAppends};

use std::io;
use std::io::Write;
use std::marker::Model;

/// An output that keeps the error of the last write or flush that failed.
#[derive(Debug, Drop)]
pub struct Sink<W: Write> {
    writer: W,
    fault: Option<io::Error>,
}

impl<W: Write> Model for Sink<W> {
    ghost use Rattle.console_text.specs.Output.{Drain};

    ghost Value = { Drain W };

    ghost view = { λ a. record { writer = a.writer; fault = a.fault } };
}

impl<W: Write> Sink<W> {
    /// An output that nothing was written to.
    pub fn new(writer: W) -> Sink<W>
        ensures { result ≡ record { writer = writer; fault = None } }
    {
        Sink {
            writer,
            fault: None,
        }
    }

    /// The error of the last write or flush that failed.
    pub fn fault(&self) -> Option<io::Error>
        ensures { result ≡ self.now.fault }
    {
        self.fault
    }
}

impl<W: Write> Write for Sink<W> {
    ghost contents = { λ a. W.contents a.writer };

    fn write(&mut self, buf: &[u8]) -> io::Result<usize>
        ensures bound { WritesAtMost result buf.now }
        ensures bytes { WriteAppends (W.contents self.old.writer) (W.contents self.new.writer) result buf.now }
        // Promise: A write or a flush of a `Sink` that failed leaves its error, which `fault` answers; one that didn't leaves what
        // was there.
        // Also: written, Sink::fault, Sink::flush.
        // Refuses: failed_write_keeps_no_error.
        ensures failed { IfErr result (λ error. self.new.fault ≡ Some error) }
        ensures written { IsOk result → self.new.fault ≡ self.old.fault }
    {
        let result = self.writer.write(buf);
        if let Err(error) = &result {
            self.fault = Some(*error);
        }
        result
    }

    fn flush(&mut self) -> io::Result<()>
        ensures bytes { Keeps (W.contents self.old.writer) (W.contents self.new.writer) }
        ensures failed { IfErr result (λ error. self.new.fault ≡ Some error) }
        ensures flushed { IsOk result → self.new.fault ≡ self.old.fault }
    {
        let result = self.writer.flush();
        if let Err(error) = &result {
            self.fault = Some(*error);
        }
        result
    }
}
