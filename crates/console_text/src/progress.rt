//! How far a text went out.

ghost use Rattle.std.specs.Prelude.{◌≡◌, true, false};
ghost use Rattle.std.specs.Io.KnownBytes.{Appends, Keeps};

use std::io::Write;

/// What came of the writes and flushes of an output: whether any failed, and whether a flush came last. Only those of this module
/// change it.
#[derive(Drop)]
pub(crate) struct Progress {
    failed: bool,
    flushed: bool,
}

impl Progress {
    /// Nothing was written yet.
    pub(crate) fn new() -> Progress
        ensures { (result.failed ≡ false) × (result.flushed ≡ false) }
    {
        Progress {
            failed: false,
            flushed: false,
        }
    }
}

/// Writes a text. False where the write failed: then nobody knows how much of it went out.
pub(crate) fn write_to<W: Write>(output: &mut W, progress: &mut Progress, text: &[u8]) -> bool
    ensures written { result ≡ true → Appends (W.contents output.old) (W.contents output.new) text.now }
    ensures whole { result ≡ true → progress.new.failed ≡ progress.old.failed }
    ensures failed { result ≡ false → progress.new.failed ≡ true }
    ensures unflushed { progress.new.flushed ≡ false }
{
    let written = output.write_all(text).is_ok();
    progress.failed = progress.failed || !written;
    progress.flushed = false;
    written
}

/// Flushes what was written. False where the flush failed.
pub(crate) fn flush_to<W: Write>(output: &mut W, progress: &mut Progress) -> bool
    ensures bytes { Keeps (W.contents output.old) (W.contents output.new) }
    ensures whole { result ≡ true → progress.new.failed ≡ progress.old.failed }
    ensures failed { result ≡ false → progress.new.failed ≡ true }
    ensures flushed { progress.new.flushed ≡ result }
{
    let flushed = output.flush().is_ok();
    progress.failed = progress.failed || !flushed;
    progress.flushed = flushed;
    flushed
}
