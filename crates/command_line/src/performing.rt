// The commands that read their whole input first.
ghost use Rattle.std.specs.Prelude.{◌≡◌, ◌≤◌, ◌+◌};
ghost use Rattle.console_text.specs.Ends.{Prints, status_of};
ghost use Rattle.command_line.specs.Performed.{IsOutcomeOf, IsSaidOf, IsWhyOf};

use crate::invocation::Batch;
use console_text::{Ended, Source};
use std::alloc::Global;
use std::fs::{File, Files};
use std::io::{Read, Write};
use std::sync::Wait;
use std::thread::Threads;

/// How a command ended, and the exit status of the program.
#[derive(Drop)]
pub struct Performed {
    pub ended: Ended,
    pub status: u8,
}

/// Runs a command over an input and an output.
pub fn perform<T: Threads + Wait + Sync, R: Read, W: Write>(
    rt: &impl Files<File = File>,
    threads: &T,
    alloc: Global,
    batch: &Batch,
    input: &mut Source<R>,
    output: &mut W,
) -> Performed
    ensures prints { Prints (IsOutcomeOf batch.now) (R.remaining input.old.reader) (W.contents output.old) (W.contents output.new) result.ended.ending }
    ensures why { IsWhyOf batch.now (R.remaining input.old.reader) result.ended.ending result.ended.why.items }
    ensures said { IsSaidOf batch.now (R.remaining input.old.reader) (W.contents output.old) (W.contents output.new) result.ended.ending result.ended.why.items }
    ensures status { result.status ≡ status_of result.ended.ending }
    ensures reads { input.old.left ≤ input.new.left + 16777216 }
{
    let ended = match batch {
        Batch::Answer(place) => {
            invite_console::answer(alloc, place.id, place.nodes, input, output)
        }
        Batch::Show => invite_console::show(alloc, input, output),
        Batch::Sim(details) => invite_console::sim(alloc, *details, input, output),
        Batch::Store(path) => store_console::store(rt, alloc, path.as_str(), input, output),
        Batch::Trace(stage) => trace_console::trace(alloc, *stage, input, output),
        Batch::Record => invite_console::record(alloc, input, output),
        Batch::Threads(kind) => { threads_console::threads(threads, alloc, *kind, input, output) }
        Batch::Turns => trace_console::turns(alloc, input, output),
        Batch::Contradiction => trace_console::contradiction(alloc, input, output),
    };
    let status = ended.ending.status();
    Performed { ended, status }
}
