//! The command.

ghost use Rattle.std.specs.Prelude.{◌≡◌, ◌≤◌, ◌+◌, [], ◌∷◌, List, IfOk, OnOk, None, false, true};
ghost use Rattle.console_text.specs.Ends.{printout_of, Prints};
ghost use Rattle.store_console.specs.declared.request.RequestLine.{RequestLine as Line};
ghost use Rattle.store_console.specs.Replies.{fails_after};
ghost use Rattle.store_console.specs.Session.{Answers, GoesOn, IsSession, IsSessionWhy, IsSessionWith, IsTold};

use crate::acting::reply;
use crate::explaining::push_why;
use crate::reading::read_requests;
use crate::reasons::reason;
use crate::reply::Reply;
use crate::request::{Request, RequestLine};
use crate::text::push_reply;
use console_text::{CommandError, Ended, Output, Source, bad_line, outcome_of, print_explained};
use file_disk::{FileDisk, OpenFault};
use job_journal::JournalFault;
use line_words::LineFault;
use node_store::{NodeStore, StoreFault};
use std::alloc::{AllocError, Global};
use std::fs::{File, Files};
use std::io::{Read, Write};
use std::path::AsPath;

/// Reads lines that ask something of the store in the file of this path, does what they ask, and prints what each was answered. The whole
/// input is read first; where a line can't be read, nothing is done. What was done stays done where memory runs out in a mounting, or
/// printing fails.
pub fn store<P: AsPath, R: Read, W: Write>(
    rt: &impl Files<File = File>,
    alloc: Global,
    path: P,
    input: &mut Source<R>,
    output: &mut W,
) -> Ended
    // Promise: What is printed is what the requests of the input were answered, one after the other, nothing being mounted at
    // first; where a line can't be read, its number alone is printed and nothing is done.
    // Refuses: bad_line_passed_over, priority_0_named, priority_not_listed, last_reply_dropped.
    // Promise: Where nothing is mounted, each change and `list` is refused `Broken`.
    // Refuses: list_of_nothing.
    // Promise: A change is refused exactly where the store's definitions say, and then nothing changes; else it is made and the
    // next number is answered, or a call failed, which is counted, and what is shown stays.
    // Refuses: done_answered_with_its_id, compaction_answered_as_a_failure.
    // Promise: `format` leaves nothing mounted, a refused `mount` too.
    // Refuses: format_leaves_it_mounted, mounted_after_a_failure, failed_mounting_forgotten.
    ensures prints { Prints IsSession (R.remaining input.old.reader) (W.contents output.old) (W.contents output.new) result.ending }
    // Promise: Standard error says of each line for which the file can't be made, opened or read which of these it was, by the line's
    // number, in the order of the answers; of an input that can't be read what is wrong with its first bad line; else nothing.
    // Also: why.
    // Refuses: reason_of_the_first_line_for_all, denied_is_not_found, reasons_run_together.
    ensures told { IsTold (R.remaining input.old.reader) (W.contents output.old) (W.contents output.new) result.ending result.why.items }
    ensures why { IsSessionWhy (R.remaining input.old.reader) result.ending result.why.items }
    ensures reads { input.old.left ≤ input.new.left + 16777216 }
{
    let outcome = outcome_of(alloc, input, |bytes| store_to(rt, alloc, &path, &bytes));
    print_explained(alloc, output, outcome)
}

/// What `store` prints for an input, and what standard error says of it.
fn store_to<P: AsPath>(
    rt: &impl Files<File = File>,
    alloc: Global,
    path: &P,
    input: &[u8],
) -> Result<CommandError, AllocError>
    ensures { IfOk result (λ explained. IsSessionWith input.now (printout_of explained.printout) explained.why.items) }
{
    match read_requests(alloc, input) {
        Ok(requests) => answer(rt, alloc, path, &requests),
        Err(LineFault::BadLine(number)) => Ok(CommandError {
            printout: bad_line(alloc, number)?,
            why: reason(alloc, input, number)?,
        }),
        Err(LineFault::NoMemory) => Err(AllocError),
    }
}

/// What the requests are answered, one after the other, and what is said of them.
fn answer<P: AsPath>(
    rt: &impl Files<File = File>,
    alloc: Global,
    path: &P,
    requests: &[RequestLine],
) -> Result<CommandError, AllocError>
    ensures good { IfOk result (λ told. told.printout.good ≡ true) }
    ensures answers { IfOk result (λ told. Answers false None requests.now [] told.printout.text.items told.why.items) }
{
    let mut text = Vec::new(alloc);
    let mut why = Vec::new(alloc);
    let mut mounted = None;
    let mut has_failed = false;
    let mut left = requests;
    while let Some((request, behind)) = left.split_first() {
        answer_one(
            rt,
            alloc,
            path,
            request,
            &mut mounted,
            &mut has_failed,
            &mut text,
            &mut why,
        )?;
        left = behind;
    }
    Ok(CommandError {
        printout: Output { text, good: true },
        why,
    })
}

/// Adds what one request is answered, and what is said of it.
#[tactic(auto, using(crate::proofs::Sessions::one_more))]
fn answer_one<P: AsPath>(
    rt: &impl Files<File = File>,
    alloc: Global,
    path: &P,
    line: &RequestLine,
    mounted: &mut Option<NodeStore<FileDisk>>,
    has_failed: &mut bool,
    text: &mut Vec<u8>,
    why: &mut Vec<u8>,
) -> Result<(), AllocError>
    ensures { (lines left : List Line) → GoesOn lines has_failed.old mounted.old (line.now ∷ left) text.old.items why.old.items
        → OnOk result (GoesOn lines has_failed.new mounted.new left text.new.items why.new.items) }
{
    let reply = reply(rt, alloc, path, mounted, *has_failed, &line.request)?;
    *has_failed = fails_after(*has_failed, &line.request, reply);
    push_why(alloc, why, line.number, reply)?;
    push_reply(text, mounted, reply)
}

/// Whether the device has failed since the file was last made, behind a request and its reply.
fn fails_after(has_failed: bool, request: &Request, reply: Reply) -> bool
    ensures { result ≡ fails_after has_failed request.now reply }
{
    match (request, reply) {
        (Request::Format(_), Reply::Done) => false,
        (_, Reply::Refused(JournalFault::Device)) => true,
        (_, Reply::Unmounted(StoreFault::Device)) => true,
        (_, Reply::Barred(OpenFault::Device(_))) => true,
        _ => has_failed,
    }
}
