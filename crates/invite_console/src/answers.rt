ghost use Rattle.std.specs.Prelude.{◌≡◌, ◌<◌, ◌≤◌, ◌+◌, ℕ, List, [], IfOk, None};
ghost use Rattle.group_task.specs.declared.node.TheConstants.{NODES};
ghost use Rattle.wire_msg.specs.Envelope.{Envelope};
ghost use Rattle.node_core.specs.declared.event.Event.TheVariants.{Deliver};
ghost use Rattle.node_core.specs.Start.{alone};
ghost use Rattle.node_core.specs.Wants.{wants_of};
ghost use Rattle.console_text.specs.Ends.{printout_of, IsFixed, IsWhy, Prints};
ghost use Rattle.invite_console.specs.Reasons.{answer_flaw};
ghost use Rattle.invite_console.specs.Answer.{answer_text, answers_to, first_count, state_after};

use crate::lines::hex_lines;
use crate::reasons::{bad_hex, with_reason};
use crate::session::Session;
use console_text::{CommandError, Ended, Output, Source, outcome_of, print_explained};
use group_task::NodeId;
use line_words::LineFault;
use std::alloc::{AllocError, Global};
use std::io::{Read, Write};
use wire_msg::{Message, decode_front};

/// Reads a stream of messages in hex lines, and prints what node `id` of `nodes` answers to them, a line of hex for each message.
/// The node is Normal in its own group of count 1, has no disk and no jobs, and no timer of its own fires.
pub fn answer<R: Read, W: Write>(
    alloc: Global,
    id: NodeId,
    nodes: u8,
    input: &mut Source<R>,
    output: &mut W,
) -> Ended
    requires within { id < nodes }
    requires limit { nodes ≤ NODES }
    // Promise: What `answer` writes is the stated text of the bytes that were read: a line of hex for each message that the node
    // sends, in the order of the stream; at a stranger's message `refused Stranger`, and nothing after it.
    // Refuses: answer_without_its_input, stranger_is_answered, answers_said_again.
    // Promise: `malformed` stands behind the answers before a bad frame, nothing for an unfinished frame; `bad line N` alone for
    // the first line that can't be read; `no memory` alone; the status goes with it.
    // Refuses: malformed_is_not_printed, unfinished_frame_refused, last_line_dropped, lines_are_miscounted, odd_line_passed_over,
    // digits_of_a_piece_dropped.
    ensures prints { Prints (IsFixed (answer_text id nodes)) (R.remaining input.old.reader) (W.contents output.old) (W.contents output.new) result.ending }
    // Promise: What is said to be wrong with an input is said of its first line that can't be read, by the number of that line; of
    // a stream, of what its last line says.
    // Also: show, sim, record, store_console::store, threads_console::threads.
    // Refuses: reason_of_another_line, store_console::form_of_another_request, console_text::why_is_lost, line_words::line_before,
    // threads_console::reason_of_the_whole_text, threads_console::reason_without_its_worker,
    // threads_console::form_of_another_order.
    ensures why { IsWhy (answer_flaw id nodes) (R.remaining input.old.reader) result.ending result.why.items }
    // Promise: At most 16,777,216 reads are made of an input.
    // Also: show, sim, record, command_line::store.
    // Refuses: sim_reads_once_more, answer_reads_once_more, show_reads_once_more, store_console::store_reads_once_more.
    ensures reads { input.old.left ≤ input.new.left + 16777216 }
{
    let outcome = outcome_of(alloc, input, |bytes| answer_to(alloc, id, nodes, bytes));
    print_explained(alloc, output, outcome)
}

/// What `answer` prints for an input, and what is wrong with it. The text is written in the input's memory.
fn answer_to(
    alloc: Global,
    id: NodeId,
    nodes: u8,
    mut input: Vec<u8>,
) -> Result<CommandError, AllocError>
    requires within { id < nodes }
    requires limit { nodes ≤ NODES }
    ensures printed { IfOk result (λ explained. printout_of explained.printout ≡ answer_text id nodes input.items) }
    ensures why { IfOk result (λ explained. explained.why.items ≡ answer_flaw id nodes input.items) }
{
    match hex_lines(alloc, &input) {
        Ok(bytes) => {
            input.clear();
            let printout = answers_to(alloc, id, nodes, &bytes, input)?;
            with_reason(alloc, printout)
        }
        Err(LineFault::BadLine(number)) => bad_hex(alloc, number),
        Err(LineFault::NoMemory) => Err(AllocError),
    }
}

/// The answers to the messages of a stream, written into `text`, which is empty.
fn answers_to(
    alloc: Global,
    id: NodeId,
    nodes: u8,
    bytes: &[u8],
    text: Vec<u8>,
) -> Result<Output, AllocError>
    requires within { id < nodes }
    requires limit { nodes ≤ NODES }
    requires empty { text.items ≡ [] }
    ensures { IfOk result (λ printout. printout_of printout ≡ answers_to id nodes bytes.now) }
{
    let mut session = Session::new(alloc, id, nodes, text)?;
    let mut message = Message::blank();
    let mut left = bytes;
    loop {
        match decode_front(left, &mut message) {
            Ok(Some(after)) => {
                if !session.take_next(&message)? {
                    return Ok(session.ended(false));
                }
                left = after;
            }
            Ok(None) => return Ok(session.ended(true)),
            Err(_) => {
                session.print("malformed\n")?;
                return Ok(session.ended(false));
            }
        }
    }
}

/// No message needs the disk, whatever messages the node took before: so no new group starts here, and no job is made or done.
pub fn needs_no_disk()
    // Promise: No message needs the disk in `answer`: no new group starts, no job is made or done.
    ensures { (id nodes : ℕ) (before : List Envelope) (m : Envelope) → wants_of id [] (Deliver m) (state_after nodes id before (alone id first_count)) ≡ None }
{}
