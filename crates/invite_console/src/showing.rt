ghost use Rattle.std.specs.Prelude.{◌≡◌, ◌≤◌, ◌+◌, ◌++◌, [], IfOk, OnOk};
ghost use Rattle.console_text.specs.Ends.{line, printout_of, IsFixed, IsWhy, Prints};
ghost use Rattle.invite_console.specs.Reasons.{show_flaw};
ghost use Rattle.invite_console.specs.Show.{body_text, fields_text, message_text, rest_text, shown_of, show_text};

use crate::lines::hex_lines;
use crate::reasons::{bad_hex, with_reason};
use console_text::{
    CommandError, Ended, Output, Source, outcome_of, print_explained, push_named_number,
    push_number, push_text,
};
use line_words::LineFault;
use node_words::{kind_word, push_answer, push_ids, push_named, push_work_of};
use std::alloc::{AllocError, Global};
use std::io::{Read, Write};
use wire_msg::{Body, Message, decode_front};

/// Reads a stream of messages in hex lines, and prints them, a line of text for each. Bytes of an unfinished frame are counted
/// behind the last.
pub fn show<R: Read, W: Write>(alloc: Global, input: &mut Source<R>, output: &mut W) -> Ended
    // Promise: What `show` writes is the stated text of the bytes that were read: a line for each message, `rest N` behind the
    // last, `malformed` in place of what follows a bad frame; bad lines and memory as above.
    // Refuses: show_without_its_input, node_words::wrong_word_shown, node_words::yes_for_no, group_not_shown, short_rest_not_shown.
    ensures prints { Prints (IsFixed show_text) (R.remaining input.old.reader) (W.contents output.old) (W.contents output.new) result.ending }
    ensures why { IsWhy show_flaw (R.remaining input.old.reader) result.ending result.why.items }
    ensures reads { input.old.left ≤ input.new.left + 16777216 }
{
    let outcome = outcome_of(alloc, input, |bytes| show_to(alloc, bytes));
    print_explained(alloc, output, outcome)
}

/// What `show` prints for an input, and what is wrong with it. The text is written in the input's memory.
fn show_to(alloc: Global, mut input: Vec<u8>) -> Result<CommandError, AllocError>
    ensures printed { IfOk result (λ explained. printout_of explained.printout ≡ show_text input.items) }
    ensures why { IfOk result (λ explained. explained.why.items ≡ show_flaw input.items) }
{
    match hex_lines(alloc, &input) {
        Ok(bytes) => {
            input.clear();
            let printout = show_stream(&bytes, input)?;
            with_reason(alloc, printout)
        }
        Err(LineFault::BadLine(number)) => bad_hex(alloc, number),
        Err(LineFault::NoMemory) => Err(AllocError),
    }
}

/// The messages of a stream as text, written into `text`, which is empty.
fn show_stream(bytes: &[u8], mut text: Vec<u8>) -> Result<Output, AllocError>
    requires { text.items ≡ [] }
    ensures { IfOk result (λ printout. printout_of printout ≡ shown_of bytes.now) }
{
    let mut message = Message::blank();
    let mut left = bytes;
    loop {
        match decode_front(left, &mut message) {
            Ok(Some(after)) => {
                push_message(&mut text, &message)?;
                left = after;
            }
            Ok(None) => {
                push_rest(&mut text, left.len() as u64)?;
                return Ok(Output { text, good: true });
            }
            Err(_) => {
                push_text(&mut text, "malformed\n")?;
                return Ok(Output { text, good: false });
            }
        }
    }
}

/// Adds a line on so many bytes of an unfinished frame, if there are any.
fn push_rest(text: &mut Vec<u8>, rest: u64) -> Result<(), AllocError>
    ensures { OnOk result (text.new.items ≡ text.old.items ++ rest_text rest) }
{
    if rest == 0 {
        return Ok(());
    }
    push_named_number(text, "rest ", rest)?;
    push_text(text, "\n")
}

/// Adds a message as a line of text.
fn push_message(text: &mut Vec<u8>, message: &Message) -> Result<(), AllocError>
    ensures { OnOk result (text.new.items ≡ text.old.items ++ line (message_text message.now)) }
{
    push_shown(text, message)?;
    push_text(text, "\n")
}

/// Adds what a message says.
pub(crate) fn push_shown(text: &mut Vec<u8>, message: &Message) -> Result<(), AllocError>
    ensures { OnOk result (text.new.items ≡ text.old.items ++ message_text message.now) }
{
    push_number(text, u64::from(message.sender().number()))?;
    push_named_number(text, ">", u64::from(message.receiver().number()))?;
    push_text(text, " ")?;
    push_body(text, message.body())
}

fn push_body(text: &mut Vec<u8>, body: &Body) -> Result<(), AllocError>
    ensures { OnOk result (text.new.items ≡ text.old.items ++ body_text body.now) }
{
    push_text(text, kind_word(body))?;
    push_named(text, body.group())?;
    push_fields(text, body)
}

fn push_fields(text: &mut Vec<u8>, body: &Body) -> Result<(), AllocError>
    ensures { OnOk result (text.new.items ≡ text.old.items ++ fields_text body.now) }
{
    match body {
        Body::Ready(task) => {
            push_text(text, " members ")?;
            push_ids(text, task.members())
        }
        Body::Work { id, work, .. } => {
            push_named_number(text, " ", *id)?;
            push_text(text, " ")?;
            push_work_of(text, work)
        }
        Body::Done(id) => push_named_number(text, " ", *id),
        _ => push_answer(text, body),
    }
}
