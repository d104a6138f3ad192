//! A run, printed page by page: it may have far more text than the run itself takes.

ghost use Rattle.std.specs.Prelude.{◌≡◌, ◌≤◌, ◌<◌, OnOk, length};
ghost use Rattle.console_text.specs.Pages.{Hands};
ghost use Rattle.invite_console.specs.Acts.{sent_text};
ghost use Rattle.invite_console.specs.Kept.{between, run_text, AreKept};

use crate::acts::push_message;
use crate::running::Simulation;
use console_text::{Unprinted, print_full, print_part, push_text};
use message_list::MessageList;
use std::io::Write;

/// Prints the line of each act of a run, and then the nodes at its end.
pub(crate) fn print_run<W: Write>(
    output: &mut W,
    page: &mut Vec<u8>,
    bytes: &mut Vec<u8>,
    names: bool,
    run: &Simulation,
) -> Result<(), Unprinted>
    requires { AreKept run.now.kept.items (length run.now.world.net.sent) (length run.now.text.items) }
    ensures { OnOk result (Hands (W.contents output.old) page.old.items (W.contents output.new) page.new.items (run_text names run.now.kept.items run.now.text.items run.now.world.net.sent)) }
{
    let messages = run.world.net().sent();
    let mut sent = 0;
    let mut written = 0;
    for number in 0..run.kept.len() {
        let kept = run.kept[number];
        print_part(output, page, text_in(&run.text, written, kept.written))?;
        print_sent(output, page, bytes, names, messages, sent, kept.sent)?;
        push_text(page, "\n")?;
        sent = kept.sent;
        written = kept.written;
    }
    print_part(output, page, text_in(&run.text, written, run.text.len()))?;
    Ok(())
}

/// The part of a text from a place on, up to another.
fn text_in(text: &[u8], from: usize, to: usize) -> &[u8]
    requires order { from ≤ to }
    requires within { to ≤ length text.now }
    ensures { result.now ≡ between from to text.now }
{
    &text[from..to]
}

/// Prints the messages from a place on, up to another, each with its number, which is its place.
fn print_sent<W: Write>(
    output: &mut W,
    page: &mut Vec<u8>,
    bytes: &mut Vec<u8>,
    names: bool,
    messages: &MessageList,
    from: usize,
    to: usize,
) -> Result<(), Unprinted>
    requires order { from ≤ to }
    requires within { to ≤ length messages.now.messages }
    ensures { OnOk result (Hands (W.contents output.old) page.old.items (W.contents output.new) page.new.items (sent_text names from (between from to messages.now.messages))) }
{
    for at in from..to {
        push_message(page, bytes, messages, at, names)?;
        print_full(output, page)?;
    }
    Ok(())
}
