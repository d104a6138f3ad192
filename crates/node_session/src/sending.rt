// The messages of a call, as lines.
ghost use Rattle.std.specs.Prelude.{◌≡◌, ◌++◌, All, OnOk};
ghost use Rattle.wire_msg.specs.Spelling.{IsMessage};
ghost use Rattle.node_session.specs.Text.{send_line, send_lines};

use console_text::{push_hex, push_named_number, push_text};
use std::alloc::AllocError;
use wire_msg::{Message, encode_into};

/// Adds a line for each message. `bytes` is room for a spelling.
pub(crate) fn push_messages(
    text: &mut Vec<u8>,
    bytes: &mut Vec<u8>,
    messages: &[Message],
) -> Result<(), AllocError>
    ensures text { OnOk result (text.new.items ≡ text.old.items ++ send_lines messages.now) }
    ensures messages { OnOk result (All IsMessage messages.now) }
{
    for message in messages {
        push_message(text, bytes, message)?;
    }
    Ok(())
}

/// Adds the line of a message. That it has a spelling, its type says.
fn push_message(
    text: &mut Vec<u8>,
    bytes: &mut Vec<u8>,
    message: &Message,
) -> Result<(), AllocError>
    ensures text { OnOk result (text.new.items ≡ text.old.items ++ send_line message.now) }
    ensures message { OnOk result (IsMessage message.now) }
{
    if encode_into(bytes, message).is_err() {
        return Err(AllocError);
    }
    push_named_number(text, "send ", u64::from(message.receiver().number()))?;
    push_text(text, " ")?;
    push_hex(text, bytes)?;
    push_text(text, "\n")
}
