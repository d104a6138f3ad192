//! Spellings of messages as they are kept. A packed message tells its message, but for a Ready and a Work, whose bodies are kept beside it.

ghost use Rattle.std.specs.Prelude.{◌≡◌, ◌≢◌, [], ℕ, List, true, IfOk, IfSome, OnOk, OnErr};
ghost use Rattle.group_task.specs.Assignment.{Assignment};
ghost use Rattle.wire_msg.specs.Kinds.{IsShort};
ghost use Rattle.wire_msg.specs.Spelling.{spelling, IsMessage};
ghost use Rattle.message_list.specs.declared.packed_message.PackedWork.{PackedWork as Kept};
ghost use Rattle.message_list.specs.PackedMessages.{is_whole, message_of, short_kept};

use crate::packed_message::{PackedKind, PackedMessage};
use std::alloc::AllocError;
use wire_msg::{Message, Short, encode_into, encode_short_into};

/// Writes the spelling of a packed message's message in place of what `bytes` held. False says that the packed message isn't the whole message.
pub fn spell_letter(bytes: &mut Vec<u8>, packed_message: &PackedMessage) -> Result<bool, AllocError>
    requires ends { packed_message.now.sender ≢ packed_message.now.receiver }
    requires short { IfSome (short_kept packed_message.now.kind packed_message.now) IsShort }
    ensures whole { IfOk result (λ whole. whole ≡ is_whole packed_message.now.kind) }
    ensures spelled { IfOk result (λ whole. whole ≡ true → (tasks : List Assignment) (works : List Kept) (payloads : List ℕ)
        → bytes.new.items ≡ spelling (message_of tasks works payloads packed_message.now)) }
    ensures message { IfOk result (λ whole. whole ≡ true → (tasks : List Assignment) (works : List Kept) (payloads : List ℕ)
        → IsMessage (message_of tasks works payloads packed_message.now)) }
{
    let PackedKind::Short(kind) = packed_message.kind else {
        return Ok(false);
    };
    let short = Short {
        kind,
        answer: packed_message.answer,
        creator: packed_message.creator,
        number: packed_message.number,
    };
    if encode_short_into(bytes, packed_message.sender, packed_message.receiver, short).is_err() {
        return Err(AllocError);
    }
    Ok(true)
}

/// Writes the spelling of a message in place of what `bytes` held, which is left empty where memory runs out.
pub fn spell_message(bytes: &mut Vec<u8>, message: &Message) -> Result<(), AllocError>
    ensures spelled { OnOk result (bytes.new.items ≡ spelling message.now) }
    ensures message { OnOk result (IsMessage message.now) }
    ensures refused { OnErr result (bytes.new.items ≡ []) }
{
    if encode_into(bytes, message).is_err() {
        return Err(AllocError);
    }
    Ok(())
}
