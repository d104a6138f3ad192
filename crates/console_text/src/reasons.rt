//! What standard error says of an input that can't be read.

ghost use Rattle.std.specs.Prelude.{◌≡◌, ◌++◌, IfOk, OnOk};
ghost use Rattle.console_text.specs.Reasons.{line_head, byte_shown, bytes_shown, word_shown};

use crate::words::{push_hex, push_number, push_text};
use std::alloc::{AllocError, Global};

/// So many bytes of a word are shown at most.
const MOST_SHOWN: usize = 40;

/// The front of a reason: which line can't be read.
pub fn line_reason(alloc: Global, number: u64) -> Result<Vec<u8>, AllocError>
    ensures { IfOk result (λ text. text.items ≡ line_head number) }
{
    let mut text = Vec::new(alloc);
    push_text(&mut text, "line ")?;
    push_number(&mut text, number)?;
    push_text(&mut text, ": ")?;
    Ok(text)
}

/// Adds a word of an input, as it may stand on a terminal: a byte that isn't printed by itself stands in hex, and a long word is cut.
#[tactic(auto, unfolding(crate::specs::Reasons::word_shown))]
fn push_word(text: &mut Vec<u8>, word: &[u8]) -> Result<(), AllocError>
    ensures { OnOk result (text.new.items ≡ text.old.items ++ word_shown word.now) }
{
    match word.get(..MOST_SHOWN) {
        Some(front) if MOST_SHOWN < word.len() => {
            push_bytes(text, front)?;
            push_text(text, "..")
        }
        _ => push_bytes(text, word),
    }
}

/// Adds what is said of a word that nothing is named by, and the word.
pub fn push_unknown(text: &mut Vec<u8>, what: &str, word: &[u8]) -> Result<(), AllocError>
    ensures { OnOk result (text.new.items ≡ text.old.items ++ (what.now ++ word_shown word.now)) }
{
    push_text(text, what)?;
    push_word(text, word)
}

fn push_bytes(text: &mut Vec<u8>, bytes: &[u8]) -> Result<(), AllocError>
    ensures { OnOk result (text.new.items ≡ text.old.items ++ bytes_shown bytes.now) }
{
    for byte in bytes {
        push_byte(text, *byte)?;
    }
    Ok(())
}

fn push_byte(text: &mut Vec<u8>, byte: u8) -> Result<(), AllocError>
    ensures { OnOk result (text.new.items ≡ text.old.items ++ byte_shown byte) }
{
    if 32 < byte && byte < 127 {
        return Ok(text.push(byte)?);
    }
    push_text(text, "\\x")?;
    push_hex(text, &[byte])
}
