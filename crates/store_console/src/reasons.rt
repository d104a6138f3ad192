//! What is wrong with a line of the input, as standard error says it.

ghost use Rattle.std.specs.Prelude.{◌≡◌, ◌++◌, IfOk, OnOk, MatchOption, None, Some};
ghost use Rattle.line_words.specs.Lines.{line_numbered, lines_of};
ghost use Rattle.console_text.specs.Reasons.{line_head};
ghost use Rattle.store_console.specs.Reasons.{form_of, name_flaw, request_flaw};

use console_text::{line_reason, push_text, push_unknown};
use line_words::{first_word, is_word, line_numbered};
use std::alloc::{AllocError, Global};

/// Why the line of this number can't be read, where it is known that it can't.
pub fn reason(alloc: Global, input: &[u8], number: u64) -> Result<Vec<u8>, AllocError>
    ensures { IfOk result (λ text. text.items ≡ line_head number ++ request_flaw (line_numbered number (lines_of input.now))) }
{
    let mut text = line_reason(alloc, number)?;
    push_flaw(&mut text, first_word(line_numbered(input, number)))?;
    Ok(text)
}

/// Adds what is wrong with a line that begins with this word.
fn push_flaw(text: &mut Vec<u8>, name: &[u8]) -> Result<(), AllocError>
    ensures { OnOk result (text.new.items ≡ text.old.items ++ name_flaw name.now) }
{
    match form(name) {
        Some(form) => {
            push_text(text, "not of the form ")?;
            push_text(text, form)
        }
        None => push_unknown(text, "no such request: ", name),
    }
}

/// How the request of this name is written.
fn form(name: &[u8]) -> Option<&'static str>
    ensures { MatchOption result (form_of name.now ≡ None) (λ form. form_of name.now ≡ Some form.now) }
{
    if is_word(name, "format") {
        Some("format SLOTS")
    } else if is_word(name, "mount") {
        Some("mount")
    } else if is_word(name, "raise") {
        Some("raise")
    } else if is_word(name, "put") {
        Some("put QUEUE HEX [P]")
    } else if is_word(name, "done") {
        Some("done ID")
    } else if is_word(name, "compact") {
        Some("compact")
    } else if is_word(name, "list") {
        Some("list")
    } else {
        None
    }
}
