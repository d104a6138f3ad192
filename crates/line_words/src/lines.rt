ghost use Rattle.std.specs.Prelude.{◌≡◌, MatchOption, ◌∷◌, [], ◌++◌, false, true, IfOk, option_map};
ghost use Rattle.line_words.specs.Lines.{bytes_of, line_numbered, lines_of, CutsLine};

use crate::digits::decode_pairs;
use memchr::memchr;
use std::alloc::{AllocError, Global};
use thiserror::Error;

/// Why lines were not read.
#[derive(Clone, Copy, Debug, PartialEq, Eq, Error)]
pub enum LineFault {
    /// The line of this number can't be read. All lines count, from 1 on.
    #[error("line {0} can't be read")]
    BadLine(u64),
    /// Memory ran out.
    #[error("out of memory")]
    NoMemory,
}

impl From<AllocError> for LineFault {
    ghost use Rattle.line_words.specs.declared.lines.LineFault.TheVariants.{NoMemory};

    ghost from_gives = { λ _ fault. fault ≡ NoMemory };

    fn from(_error: AllocError) -> LineFault {
        LineFault::NoMemory
    }
}

/// The first line and what stands behind its line feed, if there is one.
pub fn cut_line(text: &[u8]) -> Option<(&[u8], &[u8])>
    // Promise: The first line ends before the first line feed, and what stands behind that has the further lines; without a line
    // feed the text is one line.
    // Refuses: line_feed_kept.
    ensures { MatchOption result (lines_of text.now ≡ text.now ∷ []) (λ cut. CutsLine text.now cut.0.now cut.1.now) }
{
    let end = memchr(b'\n', text)?;
    Some((&text[..end], &text[end + 1..]))
}

/// The line of this number, from 1 on. An empty one stands for a line that isn't there.
pub fn line_numbered(text: &[u8], number: u64) -> &[u8]
    ensures { result.now ≡ line_numbered number (lines_of text.now) }
{
    let mut left = text;
    let mut number = number;
    while number > 1 {
        match cut_line(left) {
            Some((_, behind)) => left = behind,
            None => return &[],
        }
        number -= 1;
    }
    match cut_line(left) {
        Some((line, _)) => line,
        None => left,
    }
}

/// The bytes that a word spells: hex digits of either case, or a dash for no bytes.
#[tactic(auto, using(crate::proofs::Read::is_read, crate::proofs::Read::not_read))]
pub fn bytes(alloc: Global, word: &[u8]) -> Result<Option<Vec<u8>>, AllocError>
    // Promise: A word spells bytes in hex digits of either case, or none by a dash; None where it spells none; its only fault is
    // want of memory.
    // Also: push_bytes.
    // Refuses: dash_is_a_bad_line, capital_digit_refused, letters_are_worth_one_less.
    ensures { IfOk result (λ bytes. option_map (λ bytes. bytes.items) bytes ≡ bytes_of word.now) }
{
    let mut bytes = Vec::new(alloc);
    if push_bytes(&mut bytes, word)? {
        Ok(Some(bytes))
    } else {
        Ok(None)
    }
}

/// Adds the bytes that a word spells: hex digits of either case, or a dash for no bytes. False says that it can't be read.
pub fn push_bytes(bytes: &mut Vec<u8>, word: &[u8]) -> Result<bool, AllocError>
    ensures { IfOk result (λ good. MatchOption (bytes_of word.now) (good ≡ false)
        (λ more. (good ≡ true) × (bytes.new.items ≡ bytes.old.items ++ more))) }
{
    match word {
        [] => return Ok(false),
        [b'-'] => return Ok(true),
        _ => {}
    }
    if word.len() % 2 == 1 {
        return Ok(false);
    }
    let start = bytes.len();
    bytes.resize(start + word.len() / 2, 0)?;
    Ok(decode_pairs(word, &mut bytes[start..]))
}
