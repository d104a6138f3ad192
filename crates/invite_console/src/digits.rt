//! Hex digits of many lines, decoded at once: for a line alone the call takes longer than its digits do.

ghost use Rattle.std.specs.Prelude.{◌≡◌, IfOk, MatchBool, OnErr, OnOk, [], None, Some, option_map};
ghost use Rattle.invite_console.specs.Lines.{line_bytes, then_bytes};

use line_words::push_bytes;
use std::alloc::{AllocError, Global};
use std::marker::Model;

/// So many digits are never put together.
const PIECE: usize = 4096;

/// What lines spell, as far as they were read.
#[derive(Drop)]
pub(crate) struct Digits {
    bytes: Vec<u8>,
    // what stands behind the bytes, not decoded yet
    digits: Vec<u8>,
}

impl Model for Digits {
    ghost use Rattle.std.specs.Prelude.{◌≡◌, ◌%◌, ℕ, List, Option, Some, length};
    ghost use Rattle.invite_console.specs.Lines.{line_bytes, then_bytes};

    ghost Value = { Option (List ℕ) };

    ghost view = { λ a. then_bytes (Some a.bytes.items) (line_bytes a.digits.items) };

    ghost invariant = { λ a. length a.digits.items % 2 ≡ 0 };
}

impl Digits {
    /// No lines, with room for the bytes of an input of so many bytes.
    pub(crate) fn new(alloc: Global, input: usize) -> Result<Digits, AllocError>
        ensures { IfOk result (λ digits. digits ≡ Some []) }
    {
        Ok(Digits {
            bytes: Vec::with_capacity(alloc, input / 2)?,
            digits: Vec::with_capacity(alloc, PIECE)?,
        })
    }

    /// Adds what a line spells. False says that some line can't be read.
    #[tactic(auto, using(crate::proofs::Pairs::line_added, crate::proofs::Pairs::nothing_behind, crate::proofs::Pairs::odd_line))]
    pub(crate) fn add(&mut self, line: &[u8]) -> Result<bool, AllocError>
        ensures { IfOk result (λ good. MatchBool good (self.new ≡ then_bytes self.old (line_bytes line.now)) (then_bytes self.old (line_bytes line.now) ≡ None)) }
    {
        if line.len() % 2 == 1 {
            return Ok(matches!(line, [b'-']));
        }
        if self.digits.len() + line.len() < PIECE {
            self.digits.extend_from_slice(line)?;
            return Ok(true);
        }
        if !decode(&mut self.bytes, &mut self.digits)? {
            return Ok(false);
        }
        Ok(line.is_empty() || push_bytes(&mut self.bytes, line)?)
    }

    /// All bytes. None where some line can't be read.
    pub(crate) fn finish(mut self) -> Result<Option<Vec<u8>>, AllocError>
        ensures { IfOk result (λ read. option_map (λ bytes. bytes.items) read ≡ self) }
    {
        if decode(&mut self.bytes, &mut self.digits)? {
            let Digits { bytes, .. } = self;
            Ok(Some(bytes))
        } else {
            Ok(None)
        }
    }
}

/// Decodes all digits, behind the bytes that are there. False says that another byte is among them.
#[tactic(auto, using(crate::proofs::Pairs::nothing_behind))]
fn decode(bytes: &mut Vec<u8>, digits: &mut Vec<u8>) -> Result<bool, AllocError>
    ensures bytes { IfOk result (λ good. MatchBool good (Some bytes.new.items ≡ then_bytes (Some bytes.old.items) (line_bytes digits.old.items)) (line_bytes digits.old.items ≡ None)) }
    ensures none { OnOk result (digits.new.items ≡ []) }
    ensures kept { OnErr result (digits.new.items ≡ digits.old.items) }
{
    let is_good = digits.is_empty() || push_bytes(bytes, digits)?;
    digits.clear();
    Ok(is_good)
}
