ghost use Rattle.std.specs.Prelude.{◌≡◌, ◌++◌, IfOk, IfErr, OnOk, Some, Ok, option_map};
ghost use Rattle.line_words.specs.Lines.{IsFaultAt, IsLineFault, lines_of};
ghost use Rattle.invite_console.specs.Lines.{all_bytes, line_bytes, hex_lines_of};

use crate::digits::Digits;
use line_words::{LineFault, cut_line, push_bytes};
use std::alloc::{AllocError, Global};

/// The bytes that hex lines spell together. Empty lines are passed over, and the last line may lack its line feed.
#[tactic(auto, using(crate::proofs::Pairs::all_read))]
pub(crate) fn hex_lines(alloc: Global, input: &[u8]) -> Result<Vec<u8>, LineFault>
    ensures ok { IfOk result (λ bytes. hex_lines_of input.now ≡ Ok bytes.items) }
    ensures err { IfErr result (IsLineFault (hex_lines_of input.now)) }
{
    match read_together(alloc, input)? {
        Some(bytes) => Ok(bytes),
        None => read_apart(alloc, input),
    }
}

/// The bytes of all lines, whose digits are decoded many lines at once. None where some line can't be read.
#[tactic(auto, using(crate::proofs::Pairs::nothing_before, crate::proofs::Pairs::nothing_behind, crate::proofs::Pairs::then_then))]
fn read_together(alloc: Global, input: &[u8]) -> Result<Option<Vec<u8>>, AllocError>
    ensures { IfOk result (λ read. option_map (λ bytes. bytes.items) read ≡ all_bytes (lines_of input.now)) }
{
    let mut digits = Digits::new(alloc, input.len())?;
    let mut left = input;
    'lines: while let Some((line, behind)) = cut_line(left) {
        if !digits.add(line)? {
            return Ok(None);
        }
        left = behind;
    }
    if !digits.add(left)? {
        return Ok(None);
    }
    digits.finish()
}

/// The bytes of all lines, one line after another, or the first line that can't be read.
#[tactic(auto, using(crate::proofs::Joins::joined_line, crate::proofs::Joins::joined_last, crate::proofs::Joins::joined_fault, crate::proofs::Joins::joined_nothing))]
fn read_apart(alloc: Global, input: &[u8]) -> Result<Vec<u8>, LineFault>
    ensures ok { IfOk result (λ bytes. hex_lines_of input.now ≡ Ok bytes.items) }
    ensures err { IfErr result (IsLineFault (hex_lines_of input.now)) }
{
    let mut bytes = Vec::with_capacity(alloc, input.len() / 2)?;
    let mut number = 1u64;
    let mut left = input;
    while let Some((line, behind)) = cut_line(left) {
        push_line(&mut bytes, number, line)?;
        left = behind;
        number += 1;
    }
    push_line(&mut bytes, number, left)?;
    Ok(bytes)
}

/// Adds the bytes of the line of this number, which is passed over where it is empty.
fn push_line(bytes: &mut Vec<u8>, number: u64, line: &[u8]) -> Result<(), LineFault>
    ensures ok { OnOk result (option_map (λ more. bytes.old.items ++ more) (line_bytes line.now) ≡ Some bytes.new.items) }
    ensures err { IfErr result (IsFaultAt number (line_bytes line.now)) }
{
    if line.is_empty() || push_bytes(bytes, line)? {
        Ok(())
    } else {
        Err(LineFault::BadLine(number))
    }
}
