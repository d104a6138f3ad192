//! Printing in pieces: a page is filled, printed once it is full, and filled again. What is printed is one text, wherever it is cut.

ghost use Rattle.std.specs.Prelude.{◌≡◌, [], IfOk, OnOk};
ghost use Rattle.std.specs.Io.KnownBytes.{Appends};
ghost use Rattle.console_text.specs.Pages.{Hands};

use std::alloc::{AllocError, Global};
use std::io::Write;
use thiserror::Error;

/// A page with so many bytes is full.
const FULL: usize = 61_440;

/// How many bytes a page has room for.
const ROOM: usize = 65_536;

/// A text was not printed to its end. How much of it went out is not known.
#[derive(Clone, Copy, Debug, PartialEq, Eq, Error)]
#[error("the text wasn't printed to its end")]
pub struct Unprinted;

impl From<AllocError> for Unprinted {
    fn from(_error: AllocError) -> Unprinted {
        Unprinted
    }
}

/// A page that holds nothing. What is printed page by page takes no more memory than it.
pub fn new_page(alloc: Global) -> Result<Vec<u8>, AllocError>
    ensures { IfOk result (λ page. page.items ≡ []) }
{
    Vec::with_capacity(alloc, ROOM)
}

/// Prints a page, and empties it.
pub fn print_page<W: Write>(output: &mut W, page: &mut Vec<u8>) -> Result<(), Unprinted>
    // Promise: Printed page by page, a text is what is written, wherever pages end: what was printed, with what the page holds,
    // grows by each part.
    // Also: print_full, print_part.
    // Refuses: page_printed_twice, part_in_front_of_its_page.
    ensures printed { OnOk result (Appends (W.contents output.old) (W.contents output.new) page.old.items) }
    ensures empty { OnOk result (page.new.items ≡ []) }
{
    if output.write_all(page).is_err() {
        return Err(Unprinted);
    }
    page.clear();
    Ok(())
}

/// Prints a page where it is full.
#[inline]
#[tactic(auto, using(crate::proofs::Handing::page_out, crate::proofs::Handing::page_stays))]
pub fn print_full<W: Write>(output: &mut W, page: &mut Vec<u8>) -> Result<(), Unprinted>
    ensures { OnOk result (Hands (W.contents output.old) page.old.items (W.contents output.new) page.new.items []) }
{
    if page.len() < FULL {
        return Ok(());
    }
    print_page(output, page)
}

/// Adds a text to a page, or prints both where the page is filled by it.
#[inline]
#[tactic(auto, using(crate::proofs::Handing::page_grows))]
pub fn print_part<W: Write>(
    output: &mut W,
    page: &mut Vec<u8>,
    part: &[u8],
) -> Result<(), Unprinted>
    ensures { OnOk result (Hands (W.contents output.old) page.old.items (W.contents output.new) page.new.items part.now) }
{
    if part.len() < FULL - page.len().min(FULL)
        && part.len() <= page.capacity() - page.len()
        && page.extend_from_slice(part).is_ok()
    {
        return Ok(());
    }
    print_both(output, page, part)
}

/// Prints a page and then a text, and empties the page.
#[inline(never)]
#[tactic(auto, using(crate::proofs::Handing::page_stays, crate::proofs::Handing::part_out))]
fn print_both<W: Write>(output: &mut W, page: &mut Vec<u8>, part: &[u8]) -> Result<(), Unprinted>
    ensures { OnOk result (Hands (W.contents output.old) page.old.items (W.contents output.new) page.new.items part.now) }
{
    if part.is_empty() {
        return Ok(());
    }
    print_page(output, page)?;
    if output.write_all(part).is_err() {
        return Err(Unprinted);
    }
    Ok(())
}
