//! The text of a trace in parts, for one who has its entries one after another.

ghost use Rattle.std.specs.Prelude.{◌≡◌, [], ◌∷◌, ◌++◌, IfOk, OnOk};
ghost use Rattle.serde_json.specs.Written.{comma_if};
ghost use Rattle.trace_text.specs.Parts.{trace_end, trace_head};

use crate::writing::{write_head, write_nodes};
use json::Writer;
use std::alloc::{AllocError, Global};

/// Begins the text of a trace: its histories follow, each an item of a list.
pub fn begin_trace(alloc: Global) -> Result<Vec<u8>, AllocError>
    // Promise: Written in parts, an entry, a list of texts and what stands around them are those of that text.
    // Also: begin_items, push_item, begin_entry, begin_handled, write_spelled, end_entry, end_items, end_trace,
    // end_ordered, threads_console::threads.
    // Refuses: comma_before_the_first_item, every_event_named_check, message_written_as_its_payload, order_ended_under_another_key.
    ensures { IfOk result (λ text. text.items ≡ trace_head) }
{
    let mut out = Writer::new(Vec::new(alloc));
    write_head(&mut out)?;
    Ok(out.into_inner())
}

/// Ends the text of a trace of so many nodes behind its histories.
pub fn end_trace(text: Vec<u8>, nodes: u8) -> Result<Vec<u8>, AllocError>
    ensures { IfOk result (λ whole. whole.items ≡ text.items ++ trace_end nodes) }
{
    let mut out = Writer::new(text);
    write_nodes(&mut out, nodes)?;
    Ok(out.into_inner())
}

/// Begins a list that is an item itself, and says whether other items stand before it.
pub fn begin_items(text: &mut Vec<u8>, later: bool) -> Result<(), AllocError>
    ensures { OnOk result (text.new.items ≡ text.old.items ++ (comma_if later ++ 91 ∷ [])) }
{
    push_item(text, later, b"[")
}

/// Adds the text of an item to a list, and says whether others stand before it.
pub fn push_item(text: &mut Vec<u8>, later: bool, item: &[u8]) -> Result<(), AllocError>
    ensures { OnOk result (text.new.items ≡ text.old.items ++ (comma_if later ++ item.now)) }
{
    if later {
        text.push(b',')?;
    }
    text.extend_from_slice(item)
}

/// Ends a list.
pub fn end_items(text: &mut Vec<u8>) -> Result<(), AllocError>
    ensures { OnOk result (text.new.items ≡ text.old.items ++ 93 ∷ []) }
{
    text.extend_from_slice(b"]")
}
