//! Which traces have a text that is read back.
ghost use Rattle.std.specs.Prelude.{◌↔◌, IsTrue};
ghost use Rattle.histories.specs.Lists.{Each};
ghost use Rattle.trace_check.specs.Claims.{Claim};
ghost use Rattle.trace_text.specs.Fits.{AreNamed, HasName, IsWritable};

use node_core::Event;
use trace_check::{History, Trace, TraceAction};

/// Whether a trace has a node, and a name for each of its entries.
pub(crate) fn is_writable(trace: &Trace) -> bool
    ensures { IsTrue result ↔ IsWritable trace.now }
{
    trace.nodes() > 0 && are_named(trace.histories())
}

fn are_named(histories: &[History]) -> bool
    ensures { IsTrue result ↔ Each AreNamed histories.now }
{
    for history in histories {
        if !is_named(history) {
            return false;
        }
    }
    true
}

fn is_named(history: &History) -> bool
    ensures { IsTrue result ↔ AreNamed history.now }
{
    for place in 0..history.len() {
        let Some(entry) = history.entry(place) else {
            unreachable!()
        };
        if !has_name(&entry.action) {
            return false;
        }
    }
    true
}

fn has_name(action: &TraceAction) -> bool
    ensures { IsTrue result ↔ HasName action.now }
{
    match action {
        TraceAction::Done(Event::Recover) | TraceAction::Faulted(Event::Recover) => false,
        _ => true,
    }
}
