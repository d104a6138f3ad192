//! Histories that go on.
ghost use Rattle.std.specs.Prelude.{◌≡◌, ◌∷◌, ◌++◌, [], length, OnOk};
ghost use Rattle.trace_check.specs.Traces.{claim_seen};
ghost use Rattle.trace_console.specs.Prefixes.{joined};

use std::alloc::{AllocError, Global};
use trace_check::{EntryView, History};

/// Adds the entries of each node behind those of the same node.
pub(crate) fn append_all(
    alloc: Global,
    histories: &mut Vec<History>,
    piece: &[History],
) -> Result<(), AllocError>
    requires { length histories.old.items ≡ length piece.now }
    ensures { OnOk result (histories.new.items ≡ joined histories.old.items piece.now) }
{
    for node in 0..piece.len() {
        append_history(alloc, &mut histories[node], &piece[node])?;
    }
    Ok(())
}

/// Adds the entries of another history behind those of this one.
fn append_history(alloc: Global, history: &mut History, more: &History) -> Result<(), AllocError>
    ensures { OnOk result (history.new ≡ history.old ++ more.now) }
{
    for place in 0..more.len() {
        let Some(entry) = more.entry(place) else {
            unreachable!()
        };
        append_entry(alloc, history, &entry)?;
    }
    Ok(())
}

/// Adds an entry of another history.
fn append_entry(
    alloc: Global,
    history: &mut History,
    entry: &EntryView<'_>,
) -> Result<(), AllocError>
    ensures { OnOk result (history.new ≡ history.old ++ claim_seen entry.now ∷ []) }
{
    let mut sent = Vec::new(alloc);
    for place in 0..entry.sent.len() {
        let Some(message) = entry.sent.get(place) else {
            unreachable!()
        };
        sent.push(message)?;
    }
    history.push(&entry.action, &sent)
}
