//! What the nodes of a trace told, where its text says it.
//!
//! It stands under the key `told` of an entry. Who reads the trace passes over the key; who compares what was told reads the text once more,
//! if the key stands in it.

ghost use Rattle.std.specs.Prelude.{◌≡◌, ◌↔◌, ◌++◌, ◌-◌, [], length, replicate, IfOk, IsTrue, OnOk, None, option_map};
ghost use Rattle.trace_text.specs.Tellings.{telling_by};
ghost use Rattle.trace_console.specs.Prefixes.{AreThen};
ghost use Rattle.trace_console.specs.Told.{IsSilent, IsThen, IsToldIn, told_of};

use memchr::memmem::find;
use std::alloc::{AllocError, Global};
use std::marker::Model;
use trace_check::History;
use trace_text::{Telling, Tellings, read_tellings};

/// What was told of the entries of each node; of the last nodes there may be nothing.
#[derive(Drop)]
pub(crate) struct Told {
    rows: Vec<Tellings>,
}

impl Model for Told {
    ghost use Rattle.trace_text.specs.Tellings.{TellingsData};

    ghost Value = { TellingsData };

    ghost view = { λ a. a.rows.items };
}

impl Told {
    /// Of no node. It takes no memory.
    pub(crate) fn nothing(alloc: Global) -> Told
        ensures { result ≡ [] }
    {
        Told {
            rows: Vec::new(alloc),
        }
    }

    /// What a text says that nodes told, in which the key `told` stands, spelled without an escape. Nothing where it doesn't, or where it is no JSON.
    pub(crate) fn read(alloc: Global, text: &[u8]) -> Result<Told, AllocError>
        ensures { IfOk result (IsToldIn text.now) }
    {
        let Some(_place) = find(text, b"\"told\"") else {
            return Ok(Told::nothing(alloc));
        };
        match read_tellings(alloc, text)? {
            Some(rows) => Ok(Told { rows }),
            None => Ok(Told::nothing(alloc)),
        }
    }

    /// What the entry of a node at this index told, if it says something.
    pub(crate) fn get(&self, node: usize, index: usize) -> Option<Telling<'_>>
        ensures { option_map telling_by result ≡ told_of self.now node index }
    {
        self.rows.get(node)?.get(index)
    }

    /// Whether nothing is told of any entry.
    pub(crate) fn is_silent(&self) -> bool
        ensures { IsTrue result ↔ IsSilent self.now }
    {
        for row in &self.rows {
            if row.len() > 0 {
                return false;
            }
        }
        true
    }

    /// Puts what is told of more nodes behind what is told of so many.
    pub(crate) fn append_nodes(
        &mut self,
        alloc: Global,
        nodes: usize,
        mut more: Told,
    ) -> Result<(), AllocError>
        ensures { OnOk result (IsThen [] nodes self.old more self.new) }
    {
        pad_rows(alloc, &mut self.rows, nodes)?;
        self.rows.append(&mut more.rows)?;
        Ok(())
    }

    /// Puts what is told of more entries of each node behind what is told of these.
    pub(crate) fn append_entries(
        &mut self,
        alloc: Global,
        histories: &[History],
        more: &Told,
    ) -> Result<(), AllocError>
        ensures { OnOk result (AreThen histories.now (length histories.now) self.old more.now self.new) }
    {
        if self.rows.is_empty() && more.rows.is_empty() {
            return Ok(());
        }
        pad_rows(alloc, &mut self.rows, histories.len())?;
        let none = Tellings::new(alloc);
        for node in 0..histories.len() {
            let behind = more.rows.get(node).unwrap_or(&none);
            append_row(&mut self.rows[node], histories[node].len(), behind)?;
        }
        Ok(())
    }
}

/// Adds nodes of which nothing is told, up to so many.
fn pad_rows(alloc: Global, rows: &mut Vec<Tellings>, nodes: usize) -> Result<(), AllocError>
    ensures padded { OnOk result (rows.new.items ≡ rows.old.items ++ replicate (nodes - length rows.old.items) []) }
    ensures length { OnOk result (length rows.new.items ≡ nodes) }
{
    // what is told of more nodes than there are stands in no trace
    if nodes < rows.len() {
        return Err(AllocError);
    }
    for _node in rows.len()..nodes {
        rows.push(Tellings::new(alloc))?;
    }
    Ok(())
}

/// Puts what is told of more entries of a node behind what is told of so many.
fn append_row(row: &mut Tellings, many: usize, more: &Tellings) -> Result<(), AllocError>
    ensures { OnOk result (IsThen None many row.old more.now row.new) }
{
    if row.len() == 0 && more.len() == 0 {
        return Ok(());
    }
    pad_row(row, many)?;
    append_tellings(row, more)
}

/// Adds entries of which nothing is told, up to so many.
fn pad_row(row: &mut Tellings, many: usize) -> Result<(), AllocError>
    ensures padded { OnOk result (row.new ≡ row.old ++ replicate (many - length row.old) None) }
    ensures length { OnOk result (length row.new ≡ many) }
{
    // what is told of more entries than there are stands in no trace
    if many < row.len() {
        return Err(AllocError);
    }
    for _place in row.len()..many {
        row.push(&None)?;
    }
    Ok(())
}

fn append_tellings(row: &mut Tellings, more: &Tellings) -> Result<(), AllocError>
    ensures { OnOk result (row.new ≡ row.old ++ more.now) }
{
    for place in 0..more.len() {
        row.push(&more.get(place))?;
    }
    Ok(())
}
