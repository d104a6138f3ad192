//! The ends of one node's links, before the run and after it.

ghost use Rattle.std.specs.Prelude.{◌≡◌, ◌≤◌, [], ◌∷◌, ◌++◌, IfSome, OnOk};
ghost use Rattle.node_threads.specs.Nodes.{no_ends, with_put, with_take};

use link_ring::{PutEnd, TakeEnd};
use std::alloc::{AllocError, Global};
use std::marker::Model;
use std::vec::IntoIter;

/// The ends of a node's links: to each other node, and from each.
#[derive(Drop)]
pub(crate) struct Ends {
    pub(crate) puts: Vec<PutEnd>,
    pub(crate) takes: Vec<TakeEnd>,
}

impl Model for Ends {
    ghost use Rattle.node_threads.specs.Nodes.{NodeEnds};

    ghost Value = { NodeEnds };

    ghost view = { λ a. record { puts = a.puts.items; takes = a.takes.items } };
}

impl Ends {
    /// None yet. It takes no memory.
    pub(crate) fn new(alloc: Global) -> Ends
        ensures { result ≡ no_ends }
    {
        Ends {
            puts: Vec::new(alloc),
            takes: Vec::new(alloc),
        }
    }

    /// Adds the end of a link to another node.
    pub(crate) fn add_put(&mut self, end: PutEnd) -> Result<(), AllocError>
        ensures { OnOk result (self.new ≡ with_put self.old end) }
    {
        self.puts.push(end)?;
        Ok(())
    }

    /// Adds the end of a link from another node.
    pub(crate) fn add_take(&mut self, end: TakeEnd) -> Result<(), AllocError>
        ensures { OnOk result (self.new ≡ with_take self.old end) }
    {
        self.takes.push(end)?;
        Ok(())
    }
}

/// The ends of a node's links that aren't gathered yet.
#[derive(Drop)]
pub(crate) struct Left {
    puts: IntoIter<PutEnd>,
    takes: IntoIter<TakeEnd>,
}

impl Model for Left {
    ghost use Rattle.std.specs.Vec.Iter.{into_iter_items};
    ghost use Rattle.node_threads.specs.Nodes.{NodeEnds};

    ghost Value = { NodeEnds };

    ghost view = { λ a. record { puts = into_iter_items a.puts; takes = into_iter_items a.takes } };
}

impl Left {
    pub(crate) fn new(puts: Vec<PutEnd>, takes: Vec<TakeEnd>) -> Left
        ensures { result ≡ record { puts = puts.items; takes = takes.items } }
    {
        Left {
            puts: puts.into_iter(),
            takes: takes.into_iter(),
        }
    }

    /// The next end of a link to another node.
    pub(crate) fn next_put(&mut self) -> Option<PutEnd>
        ensures takes { self.new.takes ≡ self.old.takes }
        ensures next { IfSome result (λ end. self.old.puts ≡ end ∷ self.new.puts) }
    {
        self.puts.next()
    }

    /// The next end of a link from another node.
    pub(crate) fn next_take(&mut self) -> Option<TakeEnd>
        ensures puts { self.new.puts ≡ self.old.puts }
        ensures next { IfSome result (λ end. self.old.takes ≡ end ∷ self.new.takes) }
    {
        self.takes.next()
    }
}
