// What was read of a line that isn't whole.
ghost use Rattle.std.specs.Prelude.{◌≡◌, ◌↔◌, ◌++◌, ◌∷◌, [], IsTrue, OnOk};
ghost use Rattle.line_words.specs.Lines.{lines_of};

use std::alloc::{AllocError, Global};
use std::marker::Model;
use std::mem;

/// The beginning of a line, in which no line feed stands.
#[derive(Debug, Drop)]
pub(crate) struct Unread {
    bytes: Vec<u8>,
}

impl Model for Unread {
    ghost use Rattle.std.specs.Prelude.{ℕ, List, [], ◌∷◌, ◌≡◌};
    ghost use Rattle.line_words.specs.Lines.{lines_of};

    ghost Value = { List ℕ };

    ghost view = { λ a. a.bytes.items };

    ghost invariant = { λ a. lines_of a.bytes.items ≡ a.bytes.items ∷ [] };
}

impl Unread {
    pub(crate) fn new(alloc: Global) -> Unread
        ensures { result ≡ [] }
    {
        Unread {
            bytes: Vec::new(alloc),
        }
    }

    pub(crate) fn is_empty(&self) -> bool
        ensures { IsTrue result ↔ (self.now ≡ []) }
    {
        self.bytes.is_empty()
    }

    /// Adds bytes in which no line feed stands.
    pub(crate) fn push(&mut self, more: &[u8]) -> Result<(), AllocError>
        requires { lines_of more.now ≡ more.now ∷ [] }
        ensures bytes { OnOk result (self.new ≡ self.old ++ more.now) }
        ensures line { lines_of self.new ≡ self.new ∷ [] }
    {
        self.bytes.extend_from_slice(more)
    }

    /// Gives what was read, and forgets it.
    pub(crate) fn take(&mut self, alloc: Global) -> Vec<u8>
        ensures bytes { result.items ≡ self.old }
        ensures none { self.new ≡ [] }
    {
        mem::replace(&mut self.bytes, Vec::new(alloc))
    }
}
