//! The limit of the crate as a number: the contract of a function that does nothing.

ghost use Rattle.std.specs.Prelude.{◌≡◌, ◌≤◌, length};
ghost use Rattle.node_lock.specs.declared.held.TheConstants.{MOST_ENTRIES};
ghost use Rattle.node_lock.specs.HeldView.{HeldView, HeldInvariant};

/// A history has at most 65,536 turns.
pub fn limits()
    ensures entries { MOST_ENTRIES ≡ 65536 }
    ensures history { (held : HeldView) → HeldInvariant held → length held.history ≤ 65536 }
{}
