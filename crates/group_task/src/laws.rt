//! The limits of the crate as numbers: the contract of a function that does nothing.

ghost use Rattle.std.specs.Prelude.{◌≡◌, ◌≤◌, ℕ, List, length};
ghost use Rattle.group_task.specs.Ids.{IsSet};
ghost use Rattle.group_task.specs.declared.node.TheConstants.{NODES};

/// A cluster has at most 128 nodes, and so has a set of them.
#[tactic(auto, using(crate::proofs::Words::few_members))]
pub fn limits()
    // Promise: A cluster has at most 128 nodes, and so has a set of them.
    // Refuses: limit_off_by_one.
    ensures nodes { NODES ≡ 128 }
    ensures members { (members : List ℕ) → IsSet members → length members ≤ 128 }
{}
