//! The limits of the crate as numbers: the contract of a function that does nothing.

ghost use Rattle.std.specs.Prelude.{◌≡◌, ◌≤◌, ℕ};
ghost use Rattle.disk_layout.specs.declared.layout.TheConstants.{MOST_SLOTS};
ghost use Rattle.node_store.specs.Store.{slots_for};
ghost use Rattle.node_store.specs.Beginning.{HasNoCounter};
ghost use Rattle.sector_disk.specs.Memory.{blank, state_of};

/// The smallest disk that is taken has 24 sectors, and gives 4 slots to each area. One of 16,392 gives 4,096, and none gives more.
pub fn limits()
    // Promise: The smallest disk, of 24 sectors, gives 4 slots to each area, one of 16,392 gives 4,096, and none gives more.
    ensures least { slots_for 24 ≡ 4 }
    ensures greatest { slots_for 16392 ≡ 4096 }
    ensures most { (sectors : ℕ) → slots_for sectors ≤ MOST_SLOTS }
{}

/// A new disk of zeros has no counter, so that a store may be begun there.
#[tactic(auto, using(crate::proofs::Beginnings::new_disk))]
pub fn new_disk()
    ensures { (sectors : ℕ) → HasNoCounter (state_of (blank sectors)) }
{}
