//! The limits of the crate as numbers: the contract of a function that does nothing.

ghost use Rattle.std.specs.Prelude.{◌≡◌};
ghost use Rattle.disk_layout.specs.Layout.{sectors_for};
ghost use Rattle.disk_layout.specs.declared.layout.TheConstants.{LEAST_SLOTS, MOST_SLOTS};

/// An area of a journal has from 4 to 4,096 slots, so a store takes from 24 to 16,392 sectors.
pub fn limits()
    ensures least_slots { LEAST_SLOTS ≡ 4 }
    ensures most_slots { MOST_SLOTS ≡ 4096 }
    ensures least_sectors { sectors_for LEAST_SLOTS ≡ 24 }
    ensures most_sectors { sectors_for MOST_SLOTS ≡ 16392 }
{}
