// How many sectors a store takes.
ghost use Rattle.std.specs.Prelude.{◌≡◌, ◌≤◌};
ghost use Rattle.disk_layout.specs.Layout.{sectors_for};
ghost use Rattle.disk_layout.specs.declared.layout.TheConstants.{MOST_SLOTS};

/// How many slots an area of a journal has at least.
pub const LEAST_SLOTS: u64 = 4;

/// How many slots an area of a journal has at most.
pub const MOST_SLOTS: u64 = 4096;

/// How many sectors a store takes whose areas have so many slots.
pub fn sectors_for(slots: u64) -> u64
    requires { slots ≤ MOST_SLOTS }
    // Promise: An area of a journal has 4 to 4,096 slots, and a store whose areas have n slots takes 8 + 4 n sectors.
    // Also: limits.
    // Refuses: one_area_left_out.
    ensures { result ≡ sectors_for slots }
{
    8 + 4 * slots
}
