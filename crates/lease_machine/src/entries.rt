//! The list of names.

ghost use Rattle.std.specs.Prelude.{◌≡◌};
ghost use Rattle.lease_machine.specs.Names.{place_from, dead_from};

use crate::name_entry::NameEntry;
use lease_message::LeaseName;

/// Where a name stands.
pub(crate) fn place_of(entries: &[NameEntry], name: &LeaseName) -> Option<usize>
    ensures { result ≡ place_from 0 name.now entries.now }
{
    let mut place = 0;
    for entry in entries {
        if entry.name == *name {
            return Some(place);
        }
        place += 1;
    }
    None
}

/// Where a name stands that may be forgotten.
pub(crate) fn dead_place(entries: &[NameEntry], now: u64) -> Option<usize>
    ensures { result ≡ dead_from 0 now entries.now }
{
    let mut place = 0;
    for entry in entries {
        if entry.is_dead(now) {
            return Some(place);
        }
        place += 1;
    }
    None
}
