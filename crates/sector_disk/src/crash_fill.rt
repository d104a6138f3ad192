ghost use Rattle.std.specs.Prelude.{◌≡◌, IfOk};

use std::alloc::{AllocError, Global};
use std::marker::Model;

/// What a crash leaves in the sectors that weren't synced, in their order.
///
/// Its bytes are kept apart from it: schedules and plans are long lists, and few of their lines are crashes.
#[derive(Debug, Drop)]
pub struct CrashFill {
    bytes: Box<Vec<u8>>,
}

impl Model for CrashFill {
    ghost use Rattle.std.specs.Prelude.{ℕ, List};

    ghost Value = { List ℕ };

    ghost view = { λ a. a.bytes.value.items };
}

impl CrashFill {
    pub fn new(alloc: Global, bytes: Vec<u8>) -> Result<CrashFill, AllocError>
        // Promise: What a crash leaves is the bytes that it was made of, or none.
        // Also: CrashFill::as_slice, CrashFill::try_clone, CrashFill::eq.
        // Refuses: fill_begins_empty, fill_without_its_bytes, fill_copied_empty, fill_not_compared.
        ensures { IfOk result (λ fill. fill ≡ bytes.items) }
    {
        Ok(CrashFill {
            bytes: Box::new(alloc, bytes)?,
        })
    }

    pub fn as_slice(&self) -> &[u8]
        ensures { result.now ≡ self.now }
    {
        &self.bytes
    }

    /// The same bytes once more.
    pub fn try_clone(&self, alloc: Global) -> Result<CrashFill, AllocError>
        ensures { IfOk result (λ fill. fill ≡ self.now) }
    {
        CrashFill::new(alloc, Vec::from_slice(alloc, self.as_slice())?)
    }
}

impl PartialEq for CrashFill {
    ghost use Rattle.std.specs.Prelude.{nat_eq};
    ghost use Rattle.std.specs.Cmp.Lexicographic.{pointwise};
    ghost use Rattle.std.specs.Cmp.{partial_equiv_from_equiv};
    ghost use Rattle.std.proofs.lemmas.Cmp.{nat_list_eq_equiv};

    ghost eq = { pointwise nat_eq };

    ghost laws = { partial_equiv_from_equiv nat_list_eq_equiv };

    fn eq(&self, other: &CrashFill) -> bool {
        self.as_slice() == other.as_slice()
    }
}

impl Eq for CrashFill {
    ghost use Rattle.std.proofs.lemmas.Cmp.{nat_list_eq_equiv};

    ghost laws = { nat_list_eq_equiv };
}
