ghost use Rattle.std.specs.Prelude.{◌≡◌, ◌⊎◌, ◌<◌, ◌≤◌, ◌↔◌, IfSome, IsNone, [], length};
ghost use Rattle.job_model.specs.Padded.{padded};
ghost use Rattle.lease_message.specs.declared.lease_name.TheConstants.{NAME_CAPACITY};
ghost use Rattle.lease_message.specs.Spelling.{IsName};

use std::marker::Model;

/// How many bytes a name has at most.
pub const NAME_CAPACITY: usize = 64;

/// The name of a lease: 1 to 64 bytes, which nothing here looks into. They are kept in place, with zeros behind them.
#[derive(Clone, Copy, Debug)]
pub struct LeaseName {
    bytes: [u8; NAME_CAPACITY],
    len: usize,
}

impl Model for LeaseName {
    ghost use Rattle.std.specs.Prelude.{ℕ, ◌≤◌, List, take, length};
    ghost use Rattle.job_model.specs.Padded.{padded, IsPadded, padded-take, length-front};
    ghost use Rattle.lease_message.specs.declared.lease_name.TheConstants.{NAME_CAPACITY};

    ghost Value = { List ℕ };

    ghost view = { λ a. take a.len a.bytes };

    ghost invariant = { λ a. (1 ≤ a.len) × IsPadded NAME_CAPACITY a.len a.bytes };

    ghost inverse = { λ xs. record { bytes = padded NAME_CAPACITY xs; len = length xs } };

    ghost inverse_ok = { λ a h. λ i. record { bytes = padded-take NAME_CAPACITY a.len a.bytes h.1 i; len = length-front NAME_CAPACITY a.len a.bytes h.1 i } };
}

impl LeaseName {
    /// The name of these bytes, which input may have made none or too many.
    pub fn new(bytes: &[u8]) -> Option<LeaseName>
        // Promise: A name is made of any 1 to 64 bytes, and of no others; it is those bytes.
        // Also: LeaseName::as_slice.
        // Refuses: empty_name_made, longest_name_refused.
        ensures value { IfSome result (λ name. name ≡ bytes.now) }
        ensures none { IsNone result ↔ (IsName bytes.now → ⊥) }
    {
        if bytes.is_empty() || bytes.len() > NAME_CAPACITY {
            return None;
        }
        Some(LeaseName {
            bytes: padded(bytes),
            len: bytes.len(),
        })
    }

    /// Its bytes.
    pub fn as_slice(&self) -> &[u8]
        ensures value { result.now ≡ self.now }
        ensures fits { IsName self.now }
    {
        &self.bytes[..self.len]
    }
}

// These bytes, and zeros behind them.
fn padded(bytes: &[u8]) -> [u8; NAME_CAPACITY]
    requires { length bytes.now ≤ NAME_CAPACITY }
    ensures { result ≡ padded NAME_CAPACITY bytes.now }
{
    let mut cells = [0; NAME_CAPACITY];
    cells[..bytes.len()].copy_from_slice(bytes);
    cells
}

impl PartialEq for LeaseName {
    ghost use Rattle.std.specs.Prelude.{nat_eq};
    ghost use Rattle.std.specs.Cmp.Lexicographic.{pointwise};
    ghost use Rattle.std.specs.Cmp.{partial_equiv_from_equiv};
    ghost use Rattle.std.proofs.lemmas.Cmp.{nat_list_eq_equiv};

    ghost eq = { pointwise nat_eq };

    ghost laws = { partial_equiv_from_equiv nat_list_eq_equiv };

    fn eq(&self, other: &LeaseName) -> bool {
        self.as_slice() == other.as_slice()
    }
}

impl Eq for LeaseName {
    ghost use Rattle.std.proofs.lemmas.Cmp.{nat_list_eq_equiv};

    ghost laws = { nat_list_eq_equiv };
}
