ghost use Rattle.std.specs.Prelude.{◌≡◌, ◌<◌, ◌≤◌, ◌↔◌, IsNone, IfSome, IsTrue, [], length};
ghost use Rattle.job_model.specs.Padded.{padded, IsPadded};
ghost use Rattle.job_model.specs.declared.payload.TheConstants.{PAYLOAD_CAPACITY};

use std::marker::Model;
use std::mem;

/// How many bytes a payload has at most.
pub const PAYLOAD_CAPACITY: usize = 400;

/// The bytes of a job, which nothing here looks into.
///
/// They are kept in place, with zeros behind them, so a job is copied without taking memory.
#[derive(Clone, Copy, Debug)]
pub struct Payload {
    bytes: [u8; PAYLOAD_CAPACITY],
    len: usize,
}

impl Model for Payload {
    ghost use Rattle.std.specs.Prelude.{ℕ, List, take, length};
    ghost use Rattle.job_model.specs.Padded.{padded, IsPadded, padded-take, length-front};
    ghost use Rattle.job_model.specs.declared.payload.TheConstants.{PAYLOAD_CAPACITY};

    ghost Value = { List ℕ };

    ghost view = { λ a. take a.len a.bytes };

    ghost invariant = { λ a. IsPadded PAYLOAD_CAPACITY a.len a.bytes };

    ghost inverse = { λ xs. record { bytes = padded PAYLOAD_CAPACITY xs; len = length xs } };

    ghost inverse_ok = { λ a h. λ i. record { bytes = padded-take PAYLOAD_CAPACITY a.len a.bytes h i; len = length-front PAYLOAD_CAPACITY a.len a.bytes h i } };
}

impl Payload {
    /// A payload of these bytes, which input may have made too many.
    #[inline]
    pub fn new(bytes: &[u8]) -> Option<Payload>
        // Promise: A payload is made of any 0 to 400 bytes and of no more; it is those bytes.
        // Also: Payload::empty, Payload::set.
        // Refuses: longest_payload_refused, payload_dropped, old_bytes_stay_behind, set_keeps_the_old_length,
        // empty_payload_of_one_zero.
        ensures value { IfSome result (λ payload. payload ≡ bytes.now) }
        ensures none { IsNone result ↔ (PAYLOAD_CAPACITY < length bytes.now) }
    {
        if bytes.len() > PAYLOAD_CAPACITY {
            return None;
        }
        Some(Payload {
            bytes: padded(bytes),
            len: bytes.len(),
        })
    }

    /// A payload of no bytes.
    #[inline]
    pub fn empty() -> Payload
        ensures { result ≡ [] }
    {
        Payload {
            bytes: [0; PAYLOAD_CAPACITY],
            len: 0,
        }
    }

    /// Makes it these bytes, in its place.
    #[inline]
    pub fn set(&mut self, bytes: &[u8])
        requires { length bytes.now ≤ PAYLOAD_CAPACITY }
        ensures { self.new ≡ bytes.now }
    {
        let old_len = mem::replace(&mut self.len, bytes.len());
        write_over(&mut self.bytes, old_len, bytes);
    }

    /// How many bytes it has.
    #[inline]
    pub fn len(&self) -> usize
        ensures value { result ≡ length self.now }
        ensures fits { length self.now ≤ PAYLOAD_CAPACITY }
    {
        self.len
    }

    /// Whether it has no bytes, which a job may have.
    #[inline]
    pub fn is_empty(&self) -> bool
        ensures { IsTrue result ↔ (self.now ≡ []) }
    {
        self.as_slice().is_empty()
    }

    /// Its bytes, without the zeros that are kept behind them.
    #[inline]
    pub fn as_slice(&self) -> &[u8]
        // Promise: The bytes, their number, and whether there are any, without the zeros that are kept behind them.
        // Also: Payload::len, Payload::is_empty.
        // Refuses: zeros_shown, zeros_counted, empty_for_full.
        ensures value { result.now ≡ self.now }
        ensures fits { length self.now ≤ PAYLOAD_CAPACITY }
    {
        &self.bytes[..self.len]
    }
}

// These bytes, and zeros behind them.
#[inline]
fn padded(bytes: &[u8]) -> [u8; PAYLOAD_CAPACITY]
    requires { length bytes.now ≤ PAYLOAD_CAPACITY }
    ensures { result ≡ padded PAYLOAD_CAPACITY bytes.now }
{
    let mut cells = [0; PAYLOAD_CAPACITY];
    cells[..bytes.len()].copy_from_slice(bytes);
    cells
}

// Writes these bytes over so many, behind which zeros stand. Only what is left of the old ones is written behind them.
#[inline]
fn write_over(cells: &mut [u8; PAYLOAD_CAPACITY], old_len: usize, bytes: &[u8])
    requires fits { length bytes.now ≤ PAYLOAD_CAPACITY }
    requires zeros { IsPadded PAYLOAD_CAPACITY old_len cells.old }
    ensures { cells.new ≡ padded PAYLOAD_CAPACITY bytes.now }
{
    let len = bytes.len();
    cells[..len].copy_from_slice(bytes);
    if len < old_len {
        cells[len..old_len].fill(0);
    }
}

impl PartialEq for Payload {
    ghost use Rattle.std.specs.Prelude.{nat_eq};
    ghost use Rattle.std.specs.Cmp.Lexicographic.{pointwise};
    ghost use Rattle.std.specs.Cmp.{partial_equiv_from_equiv};
    ghost use Rattle.std.proofs.lemmas.Cmp.{nat_list_eq_equiv};

    ghost eq = { pointwise nat_eq };

    ghost laws = { partial_equiv_from_equiv nat_list_eq_equiv };

    #[inline]
    // Promise: Two payloads are equal exactly where their bytes are.
    // Refuses: equal_by_length.
    fn eq(&self, other: &Payload) -> bool {
        self.as_slice() == other.as_slice()
    }
}

impl Eq for Payload {
    ghost use Rattle.std.proofs.lemmas.Cmp.{nat_list_eq_equiv};

    ghost laws = { nat_list_eq_equiv };
}
