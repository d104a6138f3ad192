// HMAC-SHA256.
ghost use Rattle.std.specs.Prelude.{◌≡◌, ◌↔◌, ◌≤◌, length, IsTrue};
ghost use Rattle.sealed_msg.specs.Hmac.{block_of, filled, hmac_by, padded};

use sha2::{Digest, Sha256};
use std::marker::Model;

/// How many bytes a tag has.
pub const TAG: usize = 32;

/// How many bytes SHA-256 takes at a time.
const BLOCK: usize = 64;

/// A key. It keeps what hashed its two padded blocks, so a tag costs no more than its text.
#[derive(Drop)]
pub struct Key {
    block: [u8; BLOCK],
    inner: Sha256,
    outer: Sha256,
}

impl Model for Key {
    ghost use Rattle.std.specs.Prelude.{List, ℕ};
    ghost use Rattle.sealed_msg.specs.Hmac.{padded};
    ghost use Rattle.sha2.specs.Hashers.{Holds256};

    ghost Value = { List ℕ };

    ghost view = { λ key. key.block };

    ghost invariant = { λ key. Holds256 key.inner (padded key.block 0x36) × Holds256 key.outer (padded key.block 0x5c) };
}

impl Key {
    /// The key of these bytes, of which any number will do; 32 that nobody can guess are right.
    pub fn new(bytes: &[u8]) -> Key
        // Promise: A tag is the HMAC-SHA256 of RFC 2104, under a key of any length: one longer than a block is hashed first.
        // Also: Key::tag.
        // Refuses: inner_digest_as_tag, pads_swapped, long_key_hashed_twice.
        ensures { result ≡ block_of bytes.now }
    {
        let block = block_of(bytes);
        let inner = Sha256::new_with_prefix(padded(&block, 0x36).as_slice());
        let outer = Sha256::new_with_prefix(padded(&block, 0x5c).as_slice());
        Key {
            block,
            inner,
            outer,
        }
    }

    #[tactic(auto, using(crate::proofs::Cuts::block_again))]
    pub(crate) fn copied(&self) -> Key
        ensures { result ≡ self.now }
    {
        Key::new(self.block.as_slice())
    }

    /// The tag of a text.
    pub fn tag(&self, text: &[u8]) -> [u8; TAG]
        ensures { result ≡ hmac_by self.now text.now }
    {
        let Ok(mut inner) = self.inner.clone() else {
            unreachable!();
        };
        inner.update(text);
        let digest = inner.finalize();
        let Ok(mut outer) = self.outer.clone() else {
            unreachable!();
        };
        outer.update(digest.as_slice());
        outer.finalize()
    }

    /// Whether this is the tag of a text. It looks at each byte of it, so the time says nothing of where a wrong one differs.
    pub fn is_tag(&self, text: &[u8], tag: &[u8]) -> bool
        requires { length tag.now ≡ 32 }
        ensures { IsTrue result ↔ (tag.now ≡ hmac_by self.now text.now) }
    {
        are_same(&self.tag(text), tag)
    }
}

fn block_of(key: &[u8]) -> [u8; BLOCK]
    ensures { result ≡ block_of key.now }
{
    if key.len() > BLOCK {
        filled(Sha256::digest(key).as_slice())
    } else {
        filled(key)
    }
}

#[tactic(auto, using(crate::proofs::Cuts::zeros_left))]
fn filled(key: &[u8]) -> [u8; BLOCK]
    requires { length key.now ≤ 64 }
    ensures { result ≡ filled key.now }
{
    let mut block = [0u8; BLOCK];
    block[..key.len()].copy_from_slice(key);
    block
}

fn padded(block: &[u8; BLOCK], pad: u8) -> [u8; BLOCK]
    ensures { result ≡ padded block.now pad }
{
    let mut padded = *block;
    for byte in padded.iter_mut() {
        *byte ^= pad;
    }
    padded
}

fn are_same(wanted: &[u8; TAG], tag: &[u8]) -> bool
    requires { length tag.now ≡ 32 }
    ensures { IsTrue result ↔ (tag.now ≡ wanted.now) }
{
    let mut others: u32 = 0;
    for i in 0..TAG {
        others += u32::from(wanted[i] != tag[i]);
    }
    others == 0
}
