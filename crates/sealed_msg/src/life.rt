// The key of what is sealed for one process.
ghost use Rattle.std.specs.Prelude.{◌≡◌, IfOk};
ghost use Rattle.sealed_msg.specs.Lives.{bound_key, life_key};

use crate::hmac::Key;
use std::alloc::{AllocError, Global};

/// How many bytes the life of a process has, where it has one.
pub const LIFE: usize = 16;

impl Key {
    /// The key, under this one, of what is sealed for a process of this life. Whoever starts a process draws its life, which was never another's; so
    /// nothing that was sealed before is sealed under this key. Of a process without a life it is this key.
    pub fn of_life(&self, alloc: Global, life: &[u8]) -> Result<Key, AllocError>
        // Promise: The key of a life is the tag, under the cluster's key, of the format and the life; no two lives are one. Without a life it is the
        // cluster's key.
        // Also: lives_are_apart.
        // Refuses: key_of_another_life_opens.
        ensures { IfOk result (λ key. key ≡ life_key self.now life.now) }
    {
        if life.is_empty() {
            return Ok(self.copied());
        }
        self.bound_to(alloc, life)
    }

    fn bound_to(&self, alloc: Global, life: &[u8]) -> Result<Key, AllocError>
        ensures { IfOk result (λ key. key ≡ bound_key self.now life.now) }
    {
        let mut text = Vec::from_slice(alloc, b"dumgerok life 1")?;
        text.extend_from_slice(life)?;
        Ok(Key::new(self.tag(&text).as_slice()))
    }
}
