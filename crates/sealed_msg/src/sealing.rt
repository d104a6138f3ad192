// Messages with a stamp and a tag behind them.
ghost use Rattle.std.specs.Prelude.{◌≡◌, List, ℕ, IfSome, IsNone, OnOk, Some, None};
ghost use Rattle.sealed_msg.specs.Sealing.{opened, sealed};

use crate::hmac::{Key, TAG};
use crate::stamp::{STAMP, Stamp};
use std::alloc::AllocError;

/// What sealed bytes were opened to.
#[derive(Clone, Copy, Debug)]
pub struct OpenedMessage<'a> {
    pub message: &'a [u8],
    pub stamp: Stamp,
}

impl Key {
    /// Puts a stamp and the tag of both behind a message.
    pub fn seal(&self, message: &mut Vec<u8>, stamp: Stamp) -> Result<(), AllocError>
        // Promise: Bytes are opened to a message and a stamp exactly where these are sealed to them under the key; so they are the
        // sealing of one message at most, with one stamp.
        // Also: Key::open, opened_as_sealed.
        // Refuses: forged_message_taken, genuine_message_refused, last_byte_not_compared, stamp_not_sealed, life_written_as_number.
        ensures { OnOk result (message.new.items ≡ sealed self.now message.old.items stamp) }
    {
        message.extend_from_slice(&stamp.bytes())?;
        let tag = self.tag(message.as_slice());
        message.extend_from_slice(&tag)
    }

    /// The message and its stamp, where these bytes are what the two are sealed to under this key; none of any others.
    pub fn open<'a>(&self, bytes: &'a [u8]) -> Option<OpenedMessage<'a>>
        ensures opened { IfSome result (λ it. opened self.now bytes.now ≡ Some (it.message.now, it.stamp)) }
        ensures refused { IsNone result → opened self.now bytes.now ≡ None }
    {
        if bytes.len() < STAMP + TAG {
            return None;
        }
        let (stamped, tag) = bytes.split_at(bytes.len() - TAG);
        if !self.is_tag(stamped, tag) {
            return None;
        }
        let (message, stamp) = stamped.split_at(stamped.len() - STAMP);
        Some(OpenedMessage {
            message,
            stamp: Stamp::read(stamp),
        })
    }
}
