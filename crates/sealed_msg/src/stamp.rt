// When a message was sealed.
ghost use Rattle.std.specs.Prelude.{◌≡◌, length};

use crate::number::number_in;

/// How many bytes a stamp has.
pub const STAMP: usize = 16;

/// When a message was sealed: in which life of its sender, and as which of that life. A life is named by a count that its sender never gives
/// again; numbers begin at 1, so nothing is sealed with the stamp of zeros.
#[derive(Clone, Copy, Debug, PartialEq, Eq)]
pub struct Stamp {
    pub life: u64,
    pub number: u64,
}

impl Stamp {
    ghost use Rattle.sealed_msg.specs.Stamps.{is_above, stamp_bytes};
    ghost use Rattle.sealed_msg.specs.Sealing.{stamp_in};

    /// Whether it is later than another of the same sender.
    pub fn is_above(self, other: Stamp) -> bool
        // Promise: One stamp is above another by its life, and in one life by its number.
        // Refuses: same_stamp_is_above, number_above_in_any_life.
        ensures { result ≡ is_above self other }
    {
        self.life > other.life || (self.life == other.life && self.number > other.number)
    }

    pub(crate) fn bytes(self) -> [u8; STAMP]
        ensures { result ≡ stamp_bytes self }
    {
        let mut bytes = [0u8; STAMP];
        bytes[..8].copy_from_slice(&self.life.to_be_bytes());
        bytes[8..].copy_from_slice(&self.number.to_be_bytes());
        bytes
    }

    pub(crate) fn read(bytes: &[u8]) -> Stamp
        requires { length bytes.now ≡ 16 }
        ensures { result ≡ stamp_in bytes.now }
    {
        let (life, number) = bytes.split_at(8);
        Stamp {
            life: number_in(life),
            number: number_in(number),
        }
    }
}
