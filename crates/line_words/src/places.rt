//! Where a byte stands first in a text.

ghost use Rattle.memchr.specs.Find.{is_byte, IsFirstByte};

use memchr::memchr;

/// How many bytes are looked at one by one.
const NEAR: usize = 16;

/// The first place that holds this byte, where it mostly is near: only behind the first bytes is it left to `memchr`.
#[inline]
pub fn first_place(byte: u8, text: &[u8]) -> Option<usize>
    ensures { IsFirstByte (is_byte byte) text.now result }
{
    let near = text.len().min(NEAR);
    let mut place = 0;
    while place < near {
        if text[place] == byte {
            return Some(place);
        }
        place += 1;
    }
    if text.len() <= NEAR {
        return None;
    }
    first_far(byte, text)
}

// It stands apart, so that the look at the first bytes is short.
#[inline(never)]
fn first_far(byte: u8, text: &[u8]) -> Option<usize>
    ensures { IsFirstByte (is_byte byte) text.now result }
{
    memchr(byte, text)
}
