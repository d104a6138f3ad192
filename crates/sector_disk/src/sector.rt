// A sector, and its bytes without the zeros at its end.
ghost use Rattle.std.specs.Prelude.{◌≡◌, ◌≤◌, ◌↔◌, IsTrue, length, drop, replicate};
ghost use Rattle.sector_disk.specs.Crash.{filled};
ghost use Rattle.sector_disk.specs.Shorts.{IsShort};
ghost use Rattle.sector_disk.specs.Undo.{last_of, whole};

pub use disk_layout::Sector;
use disk_layout::is_zero_block;

// Whether a sector is all zeros.
#[tactic(auto, using(disk_layout::proofs::PublicLaws::blank))]
pub fn is_zero(sector: &Sector) -> bool
    ensures { IsTrue result ↔ (sector.now ≡ replicate 512 0) }
{
    is_zero_block(sector)
}

// Whether all bytes of a sector behind its first 32 are zeros.
pub fn is_short(sector: &Sector) -> bool
    ensures { IsTrue result → IsShort sector.now }
{
    is_zero_block(&sector[32..])
}

// Puts the bytes of a sector in place of those of another. Where both are known to be zeros behind their first 32, these alone are copied.
pub fn put(sector: &mut Sector, was_short: bool, from: &Sector, is_short: bool)
    requires old { IsTrue was_short → IsShort sector.old }
    requires new { IsTrue is_short → IsShort from.now }
    ensures { sector.new ≡ from.now }
{
    if was_short && is_short {
        sector[..32].copy_from_slice(&from[..32]);
    } else {
        *sector = *from;
    }
}

// The first bytes of a sector, and none if all behind them are zeros, else all without the zeros at the end. Where they are known to be
// zeros they aren't looked at.
pub fn parts(sector: &Sector, short: bool) -> (&[u8; 32], &[u8])
    requires { IsTrue short → IsShort sector.now }
    ensures { whole (last_of result.0.now result.1.now) ≡ sector.now }
{
    let first = sector.first_chunk().unwrap();
    if short || is_short(sector) {
        return (first, &[]);
    }
    (first, trimmed(sector))
}

// The bytes of a sector without zeros at its end: its last half is looked at first, then half of what is left, down to 32 bytes.
fn trimmed(sector: &Sector) -> &[u8]
    ensures least { 32 ≤ length result.now }
    ensures whole { whole result.now ≡ sector.now }
{
    let mut len = 512usize;
    let mut block = 256usize;
    while block >= 32 {
        if is_zero_block(&sector[len - block..len]) {
            len -= block;
        }
        block /= 2;
    }
    &sector[..len]
}

pub fn restore(sector: &mut Sector, trimmed: &[u8])
    ensures { sector.new ≡ whole trimmed.now }
{
    let len = trimmed.len().min(512);
    *sector = [0; 512];
    sector[..len].copy_from_slice(&trimmed[..len]);
}

// Writes the next bytes of a fill over the start of a sector, and answers those after them.
pub fn fill_from<'a>(sector: &mut Sector, fill: &'a [u8]) -> &'a [u8]
    ensures torn { sector.new ≡ filled fill.now sector.old }
    ensures rest { result.now ≡ drop 512 fill.now }
{
    let len = fill.len().min(512);
    sector[..len].copy_from_slice(&fill[..len]);
    &fill[len..]
}
