// Blocks of bytes, and whether they are all zeros.
ghost use Rattle.std.specs.Prelude.{◌≡◌, ◌≤◌, IsTrue, drop, length, replicate};
ghost use Rattle.disk_layout.specs.Blank.{is_blank};

/// What a disk reads and writes at once.
pub type Sector = [u8; 512];

/// Whether all bytes from there on are zero.
pub fn is_blank(sector: &Sector, from: usize) -> bool
    requires { from ≤ 512 }
    // Promise: Bytes are blank exactly where all of them are zero.
    // Also: is_zero_block.
    // Refuses: one_other_byte_is_blank, first_byte_not_looked_at.
    ensures { result ≡ is_blank (drop from sector.now) }
{
    is_zero_block(&sector[from..])
}

/// Whether a block of bytes is all zeros. It looks at all of them, many at a time.
pub fn is_zero_block(block: &[u8]) -> bool
    ensures value { result ≡ is_blank block.now }
    ensures zeros { IsTrue result → block.now ≡ replicate (length block.now) 0 }
{
    let mut zeros = true;
    for at in 0..block.len() {
        zeros &= block[at] == 0;
    }
    zeros
}
