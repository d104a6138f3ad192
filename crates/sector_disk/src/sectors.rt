// The sectors of a disk in memory, in two halves.
ghost use Rattle.std.specs.Prelude.{◌≡◌, ◌<◌, ◌++◌, length, set, drop, replicate, IfOk};
ghost use Rattle.sector_disk.specs.Disk.{sector_at};
ghost use Rattle.sector_disk.specs.Crash.{filled};
ghost use Rattle.sector_disk.specs.Undo.{last_of, whole};

use crate::front::Front;
use crate::sector::Sector;
use std::alloc::{AllocError, Global};
use std::marker::Model;

/// Sectors of which those up to the last written one of each half are kept, and the others are
/// zeros. What is kept in two areas, one in each half, takes no memory for the end of the lower
/// one.
#[derive(Debug, Drop)]
pub struct Sectors {
    count: usize,
    low: Front,
    high: Front,
}

impl Model for Sectors {
    ghost use Rattle.sector_disk.specs.Disk.{Image};
    ghost use Rattle.sector_disk.specs.Halves.{sectors_of, IsCounted};

    ghost Value = { Image };

    ghost view = { sectors_of };

    ghost invariant = { IsCounted };
}

impl Sectors {
    /// So many sectors of zeros.
    pub fn zeros(alloc: Global, count: usize) -> Result<Sectors, AllocError>
        ensures { IfOk result (λ sectors. sectors ≡ replicate count (replicate 512 0)) }
    {
        let low = Front::zeros(alloc, count / 2)?;
        let high = Front::zeros(alloc, count - count / 2)?;
        Ok(Sectors { count, low, high })
    }

    /// The same sectors once more.
    pub fn copy(&self, alloc: Global) -> Result<Sectors, AllocError>
        ensures { IfOk result (λ copy. copy ≡ self.now) }
    {
        Ok(Sectors {
            count: self.count,
            low: self.low.copy(alloc)?,
            high: self.high.copy(alloc)?,
        })
    }

    pub fn len(&self) -> usize
        ensures { result ≡ length self.now }
    {
        self.count
    }

    pub fn read(&self, at: usize, into: &mut Sector)
        requires { at < length self.now }
        ensures { into.new ≡ sector_at self.now at }
    {
        let (half, at) = self.half_of(at);
        half.read(at, into);
    }

    /// The first bytes of a sector, and none if all behind them are zeros, else all without the zeros at the end.
    pub fn parts(&self, at: usize) -> (&[u8; 32], &[u8])
        requires { at < length self.now }
        ensures { whole (last_of result.0.now result.1.now) ≡ sector_at self.now at }
    {
        let (half, at) = self.half_of(at);
        half.parts(at)
    }

    // The half that a sector stands in, and its place there.
    fn half_of(&self, at: usize) -> (&Front, usize)
        requires { at < length self.now }
        ensures place { result.1 < length result.0.now }
        ensures same { sector_at result.0.now result.1 ≡ sector_at self.now at }
    {
        let below = self.low.len();
        if at < below {
            (&self.low, at)
        } else {
            (&self.high, at - below)
        }
    }

    pub fn write(&mut self, at: usize, from: &Sector)
        requires { at < length self.old }
        ensures { self.new ≡ set self.old at from.now }
    {
        let below = self.low.len();
        if at < below {
            self.low.write(at, from);
        } else {
            self.high.write(at - below, from);
        }
    }

    /// Gives a sector the bytes that it had, of which the zeros at the end were left out.
    pub fn restore(&mut self, at: usize, trimmed: &[u8])
        requires { at < length self.old }
        ensures { self.new ≡ set self.old at (whole trimmed.now) }
    {
        let below = self.low.len();
        if at < below {
            self.low.restore(at, trimmed);
        } else {
            self.high.restore(at - below, trimmed);
        }
    }

    /// Writes the next bytes of a fill over the start of a sector, and answers those after them.
    pub fn fill_from<'a>(&mut self, at: usize, fill: &'a [u8]) -> &'a [u8]
        requires { at < length self.old }
        ensures torn { self.new ≡ set self.old at (filled fill.now (sector_at self.old at)) }
        ensures rest { result.now ≡ drop 512 fill.now }
    {
        let below = self.low.len();
        if at < below {
            self.low.fill_from(at, fill)
        } else {
            self.high.fill_from(at - below, fill)
        }
    }
}
