// Sectors of which the first ones are kept, and the others are zeros.
ghost use Rattle.std.specs.Prelude.{◌≡◌, ◌<◌, ◌≤◌, ◌+◌, ◌-◌, ◌++◌, length, set, drop, replicate, IfOk, vec_capacity};
ghost use Rattle.sector_disk.specs.Disk.{sector_at};
ghost use Rattle.sector_disk.specs.Crash.{filled};
ghost use Rattle.sector_disk.specs.Undo.{last_of, whole};

use crate::sector::{Sector, fill_from, is_short, is_zero, parts, put, restore};
use std::alloc::{AllocError, Global};
use std::marker::Model;

/// Sectors of which those up to the last that was written are kept, and the others are zeros.
///
/// Room for all of them is set aside when they are made, so no later call takes memory; what is
/// set aside and not kept is never touched.
#[derive(Debug, Drop)]
pub struct Front {
    count: usize,
    kept: Vec<Sector>,
    // Of each sector whether its bytes behind the first 32 are known to be zeros: these needn't be looked at again.
    short: Vec<bool>,
}

impl Model for Front {
    ghost use Rattle.sector_disk.specs.Disk.{Image};
    ghost use Rattle.sector_disk.specs.Kept.{front_of, HasRoom};

    ghost Value = { Image };

    ghost view = { front_of };

    ghost invariant = { HasRoom };
}

impl Front {
    /// So many sectors of zeros.
    pub fn zeros(alloc: Global, count: usize) -> Result<Front, AllocError>
        ensures { IfOk result (λ sectors. sectors ≡ replicate count (replicate 512 0)) }
    {
        let kept = Vec::with_capacity(alloc, count)?;
        let short = vec![in alloc; false; count]?;
        Ok(Front { count, kept, short })
    }

    /// The same sectors once more.
    pub fn copy(&self, alloc: Global) -> Result<Front, AllocError>
        ensures { IfOk result (λ copy. copy ≡ self.now) }
    {
        let mut kept = Vec::with_capacity(alloc, self.count)?;
        kept.extend_from_slice(&self.kept)?;
        let short = self.short.to_vec(alloc)?;
        Ok(Front {
            count: self.count,
            kept,
            short,
        })
    }

    pub fn len(&self) -> usize
        ensures { result ≡ length self.now }
    {
        self.count
    }

    pub fn read(&self, at: usize, into: &mut Sector)
        requires { at < length self.now }
        ensures { into.new ≡ sector_at self.now at }
    {
        *into = match self.kept.get(at) {
            Some(sector) => *sector,
            None => [0; 512],
        };
    }

    /// The first bytes of a sector, and none if all behind them are zeros, else all without the zeros at the end.
    pub fn parts(&self, at: usize) -> (&[u8; 32], &[u8])
        requires { at < length self.now }
        ensures { whole (last_of result.0.now result.1.now) ≡ sector_at self.now at }
    {
        match self.kept.get(at) {
            Some(sector) => parts(sector, self.short[at]),
            None => (&[0; 32], &[]),
        }
    }

    pub fn write(&mut self, at: usize, from: &Sector)
        requires { at < length self.old }
        ensures { self.new ≡ set self.old at from.now }
    {
        if at >= self.kept.len() && is_zero(from) {
            return;
        }
        keep(&mut self.kept, at);
        let short = is_short(from);
        put(&mut self.kept[at], self.short[at], from, short);
        self.short[at] = short;
    }

    /// Gives a sector the bytes that it had, of which the zeros at the end were left out.
    pub fn restore(&mut self, at: usize, trimmed: &[u8])
        requires { at < length self.old }
        ensures { self.new ≡ set self.old at (whole trimmed.now) }
    {
        keep(&mut self.kept, at);
        restore(&mut self.kept[at], trimmed);
        self.short[at] = false;
    }

    /// Writes the next bytes of a fill over the start of a sector, and answers those after them.
    pub fn fill_from<'a>(&mut self, at: usize, fill: &'a [u8]) -> &'a [u8]
        requires { at < length self.old }
        ensures torn { self.new ≡ set self.old at (filled fill.now (sector_at self.old at)) }
        ensures rest { result.now ≡ drop 512 fill.now }
    {
        keep(&mut self.kept, at);
        let rest = fill_from(&mut self.kept[at], fill);
        self.short[at] = false;
        rest
    }
}

// Keeps the sectors up to this one.
fn keep(kept: &mut Vec<Sector>, at: usize)
    requires { at < vec_capacity kept.old }
    ensures kept { kept.new.items ≡ kept.old.items ++ replicate (at + 1 - length kept.old.items) (replicate 512 0) }
    ensures room { vec_capacity kept.new ≡ vec_capacity kept.old }
{
    while kept.len() <= at {
        kept.push_reserved([0; 512]);
    }
}
