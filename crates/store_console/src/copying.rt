//! The sectors of a file, as a disk in memory.

ghost use Rattle.std.specs.Prelude.{◌≡◌, ◌↔◌, ◌<◌, ◌≤◌, ◌+◌, ◌*◌, ◌/◌, ◌^◌, ◌++◌, IfOk, OnOk, length, replicate, set, take, drop};
ghost use Rattle.file_disk.specs.File.{bytes_of};
ghost use Rattle.file_disk.specs.declared.stride.Stride.TheVariants.{Spaced};
ghost use Rattle.store_console.specs.Held.{IsHeldBy, IsSpacedFile, label_by, label_in};

use file_disk::{LABEL, OLDER_LABEL, Stride, stride_in};
use sector_disk::{MemDisk, SectorDisk};
use std::alloc::{AllocError, Global};

/// A disk with the sectors of these bytes, which lie as far apart as the label behind them says.
pub fn disk_of(alloc: Global, bytes: &[u8]) -> Result<MemDisk, AllocError>
    ensures { IfOk result (λ disk. IsHeldBy bytes.now disk.contents) }
{
    let stride = stride_of(bytes);
    let sectors = sectors_in(bytes.len(), stride);
    let mut disk = MemDisk::new(alloc, sectors as u64)?;
    for at in 0..sectors {
        copy_sector(&mut disk, at, bytes, place_of(at, stride))?;
    }
    Ok(disk)
}

/// How far apart the sectors of a file with these bytes lie.
fn stride_of(bytes: &[u8]) -> Stride
    ensures { (result ≡ Spaced) ↔ IsSpacedFile bytes.now }
{
    let behind = bytes.len() % 4096;
    if behind != LABEL && behind != OLDER_LABEL {
        return Stride::Packed;
    }
    stride_in(label_in(bytes))
}

/// The bytes behind the last sector, where they are as many as a label has. Behind one of version 1 zeros are taken.
pub fn label_in(bytes: &[u8]) -> Option<[u8; LABEL]>
    ensures { result ≡ label_in bytes.now }
{
    let (_, tail) = bytes.split_at(512 * (bytes.len() / 512));
    label_by(tail)
}

fn label_by(tail: &[u8]) -> Option<[u8; LABEL]>
    ensures { result ≡ label_by tail.now }
{
    if let Ok(label) = <[u8; LABEL]>::try_from(tail) {
        return Some(label);
    }
    match <[u8; OLDER_LABEL]>::try_from(tail) {
        Ok(older) => Some(lengthened(older)),
        Err(_) => None,
    }
}

/// A label of version 1, with zeros behind it.
fn lengthened(older: [u8; OLDER_LABEL]) -> [u8; LABEL]
    ensures { result ≡ older ++ replicate 16 0 }
{
    let mut label = [0; LABEL];
    label[..OLDER_LABEL].copy_from_slice(&older);
    label
}

/// How many sectors so many bytes hold.
fn sectors_in(bytes: usize, stride: Stride) -> usize
    ensures { result ≡ bytes / bytes_of stride }
{
    match stride {
        Stride::Packed => bytes / 512,
        Stride::Spaced => bytes / 4096,
    }
}

/// Where the sector of this number begins.
fn place_of(at: usize, stride: Stride) -> usize
    requires { bytes_of stride * at < 2 ^ 64 }
    ensures { result ≡ bytes_of stride * at }
{
    match stride {
        Stride::Packed => 512 * at,
        Stride::Spaced => 4096 * at,
    }
}

/// Copies one sector from this place on. A disk in memory fails for want of memory alone.
fn copy_sector(disk: &mut MemDisk, at: usize, bytes: &[u8], place: usize) -> Result<(), AllocError>
    requires on_disk { at < length disk.old.contents }
    requires in_bytes { place + 512 ≤ length bytes.now }
    ensures { OnOk result (disk.new.contents ≡ set disk.old.contents at (take 512 (drop place bytes.now))) }
{
    let mut sector = [0; 512];
    sector.copy_from_slice(&bytes[place..place + 512]);
    match disk.write(at as u64, &sector) {
        Ok(()) => Ok(()),
        Err(_) => Err(AllocError),
    }
}
