//! The file of a store is made.

ghost use Rattle.store_console.specs.Barring.{Bars};
ghost use Rattle.store_console.specs.Replies.{Finishes, IsBarredBy, IsFormatted, IsFormattedBy};
ghost use Rattle.std.specs.Prelude.{IfOk};

use crate::barring::{bar_by, barred, failed};
use crate::reply::Reply;
use file_disk::{FileDisk, LABEL, OpenFault, Stride, put_in_place};
use node_store::{StoreFault, format};
use std::alloc::{AllocError, Global};
use std::fs::{File, Files};
use std::io::ErrorKind;
use std::path::{AsPath, PathBuf};
use std::{fs, io};

/// What the name of a file that isn't whole ends with.
const UNFINISHED: &str = ".unfinished";

/// Makes the file of a store with so many slots in each area, and formats it. Where a file is there, the new one is made beside it, and only
/// takes its name once it is whole: whenever that is cut off, the name leads to the old file, as it was, or to the new one. What is made and
/// isn't used is removed.
pub fn make<P: AsPath>(
    rt: &impl Files<File = File>,
    alloc: Global,
    path: &P,
    slots: u64,
) -> Result<Reply, AllocError>
    ensures { IfOk result IsFormatted }
{
    let Some(sectors) = slots.checked_mul(4).and_then(|areas| areas.checked_add(8)) else {
        return Ok(Reply::Unmounted(StoreFault::Device));
    };
    make_over(rt, alloc, path, sectors, FileDisk::open(rt, path))
}

/// Makes the file over what was opened under its name, if anything is there.
#[tactic(auto, using(crate::proofs::Barrings::barred_formatted, crate::proofs::Barrings::is_barred))]
fn make_over<P: AsPath>(
    rt: &impl Files<File = File>,
    alloc: Global,
    path: &P,
    sectors: u64,
    opened: Result<FileDisk, OpenFault>,
) -> Result<Reply, AllocError>
    ensures formatted { IfOk result IsFormatted }
    ensures barred { IfOk result (λ reply. IsBarredBy opened reply) }
{
    // it stays open, and so locked, until another file has its name
    match opened {
        Ok(old) => replace_labelled(rt, alloc, path, sectors, old.label()),
        Err(OpenFault::NotFound(_)) => Ok(finish(rt, path, FileDisk::create(rt, path, sectors))),
        Err(fault) => Ok(barred(fault)),
    }
}

/// Makes the file in place of an open one with this label, or with none.
#[tactic(auto, using(crate::proofs::Barrings::bar_formatted, crate::proofs::Barrings::bars_so, crate::proofs::Barrings::bars_not, crate::proofs::Barrings::barred_formatted))]
fn replace_labelled<P: AsPath>(
    rt: &impl Files<File = File>,
    alloc: Global,
    path: &P,
    sectors: u64,
    label: io::Result<Option<[u8; LABEL]>>,
) -> Result<Reply, AllocError>
    ensures formatted { IfOk result IsFormatted }
    // Promise: A format over a node's file is answered `Foreign`.
    // Refuses: nodes_file_formatted.
    ensures bars { IfOk result (λ reply. Bars label reply) }
{
    if let Some(bar) = bar_by(label) {
        return Ok(bar);
    }
    match names(rt, alloc, path) {
        Ok((whole, beside)) => Ok(replace(rt, &whole, &beside, sectors)),
        Err(error) if error.kind() == ErrorKind::OutOfMemory => Err(AllocError),
        Err(error) => Ok(barred(OpenFault::from(error))),
    }
}

/// Makes a store of this name beside a whole file, and puts it in that file's place.
#[tactic(auto, using(crate::proofs::Barrings::barred_formatted))]
fn replace(rt: &impl Files<File = File>, whole: &PathBuf, beside: &String, sectors: u64) -> Reply
    ensures { IsFormatted result }
{
    // what another format left when it was cut off: none is at work, for the old file is locked
    let _ = fs::remove_file(rt, beside);
    let made = FileDisk::create_new(rt, beside, sectors, Stride::Packed);
    let reply = finish(rt, beside, made);
    if !matches!(reply, Reply::Done) {
        return reply;
    }
    if let Err(error) = put_in_place(rt, beside, whole) {
        let _ = fs::remove_file(rt, beside);
        return barred(OpenFault::from(error));
    }
    Reply::Done
}

/// The name of the file that a path leads to, and the one beside it.
fn names<P: AsPath>(
    rt: &impl Files<File = File>,
    alloc: Global,
    path: &P,
) -> io::Result<(PathBuf, String)> {
    let whole = rt.canonicalize(alloc, path.path_text())?;
    let mut beside = String::from_str(alloc, whole.as_path().as_str())?;
    beside.push_str(UNFINISHED)?;
    Ok((whole, beside))
}

/// Formats the file that was made at this path, where one was, and removes it where that fails.
#[tactic(auto, using(crate::proofs::Barrings::barred_formatted, crate::proofs::Barrings::failed_formatted))]
fn finish<P: AsPath>(
    rt: &impl Files<File = File>,
    path: &P,
    made: Result<FileDisk, OpenFault>,
) -> Reply
    ensures finishes { Finishes made result }
    ensures formatted { IsFormatted result }
{
    let mut disk = match made {
        Ok(disk) => disk,
        Err(fault) => return barred(fault),
    };
    let done = format(&mut disk);
    if done.is_err() {
        let _ = fs::remove_file(rt, path);
    }
    formatted(done, disk.why())
}

/// What the format of a disk is answered, of which the system said this where it failed.
fn formatted(done: Result<(), StoreFault>, why: Option<io::Error>) -> Reply
    // Promise: A format is acknowledged only where that of the disk was.
    // Refuses: failed_format_is_done.
    ensures { IsFormattedBy done result }
{
    match done {
        Ok(()) => Reply::Done,
        Err(_) => failed(why),
    }
}
