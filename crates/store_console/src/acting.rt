//! What each request does to what is mounted.

ghost use Rattle.std.specs.Prelude.{◌≡◌, IfOk};
ghost use Rattle.store_console.specs.declared.request.Request.TheVariants as asked;
ghost use Rattle.store_console.specs.Mounting.{MountsLabelled, MountsOpened, Takes};
ghost use Rattle.store_console.specs.Replies.{IsMounted, Replies, RepliesOver, Settles, valued};

use crate::barring::{bar_by, barred, failed};
use crate::making::make;
use crate::reply::Reply;
use crate::request::Request;
use file_disk::{FileDisk, LABEL, OpenFault};
use job_journal::JournalFault;
use job_model::Work;
use node_store::{MountFault, NodeStore, StoreFault};
use std::alloc::{AllocError, Global};
use std::fs::{File, Files};
use std::io;
use std::path::AsPath;

/// Does what a request asks. Nothing but a mounting and a format asks for memory. Once the device has failed, nothing is mounted.
pub fn reply<P: AsPath>(
    rt: &impl Files<File = File>,
    alloc: Global,
    path: &P,
    mounted: &mut Option<NodeStore<FileDisk>>,
    has_failed: bool,
    request: &Request,
) -> Result<Reply, AllocError>
    ensures { IfOk result (λ reply. RepliesOver has_failed mounted.old request.now reply mounted.new) }
{
    match request {
        Request::Format(slots) => {
            *mounted = None;
            make(rt, alloc, path, *slots)
        }
        Request::Mount if has_failed => {
            *mounted = None;
            Ok(Reply::Unmounted(StoreFault::Device))
        }
        Request::Mount => mount(rt, alloc, path, mounted),
        Request::Raise => Ok(raise(mounted)),
        Request::Put(work) => Ok(put(mounted, *work)),
        Request::Done(id) => Ok(done(mounted, *id)),
        Request::Compact => Ok(compact(mounted)),
        Request::List => Ok(list(mounted)),
    }
}

/// Mounts the file, in place of what was mounted.
#[tactic(auto, using(crate::proofs::Barrings::mounts_taken))]
fn mount<P: AsPath>(
    rt: &impl Files<File = File>,
    alloc: Global,
    path: &P,
    mounted: &mut Option<NodeStore<FileDisk>>,
) -> Result<Reply, AllocError>
    ensures { IfOk result (λ reply. IsMounted reply mounted.new) }
{
    // what has the file locked is given up first
    *mounted = None;
    let mounting = mount_opened(alloc, FileDisk::open(rt, path))?;
    Ok(take(mounted, mounting))
}

/// Takes what a mounting gave in place of what was mounted, and answers it.
fn take(
    mounted: &mut Option<NodeStore<FileDisk>>,
    mounting: Result<NodeStore<FileDisk>, Reply>,
) -> Reply
    // Promise: Behind `mount` the requests are of the store as it was mounted, and of none where the mounting was refused, which is answered as it was.
    // Refuses: mounting_compacts, refused_mounting_is_done.
    ensures takes { Takes mounting result mounted.new }
{
    match mounting {
        Ok(store) => {
            *mounted = Some(store);
            Reply::Done
        }
        Err(refusal) => {
            *mounted = None;
            refusal
        }
    }
}

/// Mounts a file that was opened, or answers why there is none to mount.
fn mount_opened(
    alloc: Global,
    opened: Result<FileDisk, OpenFault>,
) -> Result<Result<NodeStore<FileDisk>, Reply>, AllocError>
    ensures { IfOk result (λ mounting. MountsOpened opened mounting) }
{
    match opened {
        Ok(disk) => {
            let label = disk.label();
            mount_labelled(alloc, disk, label)
        }
        Err(fault) => Ok(Err(barred(fault))),
    }
}

/// Mounts a file with this label, or with none.
#[tactic(auto, using(crate::proofs::Barrings::settles_labelled))]
fn mount_labelled(
    alloc: Global,
    disk: FileDisk,
    label: io::Result<Option<[u8; LABEL]>>,
) -> Result<Result<NodeStore<FileDisk>, Reply>, AllocError>
    // Promise: A file is mounted only where its label isn't that of a node's file, and then it is answered `TooSmall` exactly where it has fewer than 24
    // sectors.
    // Refuses: nodes_file_mounted, small_file_is_damaged.
    ensures labelled { IfOk result (λ mounting. MountsLabelled disk label mounting) }
{
    match bar_by(label) {
        Some(bar) => Ok(Err(bar)),
        None => settled(NodeStore::mount(alloc, disk)),
    }
}

/// What a mounting is answered. Where the device failed, with the system's words.
fn settled(
    mounting: Result<NodeStore<FileDisk>, MountFault<FileDisk>>,
) -> Result<Result<NodeStore<FileDisk>, Reply>, AllocError>
    // Promise: A store that was mounted is had as it is, and a mounting that was refused is answered by its fault.
    // Refuses: good_store_is_damaged.
    ensures settles { IfOk result (λ settled. Settles mounting settled) }
{
    match mounting {
        Ok(store) => Ok(Ok(store)),
        Err(refusal) => match refusal.fault {
            StoreFault::NoMemory => Err(AllocError),
            StoreFault::Device => Ok(Err(failed(refusal.disk.why()))),
            fault => Ok(Err(Reply::Unmounted(fault))),
        },
    }
}

fn raise(mounted: &mut Option<NodeStore<FileDisk>>) -> Reply
    ensures { Replies mounted.old asked.Raise result mounted.new }
{
    match mounted {
        None => Reply::Refused(JournalFault::Broken),
        Some(store) => valued(store.raise()),
    }
}

fn put(mounted: &mut Option<NodeStore<FileDisk>>, work: Work) -> Reply
    ensures { Replies mounted.old (asked.Put work) result mounted.new }
{
    match mounted {
        None => Reply::Refused(JournalFault::Broken),
        Some(store) => valued(store.put(work)),
    }
}

fn done(mounted: &mut Option<NodeStore<FileDisk>>, id: u64) -> Reply
    ensures { Replies mounted.old (asked.Done id) result mounted.new }
{
    match mounted {
        None => Reply::Refused(JournalFault::Broken),
        Some(store) => match store.done(id) {
            Ok(_) => Reply::Done,
            Err(fault) => Reply::Refused(fault),
        },
    }
}

fn compact(mounted: &mut Option<NodeStore<FileDisk>>) -> Reply
    ensures { Replies mounted.old asked.Compact result mounted.new }
{
    match mounted {
        None => Reply::Refused(JournalFault::Broken),
        Some(store) => match store.compact() {
            Ok(()) => Reply::Done,
            Err(fault) => Reply::Refused(fault),
        },
    }
}

fn list(mounted: &Option<NodeStore<FileDisk>>) -> Reply
    ensures { Replies mounted.now asked.List result mounted.now }
{
    match mounted {
        None => Reply::Refused(JournalFault::Broken),
        Some(_) => Reply::Listed,
    }
}

/// A number, or why there is none.
fn valued(done: Result<u64, JournalFault>) -> Reply
    ensures { result ≡ valued done }
{
    match done {
        Ok(value) => Reply::Value(value),
        Err(fault) => Reply::Refused(fault),
    }
}
