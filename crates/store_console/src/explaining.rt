//! What standard error says of requests for which the file can't be had.

ghost use Rattle.std.specs.Prelude.{◌≡◌, ◌++◌, OnOk};
ghost use Rattle.store_console.specs.Barring.{kind_text};
ghost use Rattle.store_console.specs.Explained.{Explains, IsSaid, apart};

use crate::reply::Reply;
use console_text::{push_named_number, push_text};
use file_disk::OpenFault;
use std::alloc::{AllocError, Global};

/// Adds why the file can't be had, where that is the answer to the line of this number.
pub fn push_why(
    alloc: Global,
    why: &mut Vec<u8>,
    number: u64,
    reply: Reply,
) -> Result<(), AllocError>
    ensures { OnOk result (Explains why.old.items number reply why.new.items) }
{
    match reply {
        Reply::Barred(fault) => push_said(alloc, why, number, fault),
        _ => Ok(()),
    }
}

/// Adds the word for it, and the system's words.
fn push_said(
    alloc: Global,
    why: &mut Vec<u8>,
    number: u64,
    fault: OpenFault,
) -> Result<(), AllocError>
    ensures { OnOk result (IsSaid why.old.items number fault why.new.items) }
{
    let words = format!(in alloc; "{fault}")?;
    push_apart(why)?;
    push_named_number(why, "line ", number)?;
    push_text(why, ": ")?;
    push_text(why, kind_name(fault))?;
    push_text(why, ": ")?;
    push_text(why, words.as_str())
}

/// Adds what stands between a reason and those before it.
#[tactic(auto, using(crate::proofs::Aparts::first_reason, crate::proofs::Aparts::later_reason))]
pub fn push_apart(why: &mut Vec<u8>) -> Result<(), AllocError>
    ensures { OnOk result (why.new.items ≡ why.old.items ++ apart why.old.items) }
{
    if why.is_empty() {
        return Ok(());
    }
    push_text(why, "\ninvite: ")
}

/// The word for it.
fn kind_name(fault: OpenFault) -> &'static str
    ensures { result.now ≡ kind_text fault }
{
    match fault {
        OpenFault::Locked => "Locked",
        OpenFault::Exists(_) => "Exists",
        OpenFault::NotFound(_) => "NotFound",
        OpenFault::Denied(_) => "Denied",
        OpenFault::Folder(_) => "Folder",
        OpenFault::NotAFile => "NotAFile",
        OpenFault::Unusable(_) => "Unusable",
        OpenFault::NoRoom(_) => "NoRoom",
        OpenFault::Device(_) => "Device",
    }
}
