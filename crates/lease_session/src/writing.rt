// The lines of answers.
ghost use Rattle.std.specs.Prelude.{◌≡◌, ◌++◌, OnOk, IfSome, codes, decimal};
ghost use Rattle.hex.specs.Hex.{encode_lower};
ghost use Rattle.lease_runs.specs.Code.{client_of as by_code};
ghost use Rattle.lease_message.specs.declared.message.LeaseMessage.{LeaseMessage as Message};
ghost use Rattle.lease_session.specs.Rows.{asker, fault, held, lost, next, refused, row_text, send, time_text, unserved};

use crate::refusing::Refusal;
use console_text::{push_hex, push_named_number, push_text};
use group_task::NodeId;
use lease_message::{LeaseClient, LeaseName};
use lease_runs::ClientId;
use std::alloc::AllocError;

/// A client, as messages name it. None where its machine is none of a list.
pub(crate) fn named(client: ClientId) -> Option<LeaseClient>
    ensures { IfSome result (λ it. asker it ≡ by_code client) }
{
    let machine = match u8::try_from(client.machine) {
        Ok(machine) => NodeId::new(machine)?,
        Err(_) => return None,
    };
    Some(LeaseClient {
        machine,
        process: client.boot,
        number: client.number,
    })
}

/// The client that a message names.
pub(crate) fn client_of(client: LeaseClient) -> ClientId
    ensures { by_code result ≡ asker client }
{
    ClientId {
        machine: u64::from(client.machine.number()),
        boot: client.process,
        number: client.number,
    }
}

/// Adds the letters of a name, and a number behind it.
fn push_user(text: &mut Vec<u8>, name: &LeaseName, user: u64) -> Result<(), AllocError>
    ensures { OnOk result (text.new.items ≡ text.old.items ++ (name.now ++ codes " " ++ decimal user)) }
{
    text.extend_from_slice(name.as_slice())?;
    push_named_number(text, " ", user)
}

/// A message goes to a machine, as these bytes.
pub(crate) fn push_send(text: &mut Vec<u8>, to: NodeId, bytes: &[u8]) -> Result<(), AllocError>
    ensures { (message : Message) → OnOk result (text.new.items ≡ text.old.items ++ row_text (send to message bytes.now)) }
{
    push_named_number(text, "send ", u64::from(to.number()))?;
    push_text(text, " ")?;
    push_hex(text, bytes)?;
    push_text(text, "\n")
}

/// A user holds the lease of a name under an epoch until a time of the machine's clock.
pub(crate) fn push_held(
    text: &mut Vec<u8>,
    name: &LeaseName,
    user: u64,
    epoch: u64,
    until: u64,
) -> Result<(), AllocError>
    ensures { OnOk result (text.new.items ≡ text.old.items ++ row_text (held name.now user epoch until)) }
{
    push_text(text, "held ")?;
    push_user(text, name, user)?;
    push_named_number(text, " ", epoch)?;
    push_named_number(text, " ", until)?;
    push_text(text, "\n")
}

/// And holds it no more.
pub(crate) fn push_lost(text: &mut Vec<u8>, name: &LeaseName, epoch: u64) -> Result<(), AllocError>
    ensures { OnOk result (text.new.items ≡ text.old.items ++ row_text (lost name.now epoch)) }
{
    push_text(text, "lost ")?;
    push_user(text, name, epoch)?;
    push_text(text, "\n")
}

/// Something isn't taken.
pub(crate) fn push_refused(text: &mut Vec<u8>, why: Refusal) -> Result<(), AllocError>
    ensures { OnOk result (text.new.items ≡ text.old.items ++ row_text (refused why)) }
{
    push_text(text, "refused ")?;
    push_text(text, why.word())?;
    push_text(text, "\n")
}

/// A user's request isn't taken.
pub(crate) fn push_unserved(
    text: &mut Vec<u8>,
    why: Refusal,
    name: &LeaseName,
    user: u64,
) -> Result<(), AllocError>
    ensures { OnOk result (text.new.items ≡ text.old.items ++ row_text (unserved why name.now user)) }
{
    push_text(text, "refused ")?;
    push_text(text, why.word())?;
    push_text(text, " ")?;
    push_user(text, name, user)?;
    push_text(text, "\n")
}

/// When something is due next, where anything will be.
pub(crate) fn push_next(text: &mut Vec<u8>, due: Option<u64>) -> Result<(), AllocError>
    ensures { OnOk result (text.new.items ≡ text.old.items ++ row_text (next due)) }
{
    match due {
        Some(due) => push_named_number(text, "next ", due)?,
        None => push_text(text, "next")?,
    }
    push_text(text, "\n")
}

/// The device failed.
pub(crate) fn push_fault(text: &mut Vec<u8>) -> Result<(), AllocError>
    ensures { OnOk result (text.new.items ≡ text.old.items ++ row_text fault) }
{
    push_text(text, "fault Device\n")
}
