ghost use Rattle.std.specs.Prelude.{◌≡◌, ◌++◌, OnOk, IfOk};
ghost use Rattle.std.specs.Int.{w64, to_be_bytes};
ghost use Rattle.lease_message.specs.Spelling.{Spells, IsBody, IsClient, IsMessage, content, client_bytes, spelling};

use crate::message::{LeaseBody, LeaseClient, LeaseMessage};
use std::alloc::{AllocError, Global};

fn put_number(out: &mut Vec<u8>, number: u64) -> Result<(), AllocError>
    ensures { OnOk result (out.new.items ≡ out.old.items ++ to_be_bytes w64 number) }
{
    let bytes = number.to_be_bytes();
    out.extend_from_slice(&bytes)
}

fn put_client(out: &mut Vec<u8>, client: LeaseClient) -> Result<(), AllocError>
    ensures bytes { OnOk result (out.new.items ≡ out.old.items ++ client_bytes client) }
    ensures fits { OnOk result (IsClient client) }
{
    out.push(client.machine.number())?;
    put_number(out, client.process)?;
    put_number(out, client.number)?;
    Ok(())
}

fn put_body(out: &mut Vec<u8>, body: &LeaseBody) -> Result<(), AllocError>
    ensures bytes { OnOk result (out.new.items ≡ out.old.items ++ content body.now) }
    ensures fits { OnOk result (IsBody body.now) }
{
    match body {
        LeaseBody::Request {
            number,
            keeps,
            list,
        } => {
            put_number(out, *number)?;
            put_number(out, *keeps)?;
            put_number(out, *list)?;
        }
        LeaseBody::Grant { number } => put_number(out, *number)?,
        LeaseBody::Refusal {
            number,
            reason,
            lasts,
        } => {
            put_number(out, *number)?;
            out.push(reason.number())?;
            put_number(out, *lasts)?;
        }
        LeaseBody::Release => (),
    }
    Ok(())
}

/// Writes the spelling behind what stands there.
fn put(out: &mut Vec<u8>, message: &LeaseMessage) -> Result<(), AllocError>
    ensures bytes { OnOk result (out.new.items ≡ out.old.items ++ spelling message.now) }
    ensures fits { OnOk result (IsMessage message.now) }
{
    let kind = message.body.kind();
    out.extend_from_slice(&[1, kind])?;
    put_client(out, message.client)?;
    out.push(message.voter.number())?;
    put_number(out, message.epoch)?;
    put_body(out, &message.body)?;
    out.extend_from_slice(message.name.as_slice())?;
    Ok(())
}

/// The spelling of the message.
pub fn encode(alloc: Global, message: &LeaseMessage) -> Result<Vec<u8>, AllocError>
    // Promise: What `encode` gives is the spelling of its message, so `decode` of it is that message.
    // Also: decode, one_spelling.
    // Refuses: epoch_not_written, list_written_for_keeps.
    ensures { IfOk result (λ bytes. Spells message.now bytes.items) }
{
    let mut bytes = Vec::new(alloc);
    put(&mut bytes, message)?;
    Ok(bytes)
}
