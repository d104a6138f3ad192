// A process of leases between the streams of its machine and its session.
ghost use Rattle.std.specs.Prelude.{◌≡◌, ◌++◌, [], IfOk, OnOk, codes, decimal, false};
ghost use Rattle.std.specs.Io.KnownBytes.{Appends};
ghost use Rattle.lease_session.specs.Feeding.{at};
ghost use Rattle.lease_session.specs.Served.{HasOtherText, IsBegun, IsServed, IsServedFrom, first_line};
ghost use Rattle.lease_session.specs.Steps.{IsSound};

use crate::laws::lines_are_steps;
use crate::process::Start;
use crate::seals::LeaseSeal;
use crate::session::LeaseSession;
use crate::store::EpochStore;
use console_text::{push_named_number, push_text};
use lease_machine::LeaseTerms;
use std::alloc::{AllocError, Global};
use std::io;
use std::io::{ErrorKind, Read, Write};

/// How many bytes one read may give.
const PIECE: usize = 65_536;

/// What serving ended with.
#[derive(Clone, Copy, Debug, PartialEq, Eq)]
pub enum LeaseEnd {
    /// The input has no more. Its last line, where that isn't whole, is not answered.
    Input,
    /// The device failed, which the last answer says.
    Device,
}

/// Serves a process of leases until the input ends or the device fails, with its messages sealed where there is a seal. Its first line is `process` and its number:
/// no time may be read before it for a line of the input. What is answered to a read is written in one go. The store comes back.
pub fn serve_leases<S: EpochStore + Drop, R: Read, W: Write>(
    alloc: Global,
    terms: LeaseTerms,
    round_trip: u16,
    start: Start,
    store: S,
    seal: Option<LeaseSeal>,
    input: &mut R,
    output: &mut W,
) -> io::Result<(LeaseEnd, S)>
    // Promise: A process of leases says its number, and then all that is read of the input is fed to its session, in the order in which it was read
    // and once, whatever pieces it comes in, and just the answers to its lines are written, all of them where it ends with the input or a
    // failed device; with a seal its messages are sealed, and without one none is.
    // Also: serve, write_out, any_clearing.
    // Refuses: lease_answers_not_written, lease_line_fed_twice, nothing_sealed_of_leases_under_a_key.
    ensures { IfOk result (λ it. IsServed terms start seal (S.bound store) (R.remaining input.old) (R.remaining input.new) (W.contents output.old) (W.contents output.new) it.0) }
{
    let mut session = begun(alloc, terms, round_trip, start, store, seal)?;
    write_first(alloc, start.process, output)?;
    let end = serve(&mut session, input, output)?;
    Ok((end, session.into_store()))
}

/// The session of a process, with what seals its messages.
fn begun<S: EpochStore + Drop>(
    alloc: Global,
    terms: LeaseTerms,
    round_trip: u16,
    start: Start,
    store: S,
    seal: Option<LeaseSeal>,
) -> Result<LeaseSession<S>, AllocError>
    ensures begun { IfOk result (λ it. IsBegun terms start seal (S.bound store) (at it.participant.process it.participant.told it.stopped (S.bound it.participant.store))) }
    ensures unread { IfOk result (λ it. it.unread.items ≡ []) }
{
    let mut session = LeaseSession::begin(alloc, terms, round_trip, start, store)?;
    match seal {
        Some(seal) => {
            session.seal(seal);
            Ok(session)
        }
        None => Ok(session),
    }
}

/// Says the number of the process.
fn write_first<W: Write>(alloc: Global, process: u64, output: &mut W) -> io::Result<()>
    ensures { OnOk result (Appends (W.contents output.old) (W.contents output.new) (first_line process)) }
{
    let mut line = Vec::new(alloc);
    push_first(&mut line, process)?;
    output.write_all(&line)?;
    output.flush()?;
    Ok(())
}

fn push_first(line: &mut Vec<u8>, process: u64) -> Result<(), AllocError>
    requires { line.old.items ≡ [] }
    ensures { OnOk result (line.new.items ≡ first_line process) }
{
    push_named_number(line, "process ", process)?;
    push_text(line, "\n")
}

/// Feeds what each read gives, and writes what is answered to it.
fn serve<S: EpochStore + Drop, R: Read, W: Write>(
    session: &mut LeaseSession<S>,
    input: &mut R,
    output: &mut W,
) -> io::Result<LeaseEnd>
    requires fresh { session.old.unread.items ≡ [] }
    requires going { session.old.stopped ≡ false }
    requires clear { session.old.participant.process.text.items ≡ [] }
    requires sound { IsSound (at session.old.participant.process session.old.participant.told session.old.stopped (S.bound session.old.participant.store)) }
    ensures { IfOk result (λ end. IsServedFrom (at session.old.participant.process session.old.participant.told session.old.stopped (S.bound session.old.participant.store))
        (R.remaining input.old) (R.remaining input.new) (W.contents output.old) (W.contents output.new) end) }
{
    lines_are_steps();
    let mut piece = [0u8; PIECE];
    for _read in 0..u64::MAX {
        let count = input.read(&mut piece)?;
        if count == 0 {
            return Ok(LeaseEnd::Input);
        }
        session.feed(&piece[..count])?;
        write_out(session, output)?;
        if session.has_stopped() {
            return Ok(LeaseEnd::Device);
        }
    }
    Err(io::Error::from(ErrorKind::Other))
}

/// Writes what was answered, and forgets it.
fn write_out<S: EpochStore + Drop, W: Write>(
    session: &mut LeaseSession<S>,
    output: &mut W,
) -> io::Result<()>
    ensures printed { OnOk result (Appends (W.contents output.old) (W.contents output.new) session.old.participant.process.text.items) }
    ensures cleared { OnOk result (session.new.participant.process.text.items ≡ []) }
    ensures same { OnOk result (HasOtherText
        (at session.old.participant.process session.old.participant.told session.old.stopped (S.bound session.old.participant.store))
        (at session.new.participant.process session.new.participant.told session.new.stopped (S.bound session.new.participant.store))) }
    ensures unread { session.new.unread ≡ session.old.unread }
{
    output.write_all(session.text())?;
    output.flush()?;
    session.clear();
    Ok(())
}
