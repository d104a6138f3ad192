// The loop between the streams of a node and its session.
ghost use Rattle.std.specs.Prelude.{◌≡◌, ◌<◌, ◌≤◌, [], false, IfOk, OnErr, OnOk};
ghost use Rattle.std.specs.Io.KnownBytes.{Appends};
ghost use Rattle.group_task.specs.declared.node.TheConstants.{NODES};
ghost use Rattle.job_journal.specs.Journal.{IsSound};
ghost use Rattle.node_store.specs.Store.{slots_for};
ghost use Rattle.node_server.specs.Served.{begun, AppendsFront, IsBroken, IsBrokenOff, IsLineBroken, IsLineEnd, IsPieceEnd, IsServed, IsServedTo};

use crate::writing::write_whole;
use group_task::NodeId;
use memchr::memchr;
use node_session::{Seal, Session, any_clearing, any_cutting, any_taking, at_once_is_fed};
use node_timers::TimerSettings;
use sector_disk::SectorDisk;
use std::alloc::Global;
use std::io;
use std::io::{ErrorKind, Read, Write};
use std::time::{Clock, Instant};

/// How many bytes one read may give.
const PIECE: usize = 65_536;

/// Looks whether the disk of a node is its own still.
pub trait DiskWatch {
    /// What became of the disk, where a command that left its node with this count isn't to be acknowledged.
    fn loss(&self, count: u64) -> Option<io::Error>;
}

/// What serving ended with.
#[derive(Clone, Copy, Debug)]
pub enum ServingEnd {
    /// The input has no more. Its last line, where that isn't whole, is not answered.
    Input,
    /// The device of the disk failed, which the last answer says.
    Device,
    /// The disk is the node's own no more, which was found behind a command: nothing is said of that, nor of what was read behind it.
    Lost(io::Error),
}

/// Serves a node over its disk until the input ends, the device fails or the disk is lost, with its messages sealed where there is a seal. What is
/// answered to a read is written in one go, but at once behind a command. An error is one of the streams or the clock, or want of memory. The
/// disk comes back.
pub fn serve_node<D: SectorDisk + Drop, R: Read, W: Write>(
    clock: &impl Clock,
    alloc: Global,
    id: NodeId,
    nodes: u8,
    disk: D,
    watch: &impl DiskWatch,
    setting: TimerSettings,
    seal: Option<Seal>,
    input: &mut R,
    output: &mut W,
) -> (io::Result<ServingEnd>, D)
    requires within { id < nodes }
    requires most { nodes ≤ NODES }
    requires sound { IsSound (slots_for (D.state disk).sectors) (D.state disk) }
    // Promise: All that is read of the input is fed to the session of the node, in the order in which it was read and once, and just the answers to it
    // are written, all of them where it ends with the input or a failed device; with a seal each message in them is sealed, and without one none
    // is. Where the disk is lost, of the command behind which that was found nothing is written, and nothing behind it is fed.
    // Also: serve, answer, answer_line, write_out.
    // Refuses: answers_not_written, line_fed_twice, line_passed_over, nothing_sealed_under_a_key, serving_ends_early, lost_command_acknowledged.
    ensures served { IfOk result.0 (λ end. IsServedTo D.state (begun id nodes setting seal disk) (R.remaining input.old) (R.remaining input.new) (W.contents output.old) (W.contents output.new) result.1 end) }
    // Promise: Where an error of the streams, of the clock or of memory ends it, what was written is a front of the answers to a front of what was read.
    // Also: serve, answer, answer_line, write_out, write_whole.
    // Refuses: written_behind_a_failed_write, error_told_in_the_answers.
    ensures broken { OnErr result.0 (IsBrokenOff D.state (begun id nodes setting seal disk) (R.remaining input.old) (R.remaining input.new) (W.contents output.old) (W.contents output.new)) }
{
    let mut session = Session::new(alloc, id, nodes, disk, setting, u64::from(id.number()));
    if let Some(seal) = seal {
        session.seal(seal);
    }
    let end = serve(clock, watch, &mut session, input, output);
    (end, session.into_disk())
}

/// Feeds what each read gives, and writes what is answered to it.
fn serve<D: SectorDisk + Drop, R: Read, W: Write>(
    clock: &impl Clock,
    watch: &impl DiskWatch,
    session: &mut Session<D>,
    input: &mut R,
    output: &mut W,
) -> io::Result<ServingEnd>
    requires fresh { session.old.rest ≡ [] }
    requires going { session.old.stopped ≡ false }
    requires clear { session.old.text ≡ [] }
    ensures served { IfOk result (λ end. IsServed D.state session.old session.new (R.remaining input.old) (R.remaining input.new) (W.contents output.old) (W.contents output.new) end) }
    ensures broken { OnErr result (IsBrokenOff D.state session.old (R.remaining input.old) (R.remaining input.new) (W.contents output.old) (W.contents output.new)) }
{
    any_clearing::<D>();
    let mut piece = [0u8; PIECE];
    for _read in 0..u64::MAX {
        let count = input.read(&mut piece)?;
        if count == 0 {
            return Ok(ServingEnd::Input);
        }
        if let Some(loss) = answer(clock, watch, session, &piece[..count], output)? {
            return Ok(ServingEnd::Lost(loss));
        }
        if session.has_stopped() {
            return Ok(ServingEnd::Device);
        }
    }
    Err(io::Error::from(ErrorKind::Other))
}

/// Feeds a piece line by line, and writes all that is answered. Answers what became of the disk where that was lost.
fn answer<D: SectorDisk + Drop, W: Write>(
    clock: &impl Clock,
    watch: &impl DiskWatch,
    session: &mut Session<D>,
    piece: &[u8],
    output: &mut W,
) -> io::Result<Option<io::Error>>
    ensures ended { IfOk result (λ loss. IsPieceEnd D.state session.old session.new piece.now (W.contents output.old) (W.contents output.new) loss) }
    ensures broken { OnErr result (IsBroken D.state session.old piece.now (W.contents output.old) (W.contents output.new)) }
{
    any_cutting::<D>();
    any_clearing::<D>();
    at_once_is_fed::<D>();
    let mut left = piece;
    let mut begun = Instant::now(clock)?;
    for _line in 0..piece.len() {
        let Some(end) = memchr(b'\n', left) else {
            break;
        };
        let (line, behind) = left.split_at(end.saturating_add(1));
        if let Some(loss) = answer_line(clock, watch, session, &mut begun, line, output)? {
            return Ok(Some(loss));
        }
        left = behind;
    }
    session.feed(left)?;
    write_out(session, output)?;
    Ok(None)
}

/// Feeds a line that began at this time, and says when it ended. Behind a command, which is a compaction or changes what the file keeps, it
/// looks at the disk, says how long that took, and writes what was answered.
fn answer_line<D: SectorDisk + Drop, W: Write>(
    clock: &impl Clock,
    watch: &impl DiskWatch,
    session: &mut Session<D>,
    begun: &mut Instant,
    line: &[u8],
    output: &mut W,
) -> io::Result<Option<io::Error>>
    ensures ended { IfOk result (λ loss. IsLineEnd D.state session.old session.new line.now (W.contents output.old) (W.contents output.new) loss) }
    ensures broken { OnErr result (IsLineBroken D.state session.old line.now (W.contents output.old) (W.contents output.new)) }
{
    at_once_is_fed::<D>();
    any_taking::<D>();
    let kept = session.kept();
    session.feed(line)?;
    let now = Instant::now(clock)?;
    let keeps = session.kept();
    let took = now.duration_since(*begun).as_millis();
    *begun = now;
    if keeps == kept && !line.starts_with(b"compact") {
        return Ok(None);
    }
    if let Some(loss) = loss_of(watch, keeps) {
        return Ok(Some(loss));
    }
    session.took(u64::try_from(took).unwrap_or(u64::MAX));
    write_out(session, output)?;
    Ok(None)
}

/// What became of the disk of a node that keeps this. Of a node that is Down nothing is looked for: it acknowledges nothing.
fn loss_of(watch: &impl DiskWatch, keeps: Option<(u64, u64, u64)>) -> Option<io::Error> {
    let (count, _, _) = keeps?;
    watch.loss(count)
}

/// Writes what was answered, and forgets it.
fn write_out<D: SectorDisk, W: Write>(session: &mut Session<D>, output: &mut W) -> io::Result<()>
    ensures printed { OnOk result (Appends (W.contents output.old) (W.contents output.new) session.old.text) }
    ensures cleared { OnOk result (session.new ≡ record session.old { text = [] }) }
    ensures broken { OnErr result (AppendsFront session.old.text (W.contents output.old) (W.contents output.new)) }
{
    write_whole(output, session.text())?;
    output.flush()?;
    session.clear();
    Ok(())
}
