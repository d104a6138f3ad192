// What the command line asks for, carried out over the streams of the process.
ghost use Rattle.std.specs.Prelude.{◌≡◌, ◌≤◌, ◌+◌, ◌⊎◌, [], None, length, map, string_bytes, IfOk, IfErr, IfSome};
ghost use Rattle.console_text.specs.Ends.{status_of};
ghost use Rattle.store_console.specs.Printed.{IsShown};
ghost use Rattle.store_console.specs.Salvaged.{IsSalvagePrintout};
ghost use Rattle.command_line.specs.Ends.{code_of};
ghost use Rattle.command_line.specs.Obeyed.{AreKeysOf, EndsAs, EndsBy, EndsByFile, EndsByRecords, JudgesFor, LeasesFor, Obeys, ServesFor, names_of};
ghost use Rattle.command_line.specs.Performed.{IsOutcomeOf};

use crate::invocation::{Batch, Invocation, Making, NodePlace, Sealing};
use crate::keys::Keys;
use crate::label::mark_of;
use crate::leasing::{format_leases, list_of, serve_leases};
use crate::making::format_file;
use crate::performing::perform;
use crate::reading::{file_to_read, owner_at};
use crate::reasons::{Reason, explain, reason_of};
use crate::serving::serve_file;
use crate::status::{Status, UNREADABLE};
use console_text::{Ended, ExitKind, IoTrouble, MAX_READS, Sink, Source, read_source};
use file_disk::OpenFault;
use group_task::NodeId;
use job_model::JobTable;
use lease_machine::LeaseTerms;
use lease_session::keeps_for;
use line_words::LineFault;
use std::alloc::Global;
use std::fs::{File, Files};
use std::io;
use std::io::{ErrorKind, Read, Write};
use std::sync::Wait;
use std::thread::Threads;
use std::time::Clock;
use store_console::Shown;
use trace_console::{Stage, TraceFile};

/// Carries out what the command line asks for, over these streams, and answers the exit status. What there is to be said of how it ended is said
/// to `errors`.
pub(crate) fn carry_out<T: Threads + Wait + Sync, R: Read, W: Write, E: Write>(
    rt: &(impl Files<File = File> + Clock),
    threads: &T,
    alloc: Global,
    invocation: &Invocation,
    input: &mut R,
    output: &mut Sink<W>,
    errors: &mut E,
) -> io::Result<u8>
    // Promise: What the command line asks for is what is carried out, over the streams that it is given: a command that reads its whole input prints
    // what its own promise says of all that it read, `node` and `lease` serve as their own say, `inspect` and `export` print what theirs say of the bytes of some
    // file, `trace FILE..` judges files of just the names that were given, in their order, and the exit status is that of how each ended. Of `format`
    // the status alone is said, and of a file that is told as unreadable nothing.
    // Refuses: printed_with_status_zero, records_judged_as_going_on, first_record_alone_judged, salvaged_where_jobs_are_asked_for.
    ensures { IfOk result (Obeys invocation.now (R.remaining input.old) (R.remaining input.new) (W.contents output.old.writer) (W.contents output.new.writer)) }
{
    match invocation {
        Invocation::Batch(batch) => {
            Ok(print_batch(rt, threads, alloc, batch, input, output, errors))
        }
        Invocation::Format(path, making, jobs, cluster) => {
            let path = path.as_str();
            format(rt, alloc, path, making, jobs, cluster, input, errors)
        }
        Invocation::Node(path, place, round_trip, sealing, cluster, life) => node(
            rt,
            alloc,
            path.as_str(),
            *place,
            *round_trip,
            sealing,
            cluster,
            life,
            input,
            output,
            errors,
        ),
        Invocation::FormatLeases(path, machine, first) => {
            make_leases(rt, path.as_str(), *machine, *first, errors)
        }
        Invocation::Lease(path, place, round_trip, sealing) => lease(
            rt,
            alloc,
            path.as_str(),
            *place,
            *round_trip,
            sealing,
            input,
            output,
            errors,
        ),
        Invocation::Look(path, shown) => look(rt, alloc, path.as_str(), *shown, output, errors),
        Invocation::Salvage(path) => salvage(rt, alloc, path.as_str(), output, errors),
        Invocation::Trace(stage, paths) => judge(rt, alloc, *stage, paths, output, errors),
        Invocation::Judge => judge_coming(alloc, input, output, errors),
    }
}

/// Runs a command that reads its whole input, and answers the exit status. Where there is something to be said of how it ended, it is
/// said to `errors`.
fn print_batch<T: Threads + Wait + Sync, R: Read, W: Write, E: Write>(
    rt: &impl Files<File = File>,
    threads: &T,
    alloc: Global,
    batch: &Batch,
    input: &mut R,
    output: &mut Sink<W>,
    errors: &mut E,
) -> u8
    ensures { EndsBy (IsOutcomeOf batch.now) (R.remaining input.old) (W.contents output.old.writer) (W.contents output.new.writer) result }
{
    let mut source = Source::new(input);
    let performed = perform(rt, threads, alloc, batch, &mut source, output);
    let status = performed.status;
    if let Some(reason) = reason_of(performed.ended, source.fault(), output.fault()) {
        let _ = explain(errors, reason);
    }
    status
}

/// Judges the run whose records stand in the files of these paths, and answers the exit status.
fn judge<W: Write, E: Write>(
    rt: &impl Files<File = File>,
    alloc: Global,
    stage: Stage,
    paths: &[String],
    output: &mut Sink<W>,
    errors: &mut E,
) -> io::Result<u8>
    ensures { IfOk result (EndsByRecords stage (map string_bytes paths.now) (W.contents output.old.writer) (W.contents output.new.writer)) }
{
    let Some(files) = records_of(rt, alloc, paths, errors)? else {
        return Ok(1);
    };
    let ended = trace_console::trace_files(alloc, stage, &files, output);
    tell(ended, None, output.fault(), errors)
}

/// Judges a run as it comes, and answers the exit status.
fn judge_coming<R: Read, W: Write, E: Write>(
    alloc: Global,
    input: &mut R,
    output: &mut Sink<W>,
    errors: &mut E,
) -> io::Result<u8>
    ensures { IfOk result (JudgesFor (R.remaining input.old) (W.contents output.old.writer) (W.contents output.new.writer)) }
{
    let mut source = Source::new(input);
    let ending = trace_console::judge_prefixes(alloc, &mut source, output);
    let why = Vec::new(alloc);
    tell(
        Ended { ending, why },
        source.fault(),
        output.fault(),
        errors,
    )
}

/// The files of these paths. None, and a word to `errors`, where one of them can't be read.
fn records_of<'a, E: Write>(
    rt: &impl Files<File = File>,
    alloc: Global,
    paths: &'a [String],
    errors: &mut E,
) -> io::Result<Option<Vec<TraceFile<'a>>>>
    ensures { IfOk result (λ files. IfSome files (λ some. names_of some.items ≡ map string_bytes paths.now)) }
{
    let mut files = Vec::new(alloc);
    for path in paths {
        let name = path.as_str();
        let Some(text) = text_of(rt, alloc, name, errors)? else {
            return Ok(None);
        };
        files.push(TraceFile { name, text })?;
    }
    Ok(Some(files))
}

/// All bytes of the file of this path. None, and a word to `errors`, where it can't be read.
fn text_of<E: Write>(
    rt: &impl Files<File = File>,
    alloc: Global,
    path: &str,
    errors: &mut E,
) -> io::Result<Option<Vec<u8>>> {
    let mut input = match File::open(rt, path) {
        Ok(file) => Source::new(file),
        Err(error) => {
            writeln!(errors, "invite: {path}: can't read: {error}")?;
            return Ok(None);
        }
    };
    match read_source(alloc, &mut input) {
        Ok(bytes) => Ok(Some(bytes)),
        Err(IoTrouble::NoMemory) => Err(io::Error::from(ErrorKind::OutOfMemory)),
        Err(IoTrouble::Unread) => {
            match input.fault() {
                Some(error) => writeln!(errors, "invite: {path}: can't read: {error}")?,
                None => writeln!(
                    errors,
                    "invite: {path}: can't read: it has no end within {MAX_READS} reads"
                )?,
            }
            Ok(None)
        }
    }
}

/// Says to `errors` what there is to be said of how a command ended, and answers the exit status.
fn tell<E: Write>(
    ended: Ended,
    unread: Option<io::Error>,
    unwritten: Option<io::Error>,
    errors: &mut E,
) -> io::Result<u8>
    ensures { IfOk result (λ code. code ≡ status_of ended.ending) }
{
    let status = ended.ending.status();
    if let Some(reason) = reason_of(ended, unread, unwritten) {
        explain(errors, reason)?;
    }
    Ok(status)
}

/// Serves a node, and answers the exit status.
fn node<R: Read, W: Write, E: Write>(
    rt: &(impl Files<File = File> + Clock),
    alloc: Global,
    path: &str,
    place: NodePlace,
    round_trip: u16,
    sealing: &Option<Sealing>,
    cluster: &Option<String>,
    life: &[u8],
    input: &mut R,
    output: &mut Sink<W>,
    errors: &mut E,
) -> io::Result<u8>
    ensures { IfOk result (ServesFor place round_trip sealing.now life.now (R.remaining input.old) (R.remaining input.new) (W.contents output.old.writer) (W.contents output.new.writer)) }
{
    let status = serve_file(
        rt,
        alloc,
        path,
        place.id,
        place.nodes,
        round_trip,
        keys_of(sealing, life),
        mark_of(cluster),
        input,
        output,
        errors,
    );
    tell_served(path, sealing, status, output.fault(), errors)
}

/// Where the keys stand, if messages are sealed, for a process of this life.
fn keys_of<'a>(sealing: &'a Option<Sealing>, life: &'a [u8]) -> Option<Keys<'a>>
    ensures { AreKeysOf sealing.now life.now result }
{
    match sealing {
        Some(sealing) => Some(Keys {
            path: sealing.key.as_str(),
            cluster: sealing.cluster.as_str(),
            life,
        }),
        None => None,
    }
}

/// Says to `errors` how a node or a process of leases ended, where that wasn't well, and answers the exit status.
fn tell_served<E: Write>(
    path: &str,
    sealing: &Option<Sealing>,
    status: Status,
    unwritten: Option<io::Error>,
    errors: &mut E,
) -> io::Result<u8>
    ensures { IfOk result (λ code. code ≡ code_of status) }
{
    if matches!(status, Status::Failed(_)) && unwritten.is_some() {
        explain(errors, Reason::Unwritten(unwritten))?;
        return Ok(status.code());
    }
    match (status, sealing) {
        (Status::Key, Some(sealing)) => explain_status(sealing.key.as_str(), status, errors),
        _ => explain_status(path, status, errors),
    }
}

/// Serves a process of leases, and answers the exit status.
fn lease<R: Read, W: Write, E: Write>(
    rt: &impl Files<File = File>,
    alloc: Global,
    path: &str,
    place: NodePlace,
    round_trip: u16,
    sealing: &Option<Sealing>,
    input: &mut R,
    output: &mut Sink<W>,
    errors: &mut E,
) -> io::Result<u8>
    ensures { IfOk result (LeasesFor place round_trip sealing.now (R.remaining input.old) (R.remaining input.new) (W.contents output.old.writer) (W.contents output.new.writer)) }
{
    let list = list_of(alloc, place.nodes, sealing)?;
    let Some(terms) = LeaseTerms::new(place.id, place.nodes, list, keeps_for(round_trip)) else {
        return Ok(UNREADABLE);
    };
    let status = serve_leases(
        rt,
        alloc,
        path,
        terms,
        round_trip,
        keys_of(sealing, &[]),
        input,
        output,
    );
    tell_served(path, sealing, status, output.fault(), errors)
}

/// Makes the file of a machine's leases, and answers the exit status.
fn make_leases<E: Write>(
    rt: &impl Files<File = File>,
    path: &str,
    machine: NodeId,
    first: u64,
    errors: &mut E,
) -> io::Result<u8>
    ensures { IfOk result EndsAs }
{
    let status = format_leases(rt, path, machine, first);
    tell_made(rt, path, status, errors)
}

/// Makes the file of a node, with the jobs of the lines of another file where that is named, and answers the exit status.
fn format<R: Read, E: Write>(
    rt: &impl Files<File = File>,
    alloc: Global,
    path: &str,
    making: &Making,
    jobs: &Option<String>,
    cluster: &Option<String>,
    input: &mut R,
    errors: &mut E,
) -> io::Result<u8>
    ensures { IfOk result (λ code. EndsAs code ⊎ (code ≡ 1)) }
{
    let jobs = match jobs_for(rt, alloc, making, jobs, input, errors)? {
        Ok(jobs) => jobs,
        Err(status) => return Ok(status),
    };
    let status = format_file(rt, path, making, mark_of(cluster), &jobs);
    tell_made(rt, path, status, errors)
}

/// The jobs that a file is made with: none, or those of the lines of another file. Where they can't be read, says why, and gives the exit
/// status.
fn jobs_for<R: Read, E: Write>(
    rt: &impl Files<File = File>,
    alloc: Global,
    making: &Making,
    jobs: &Option<String>,
    input: &mut R,
    errors: &mut E,
) -> io::Result<Result<JobTable, u8>>
    ensures first { IfOk result (λ jobs. IfOk jobs (λ table. table.next ≡ making.now.first)) }
    ensures fits { IfOk result (λ jobs. IfOk jobs (λ table. length table.pending + 2 ≤ making.now.slots)) }
    ensures none { jobs.now ≡ None → IfOk result (λ jobs. IfOk jobs (λ table. table.pending ≡ [])) }
    ensures status { IfOk result (λ jobs. IfErr jobs (λ code. EndsAs code ⊎ (code ≡ 1))) }
{
    match jobs {
        None => Ok(Ok(store_console::no_jobs(alloc, making.first))),
        Some(lines) => listed(rt, alloc, lines.as_str(), making, input, errors),
    }
}

/// Where a file wasn't made, says why to `errors`, and whose the one is that is there. Answers the exit status.
fn tell_made<E: Write>(
    rt: &impl Files<File = File>,
    path: &str,
    status: Status,
    errors: &mut E,
) -> io::Result<u8>
    ensures { IfOk result (λ code. code ≡ code_of status) }
{
    if let Status::File(OpenFault::Exists(_)) = status {
        if let Some(owner) = owner_at(rt, path) {
            writeln!(errors, "invite: {path}: {status}: {owner}")?;
            return Ok(status.code());
        }
    }
    explain_status(path, status, errors)
}

/// The jobs of the file of this path, or of the input where the path is a dash. Where they can't be read, says why, and gives the exit
/// status.
fn listed<R: Read, E: Write>(
    rt: &impl Files<File = File>,
    alloc: Global,
    path: &str,
    making: &Making,
    input: &mut R,
    errors: &mut E,
) -> io::Result<Result<JobTable, u8>>
    ensures first { IfOk result (λ jobs. IfOk jobs (λ table. table.next ≡ making.now.first)) }
    ensures fits { IfOk result (λ jobs. IfOk jobs (λ table. length table.pending + 2 ≤ making.now.slots)) }
    ensures status { IfOk result (λ jobs. IfErr jobs (λ code. EndsAs code ⊎ (code ≡ 1))) }
{
    let read = if path == "-" {
        bytes_of(alloc, Source::new(input), errors)?
    } else {
        match file_to_read(rt, path) {
            Ok(file) => bytes_of(alloc, Source::new(file), errors)?,
            Err(status) => return Ok(Err(explain_status(path, status, errors)?)),
        }
    };
    let Some(bytes) = read else {
        return Ok(Err(1));
    };
    match store_console::read_jobs(alloc, making.slots, making.first, &bytes) {
        Ok(jobs) => Ok(Ok(jobs)),
        Err(LineFault::NoMemory) => Err(io::Error::from(ErrorKind::OutOfMemory)),
        Err(LineFault::BadLine(number)) => {
            let flaw = store_console::job_flaw(alloc, making.slots, making.first, &bytes, number)?;
            writeln!(errors, "invite: line {number}: {flaw}")?;
            Ok(Err(1))
        }
    }
}

/// All bytes of an input. None, and a word to `errors`, where it can't be read.
fn bytes_of<R: Read + Drop, E: Write>(
    alloc: Global,
    mut input: Source<R>,
    errors: &mut E,
) -> io::Result<Option<Vec<u8>>> {
    match read_source(alloc, &mut input) {
        Ok(bytes) => Ok(Some(bytes)),
        Err(IoTrouble::NoMemory) => Err(io::Error::from(ErrorKind::OutOfMemory)),
        Err(IoTrouble::Unread) => {
            explain(errors, Reason::Unread(input.fault()))?;
            Ok(None)
        }
    }
}

/// Reads a file and prints what it holds, and answers the exit status. Where something of it is damaged or missing, `errors` is told whose it
/// is.
fn look<W: Write, E: Write>(
    rt: &impl Files<File = File>,
    alloc: Global,
    path: &str,
    shown: Shown,
    output: &mut Sink<W>,
    errors: &mut E,
) -> io::Result<u8>
    ensures { IfOk result (EndsByFile (IsShown shown) (W.contents output.old.writer) (W.contents output.new.writer)) }
{
    let mut file = match file_to_read(rt, path) {
        Ok(file) => Source::new(file),
        Err(status) => return explain_status(path, status, errors),
    };
    let ending = store_console::inspect(alloc, shown, &mut file, output);
    let why = Vec::new(alloc);
    let ended = Ended { ending, why };
    tell_owner(rt, path, &ended, errors)?;
    tell(ended, file.fault(), output.fault(), errors)
}

/// Reads a file and prints the jobs that can still be read, and answers the exit status. What can't be is said to `errors`.
fn salvage<W: Write, E: Write>(
    rt: &impl Files<File = File>,
    alloc: Global,
    path: &str,
    output: &mut Sink<W>,
    errors: &mut E,
) -> io::Result<u8>
    ensures { IfOk result (EndsByFile IsSalvagePrintout (W.contents output.old.writer) (W.contents output.new.writer)) }
{
    let mut file = match file_to_read(rt, path) {
        Ok(file) => Source::new(file),
        Err(status) => return explain_status(path, status, errors),
    };
    let ended = store_console::salvage(alloc, &mut file, output);
    tell_owner(rt, path, &ended, errors)?;
    tell(ended, file.fault(), output.fault(), errors)
}

/// Where all that is wrong with a file was printed, `errors` is told whose it is.
fn tell_owner<E: Write>(
    rt: &impl Files<File = File>,
    path: &str,
    ended: &Ended,
    errors: &mut E,
) -> io::Result<()> {
    if ended.ending == ExitKind::Refused && ended.why.is_empty() {
        if let Some(owner) = owner_at(rt, path) {
            writeln!(
                errors,
                "invite: {path}: something is damaged or missing: {owner}"
            )?;
        }
    }
    Ok(())
}

/// Where a command of a node didn't end well, says why to `errors`, in one line. Answers the exit status.
fn explain_status<E: Write>(path: &str, status: Status, errors: &mut E) -> io::Result<u8>
    // Promise: How `format`, `node`, `lease` and the reading of a file end, the exit status says.
    // Also: tell_served, tell_made, Status::code.
    // Refuses: status_always_zero.
    ensures { IfOk result (λ code. code ≡ code_of status) }
{
    match status {
        Status::Done => {}
        Status::Failed(_) => writeln!(errors, "invite: {status}")?,
        _ => writeln!(errors, "invite: {path}: {status}")?,
    }
    Ok(status.code())
}
