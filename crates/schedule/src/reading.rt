ghost use Rattle.std.specs.Prelude.{◌≡◌, ◌+◌, ◌<◌, ◌^◌, ◌≤◌, IfOk, IfErr, IfSome, OnOk, Ok, Err, Some, None, length, [], ◌∷◌, ◌++◌};
ghost use Rattle.line_words.specs.Words.{words_of};
ghost use Rattle.line_words.specs.Lines.{lines_of, IsFaultAt, IsLineFault};
ghost use Rattle.schedule.specs.Text.{acts_from, named_size, onto, script, script_of, size_of};
ghost use Rattle.schedule.specs.declared.size.TheConstants.{MOST_ACTS};
ghost use Rattle.schedule.specs.Limits.{IsWithinLimits, SizeFits};

use crate::act::Act;
use crate::fields::between;
use crate::parsing::{act, delivered};
use crate::size::{MOST_ACTS, Schedule, Size};
use disk_layout::{LEAST_SLOTS, MOST_SLOTS};
use group_task::NODES;
use line_words::{LineFault, cut_line, cut_word, is_word};
use std::alloc::{AllocError, Global};

/// Reads a schedule: its first line that isn't empty names the cluster, each later one an act. The fault names the first line
/// that can't be read; where no line names a cluster, that is the one behind the last.
pub fn read_schedule(alloc: Global, input: &[u8]) -> Result<Schedule, LineFault>
    // Promise: A text is read as the cluster that its first line that isn't empty names and the acts of the later ones, in their
    // order, empty lines passed over, the last line with or without its line feed.
    // Refuses: nothing_read, last_line_dropped, cut_for_mend, fill_dropped.
    ensures ok { IfOk result (λ schedule. script_of input.now ≡ Ok (script schedule.size schedule.acts.items)) }
    // Promise: A schedule that was read has 1 to 128 nodes, 4 to 4,096 slots and at most 65,536 acts.
    ensures fits { IfOk result (λ schedule. IsWithinLimits schedule.size schedule.acts.items) }
    // Promise: A fault that names a line names the first one that can't be read, counted over all lines; where no line names a
    // cluster, the line behind the last. The only other fault is want of memory.
    // Refuses: line_before_named, empty_line_is_bad, acts_limit_one_less.
    ensures err { IfErr result (IsLineFault (script_of input.now)) }
{
    let mut before = 0u64;
    let mut left = input;
    while let Some((line, behind)) = cut_line(left) {
        before += 1;
        if !line.is_empty() {
            let size = read_size(before, line)?;
            let acts = read_acts(alloc, before, behind)?;
            return Ok(Schedule { size, acts });
        }
        left = behind;
    }
    let size = read_size(before + 1, left)?;
    Ok(Schedule {
        size,
        acts: Vec::new(alloc),
    })
}

/// The size that the line of this number names.
fn read_size(number: u64, line: &[u8]) -> Result<Size, LineFault>
    ensures ok { IfOk result (λ size. size_of (words_of line.now) ≡ Some size) }
    ensures fits { IfOk result SizeFits }
    ensures err { IfErr result (IsFaultAt number (size_of (words_of line.now))) }
{
    match cluster_size(line) {
        Some(size) => Ok(size),
        None => Err(LineFault::BadLine(number)),
    }
}

/// The size that the words of a line name.
#[tactic(auto, using(crate::proofs::Counts::too_long))]
pub fn cluster_size(line: &[u8]) -> Option<Size>
    ensures value { result ≡ size_of (words_of line.now) }
    ensures fits { IfSome result SizeFits }
{
    let (name, numbers) = cut_word(line)?;
    let (nodes, slots) = cut_word(numbers)?;
    match cut_word(slots) {
        None => named_size(name, nodes, slots),
        Some(_) => None,
    }
}

fn named_size(name: &[u8], nodes: &[u8], slots: &[u8]) -> Option<Size>
    ensures value { result ≡ named_size name.now nodes.now slots.now }
    ensures fits { IfSome result SizeFits }
{
    if !is_word(name, "cluster") {
        return None;
    }
    Some(Size {
        nodes: between(1, u64::from(NODES), nodes)? as u8,
        slots: between(LEAST_SLOTS, MOST_SLOTS, slots)?,
    })
}

/// The acts of the lines of a text, of which the first has the number behind `before`. Empty lines are passed over.
#[tactic(auto, using(crate::proofs::Behind::behind_line, crate::proofs::Behind::behind_last, crate::proofs::Behind::behind_fault, crate::proofs::Behind::behind_nothing))]
fn read_acts(alloc: Global, before: u64, text: &[u8]) -> Result<Vec<Act>, LineFault>
    requires counted { before + length text.now + 1 < 2 ^ 64 }
    ensures ok { IfOk result (λ acts. acts_from before 0 (lines_of text.now) ≡ Ok acts.items) }
    ensures few { IfOk result (λ acts. length acts.items ≤ MOST_ACTS) }
    ensures err { IfErr result (IsLineFault (acts_from before 0 (lines_of text.now))) }
{
    let mut acts = Vec::new(alloc);
    let mut number = before;
    let mut left = text;
    while let Some((line, behind)) = cut_line(left) {
        number += 1;
        read_act(alloc, number, line, &mut acts)?;
        left = behind;
    }
    read_act(alloc, number + 1, left, &mut acts)?;
    Ok(acts)
}

/// Adds the act of the line of this number, which is passed over where it is empty. A delivery that has room is added at once.
#[inline]
#[tactic(auto, using(crate::proofs::Behind::onto_act))]
fn read_act(alloc: Global, number: u64, line: &[u8], acts: &mut Vec<Act>) -> Result<(), LineFault>
    requires { length acts.old.items ≤ MOST_ACTS }
    ensures ok { OnOk result (Some acts.new.items ≡ onto acts.old.items line.now) }
    ensures few { OnOk result (length acts.new.items ≤ MOST_ACTS) }
    ensures err { IfErr result (IsFaultAt number (onto acts.old.items line.now)) }
{
    if acts.len() < acts.capacity() && (acts.len() as u64) < MOST_ACTS {
        if let Some(place) = delivered(line) {
            acts.push_reserved(Act::Deliver(place));
            return Ok(());
        }
    }
    read_any(alloc, number, line, acts)
}

// It stands apart, so that a delivery is read quickly.
#[inline(never)]
fn read_any(alloc: Global, number: u64, line: &[u8], acts: &mut Vec<Act>) -> Result<(), LineFault>
    requires { length acts.old.items ≤ MOST_ACTS }
    ensures ok { OnOk result (Some acts.new.items ≡ onto acts.old.items line.now) }
    ensures few { OnOk result (length acts.new.items ≤ MOST_ACTS) }
    ensures err { IfErr result (IsFaultAt number (onto acts.old.items line.now)) }
{
    if line.is_empty() {
        return Ok(());
    }
    if acts.len() as u64 >= MOST_ACTS {
        return Err(LineFault::BadLine(number));
    }
    match act(alloc, line)? {
        Some(act) => Ok(push(acts, act)?),
        None => Err(LineFault::BadLine(number)),
    }
}

fn push(acts: &mut Vec<Act>, act: Act) -> Result<(), AllocError>
    ensures { OnOk result (acts.new.items ≡ acts.old.items ++ act ∷ []) }
{
    Ok(acts.push(act)?)
}
