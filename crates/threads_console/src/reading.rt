//! Reads plans.

ghost use Rattle.std.specs.Prelude.{◌≡◌, ◌≤◌, ◌<◌, Some, length, IfOk, IfErr, OnOk};
ghost use Rattle.group_task.specs.declared.node.TheConstants.{NODES};
ghost use Rattle.line_words.specs.Lines.{IsFaultAt, IsLineFault};
ghost use Rattle.line_words.specs.Words.{words_of};
ghost use Rattle.schedule.specs.Limits.{SizeFits};
ghost use Rattle.node_threads.specs.Nodes.{PollOthers};
ghost use Rattle.threads_console.specs.Turns.{line_of};
ghost use Rattle.threads_console.specs.Planning.{AddsLine};
ghost use Rattle.threads_console.specs.Scripts.{AreRead, CanRun, IsRead, capacity_of, script_left, script_of, sized, turns_of, with_links, with_turns};

use crate::lines::Lines;
use crate::parsing::turn_in;
use crate::planning::{no_plans, place};
use line_words::{LineFault, cut_word, is_word};
use node_lock::Plans;
use node_threads::RunSize;
use schedule::fields::between;
use schedule::{LEAST_CAPACITY, MOST_CAPACITY, Size, cluster_size};
use std::alloc::Global;

/// A run that was planned.
#[derive(Debug, Drop)]
pub struct Setup {
    pub size: RunSize,
    /// What the workers of each node are to do, by the node's number.
    pub plans: Vec<Plans>,
}

/// Reads plans: of the lines that aren't empty the first names the cluster, the second for how many messages each link has room, and
/// each later one is a turn of a worker. The fault names the first line that can't be read; where one of the first two isn't
/// there, that is the one behind the last.
pub fn read_plans(alloc: Global, input: &[u8]) -> Result<Setup, LineFault>
    ensures read { IfOk result (λ setup. IsRead input.now setup.size setup.plans.items) }
    ensures fits { IfOk result (λ setup. CanRun setup.size setup.plans.items) }
    ensures err { IfErr result (IsLineFault (script_of input.now)) }
{
    let mut lines = Lines::new(input);
    let cluster = read_cluster(&mut lines)?;
    let capacity = read_links(cluster, &mut lines)?;
    let plans = read_turns(alloc, cluster.nodes, &mut lines)?;
    let size = RunSize {
        nodes: cluster.nodes,
        slots: cluster.slots,
        capacity: capacity as usize,
    };
    Ok(Setup { size, plans })
}

/// The cluster that the first line names.
fn read_cluster(lines: &mut Lines<'_>) -> Result<Size, LineFault>
    ensures ok { IfOk result (λ cluster. script_left lines.old ≡ with_links lines.new.end cluster lines.new.lines) }
    ensures fits { IfOk result SizeFits }
    ensures err { IfErr result (IsLineFault (script_left lines.old)) }
{
    match lines.next() {
        Ok((number, line)) => cluster_size(line).ok_or(LineFault::BadLine(number)),
        Err(end) => Err(LineFault::BadLine(end)),
    }
}

/// For how many messages each link has room, as the second line names it.
fn read_links(cluster: Size, lines: &mut Lines<'_>) -> Result<u64, LineFault>
    ensures ok { IfOk result (λ capacity. with_links lines.old.end cluster lines.old.lines ≡ with_turns (sized cluster capacity) (turns_of cluster.nodes lines.new.lines)) }
    ensures err { IfErr result (IsLineFault (with_links lines.old.end cluster lines.old.lines)) }
{
    match lines.next() {
        Ok((number, line)) => capacity(line).ok_or(LineFault::BadLine(number)),
        Err(end) => Err(LineFault::BadLine(end)),
    }
}

/// The room of a link that the words of a line name.
#[tactic(auto, using(crate::proofs::Counts::two_numbers))]
pub(crate) fn capacity(line: &[u8]) -> Option<u64>
    ensures { result ≡ capacity_of (words_of line.now) }
{
    let (name, number) = cut_word(line)?;
    if cut_word(number).is_some() || !is_word(name, "links") {
        return None;
    }
    between(LEAST_CAPACITY, MOST_CAPACITY, number)
}

/// The turns of all lines that are left, in the plans of their nodes.
#[tactic(auto, using(crate::proofs::Filling::filled_line, crate::proofs::Filling::as_many, crate::proofs::Filling::fault_named, crate::proofs::Filling::all_read, crate::proofs::Polls::none_polls))]
fn read_turns(alloc: Global, nodes: u8, lines: &mut Lines<'_>) -> Result<Vec<Plans>, LineFault>
    requires { nodes ≤ NODES }
    ensures read { IfOk result (λ plans. AreRead nodes lines.old.lines plans.items) }
    ensures polls { IfOk result (λ plans. PollOthers plans.items) }
    ensures err { IfErr result (IsLineFault (turns_of nodes lines.old.lines)) }
{
    let mut plans = no_plans(alloc, nodes)?;
    while let Ok((number, line)) = lines.next() {
        read_turn(alloc, nodes, number, line, &mut plans)?;
    }
    Ok(plans)
}

/// Adds the turn of the line of this number to the plans of its node.
fn read_turn(
    alloc: Global,
    nodes: u8,
    number: u64,
    line: &[u8],
    plans: &mut Vec<Plans>,
) -> Result<(), LineFault>
    requires { (length plans.old.items ≡ nodes) × (nodes ≤ NODES) }
    ensures adds { OnOk result (AddsLine nodes line.now plans.old.items plans.new.items) }
    ensures polls { PollOthers plans.old.items → OnOk result (PollOthers plans.new.items) }
    ensures err { IfErr result (IsFaultAt number (line_of nodes (words_of line.now))) }
{
    match turn_in(alloc, nodes, line)? {
        Some((node, turn)) => Ok(place(plans, node, turn)?),
        None => Err(LineFault::BadLine(number)),
    }
}
