//! A schedule on a simulated cluster, and what is kept of each act until it is printed.

ghost use Rattle.std.specs.Prelude.{◌≡◌, ◌≤◌, ◌<◌, ◌++◌, [], ◌∷◌, ℕ, List, IfOk, OnOk, length};
ghost use Rattle.schedule.specs.Limits.{IsWithinLimits};
ghost use Rattle.schedule.specs.declared.act.Act.{Act as ActValue};
ghost use Rattle.cluster_sim.specs.World.{StandsFor};
ghost use Rattle.runs.specs.World.{World as RunWorld};
ghost use Rattle.invite_console.specs.Kept.{IsKeptSoFar, IsRun};
ghost use Rattle.invite_console.specs.Sim.{AddsNodes, AddsRows, HasWorld};

use crate::acts::push_head;
use crate::details::Details;
use crate::rows::push_row;
use cluster_sim::World;
use console_text::push_text;
use group_task::NodeId;
use runs::left_by_a_run;
use schedule::{Act, Schedule};
use std::alloc::{AllocError, Global};

/// The line of an act takes about so many bytes.
const LINE: usize = 12;

/// Where what is kept of an act that sent messages ends: it begins where that of the one before it ended.
#[derive(Clone, Copy)]
pub(crate) struct ActEnd {
    /// How many messages had been sent by then.
    pub sent: usize,
    /// How long the text was by then.
    pub written: usize,
}

/// A schedule that was run.
#[derive(Drop)]
pub(crate) struct Simulation {
    pub world: World,
    pub kept: Vec<ActEnd>,
    /// Of each act the nodes as they were before it, where they are asked for, and its line, which lacks its end where it sent messages:
    /// these come in between. And then the nodes as the last act left them.
    pub text: Vec<u8>,
}

/// A cluster through a schedule. The bytes of the input aren't read: their memory is taken for the text.
pub(crate) fn run_schedule(
    alloc: Global,
    details: Details,
    schedule: &Schedule,
    input: Vec<u8>,
) -> Result<Simulation, AllocError>
    requires { IsWithinLimits schedule.now.size schedule.now.acts.items }
    ensures { IfOk result (λ run. IsRun details schedule.now.size.nodes schedule.now.size.slots schedule.now.acts.items run.kept.items run.text.items run.world.net.sent) }
{
    left_by_a_run();
    let mut world = World::open(alloc, schedule.size.nodes, schedule.size.slots)?;
    let mut kept = Vec::with_capacity(alloc, schedule.acts.len())?;
    let mut text = text_in_place_of(alloc, input, schedule.acts.len().saturating_mul(LINE))?;
    keep_acts(
        alloc,
        details,
        &mut text,
        &mut kept,
        &mut world,
        &schedule.acts,
    )?;
    push_table(alloc, &mut text, &world)?;
    Ok(Simulation { world, kept, text })
}

/// An empty text with room for so many bytes, in the memory of an input, unless that is far more.
fn text_in_place_of(alloc: Global, input: Vec<u8>, room: usize) -> Result<Vec<u8>, AllocError>
    ensures { IfOk result (λ text. text.items ≡ []) }
{
    if input.capacity() / 2 > room {
        drop(input);
        return Ok(Vec::with_capacity(alloc, room)?);
    }
    let mut text = input;
    text.clear();
    text.reserve(room)?;
    Ok(text)
}

/// Does acts, and keeps what came of each.
fn keep_acts(
    alloc: Global,
    details: Details,
    text: &mut Vec<u8>,
    kept: &mut Vec<ActEnd>,
    world: &mut World,
    acts: &[Act],
) -> Result<(), AllocError>
    requires world { HasWorld world.old }
    requires few { length acts.now ≤ 65536 }
    ensures { (nodes slots : ℕ) → IsKeptSoFar details nodes slots world.old [] kept.old.items text.old.items
        → OnOk result (IsKeptSoFar details nodes slots world.new acts.now kept.new.items text.new.items) }
{
    for number in 0..acts.len() {
        let act = &acts[number];
        keep_act(alloc, details, text, kept, world, number as u64, act)?;
    }
    Ok(())
}

/// Does the act of this number, and keeps what came of it.
fn keep_act(
    alloc: Global,
    details: Details,
    text: &mut Vec<u8>,
    kept: &mut Vec<ActEnd>,
    world: &mut World,
    number: u64,
    act: &Act,
) -> Result<(), AllocError>
    requires world { HasWorld world.old }
    requires few { number < 65536 }
    ensures world { OnOk result (HasWorld world.new) }
    ensures kept { (nodes slots : ℕ) (before : List ActValue) → length before ≡ number → IsKeptSoFar details nodes slots world.old before kept.old.items text.old.items
        → OnOk result (IsKeptSoFar details nodes slots world.new (before ++ act.now ∷ []) kept.new.items text.new.items) }
{
    left_by_a_run();
    push_nodes(alloc, details, text, world)?;
    let sent_before = world.net().sent().len();
    match world.step(act) {
        Ok(report) => {
            push_head(text, number, act, report.outcome)?;
            let sent = world.net().sent().len();
            if sent == sent_before {
                return push_text(text, "\n");
            }
            keep(text.len(), kept, sent)
        }
        Err(error) => Err(error),
    }
}

/// Keeps how many messages had been sent by the end of an act, and how long the text was.
fn keep(written: usize, kept: &mut Vec<ActEnd>, sent: usize) -> Result<(), AllocError>
    ensures { OnOk result (kept.new.items ≡ kept.old.items ++ record { sent = sent; written = written } ∷ []) }
{
    kept.push(ActEnd { sent, written })?;
    Ok(())
}

/// Adds the line of each node, where they are asked for.
fn push_nodes(
    alloc: Global,
    details: Details,
    text: &mut Vec<u8>,
    world: &World,
) -> Result<(), AllocError>
    ensures { (w : RunWorld) → StandsFor world.now w → OnOk result (AddsNodes details.nodes w.states text.old.items text.new.items) }
{
    if details.nodes {
        return push_table(alloc, text, world);
    }
    Ok(())
}

/// Adds the line of each node.
fn push_table(alloc: Global, text: &mut Vec<u8>, world: &World) -> Result<(), AllocError>
    ensures { (w : RunWorld) → StandsFor world.now w → OnOk result (AddsRows 0 w.states text.old.items text.new.items) }
{
    for number in 0..world.count() {
        let id = NodeId::numbered(number);
        push_row(alloc, text, id, world.node(id))?;
    }
    Ok(())
}
