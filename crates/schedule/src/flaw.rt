//! What is wrong with a line that can't be read.

ghost use Rattle.std.specs.Prelude.{◌≡◌, IfOk};
ghost use Rattle.schedule.specs.Flaws.{flaw_of, name_flaw};

use crate::parsing::act;
use crate::verb::Verb;
use line_words::first_word;
use std::alloc::{AllocError, Global};

/// Why a line of a schedule can't stand where it does.
#[derive(Clone, Copy, Debug, PartialEq, Eq)]
pub enum Flaw {
    /// There is no line: the schedule ends before its cluster is named.
    Nothing,
    /// It is to name the cluster, and can't be read, or isn't the first one.
    Cluster,
    /// No act has its first word as its name.
    NoAct,
    /// Its fields aren't those of this act.
    Fields(Verb),
    /// It is an act, in front of the cluster's line or behind the greatest number of acts.
    Misplaced,
}

/// What is wrong with a line, where it is known that something is.
pub fn flaw_in(alloc: Global, line: &[u8]) -> Result<Flaw, AllocError>
    ensures { IfOk result (λ flaw. flaw ≡ flaw_of line.now) }
{
    if line.is_empty() {
        return Ok(Flaw::Nothing);
    }
    match act(alloc, line)? {
        Some(_) => Ok(Flaw::Misplaced),
        None => Ok(name_flaw(first_word(line))),
    }
}

/// What is wrong with a line that is no act and begins with this word.
#[tactic(auto, unfolding(crate::specs::Flaws::name_flaw))]
fn name_flaw(name: &[u8]) -> Flaw
    ensures { result ≡ name_flaw name.now }
{
    if name == "cluster".as_bytes() {
        return Flaw::Cluster;
    }
    match Verb::from_word(name) {
        Some(verb) => Flaw::Fields(verb),
        None => Flaw::NoAct,
    }
}
