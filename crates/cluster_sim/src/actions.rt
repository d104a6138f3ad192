// How what came of an act at a node stands in a trace.
ghost use Rattle.std.specs.Prelude.{◌≡◌};
ghost use Rattle.cluster_sim.specs.Actions.{action_by, happened};
ghost use Rattle.cluster_sim.specs.Traced.{done, failed};

use crate::bringing::Brought;
use histories::EventOutcome;
use node_core::Event;
use runs::Outcome;
use trace_check::{RecoverFault, TraceAction};

/// What an entry says was done, by what the node told, what was brought to it and how the act ended.
pub(crate) fn action_by(
    event_outcome: Option<EventOutcome>,
    brought: &Brought,
    outcome: Outcome,
) -> TraceAction
    ensures { result ≡ action_by event_outcome brought.now outcome }
{
    match (event_outcome, brought, outcome) {
        (Some(event_outcome), _, _) => happened(event_outcome, brought),
        (None, Brought::Crash, _) => TraceAction::Crashed,
        (None, Brought::Compaction, Outcome::Faulted) => TraceAction::Crashed,
        (None, _, _) => TraceAction::Nothing,
    }
}

/// What came of an event.
fn happened(event_outcome: EventOutcome, brought: &Brought) -> TraceAction
    ensures { result ≡ happened event_outcome brought.now }
{
    match (event_outcome, brought) {
        (EventOutcome::Done, Brought::Event(event)) => done(event),
        (EventOutcome::Faulted, Brought::Event(event)) => failed(event),
        (EventOutcome::Recovered(kept), _) => TraceAction::Recovered(kept),
        (EventOutcome::MountFailed, _) => TraceAction::NotRecovered(false, RecoverFault::Mount),
        (EventOutcome::RaiseFailed(kept), _) => TraceAction::NotRecovered(
            kept,
            RecoverFault::Raise,
        ),
        _ => TraceAction::Nothing,
    }
}

/// An event that was handled.
fn done(event: &Event) -> TraceAction
    ensures { result ≡ done event.now }
{
    match event {
        Event::Recover => TraceAction::Recovered(false),
        _ => TraceAction::Done(*event),
    }
}

/// An event in whose command the device failed.
fn failed(event: &Event) -> TraceAction
    ensures { result ≡ failed event.now }
{
    match event {
        Event::Recover => TraceAction::NotRecovered(false, RecoverFault::Raise),
        _ => TraceAction::Faulted(*event),
    }
}
