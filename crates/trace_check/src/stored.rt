//! Entries as a history stores them: 20 bytes for each, with numbers of 32 bits.

ghost use Rattle.std.specs.Prelude.{◌≡◌, ◌-◌, ◌^◌};
ghost use Rattle.trace_check.specs.Kept.{ActionStands, EventStands};
ghost use Rattle.trace_check.specs.Stored.{action_of, entry_of, happened};

use crate::kept::{PackedAction, PackedEntry, PackedEvent};
use crate::trace::RecoverFault;
use group_task::NodeId;
use job_model::Queue;
use node_core::Timer;
use std::mem::size_of;

/// What was done, as it is stored. With an event it is said whether it was handled: else the device failed in its command.
#[derive(Clone, Copy, Debug)]
pub enum StoredAction {
    Nothing,
    Crashed,
    Recovered(bool),
    NotRecovered(bool, RecoverFault),
    Timer(bool, Timer),
    Deliver(bool, u32),
    Submit(bool, Queue, u8, u16, u32),
    /// The id's lower half comes before its upper one.
    Finish(bool, NodeId, u32, u32),
    Recover(bool),
}

/// An entry as it is stored.
#[derive(Clone, Copy, Debug)]
pub struct StoredEntry {
    pub action: StoredAction,
    pub start: u32,
    pub end: u32,
}

// a long history takes about what its text takes
const _: () = prove!(size_of::<StoredEntry>() == 20);

// so many numbers have 32 bits
const HALF: u64 = 1 << 32;

impl StoredEntry {
    /// The entry that is stored.
    #[inline(always)]
    pub fn entry(&self) -> PackedEntry
        ensures { result ≡ entry_of self.now }
    {
        PackedEntry {
            action: action_of(self.action),
            start: self.start as usize,
            end: self.end as usize,
        }
    }
}

/// What was done, stored.
#[inline(always)]
pub fn stored_action(action: PackedAction) -> StoredAction
    requires { ActionStands (2 ^ 32 - 1) (2 ^ 32 - 1) action }
    ensures { action_of result ≡ action }
{
    match action {
        PackedAction::Nothing => StoredAction::Nothing,
        PackedAction::Done(event) => stored_event(true, event),
        PackedAction::Faulted(event) => stored_event(false, event),
        PackedAction::Crashed => StoredAction::Crashed,
        PackedAction::Recovered(kept) => StoredAction::Recovered(kept),
        PackedAction::NotRecovered(kept, fault) => StoredAction::NotRecovered(kept, fault),
    }
}

#[inline(always)]
fn stored_event(is_done: bool, event: PackedEvent) -> StoredAction
    requires { EventStands (2 ^ 32 - 1) (2 ^ 32 - 1) event }
    ensures { action_of result ≡ happened is_done event }
{
    match event {
        PackedEvent::Timer(timer) => StoredAction::Timer(is_done, timer),
        PackedEvent::Deliver(place) => StoredAction::Deliver(is_done, place as u32),
        PackedEvent::Submit(queue, priority, len, start) => {
            StoredAction::Submit(is_done, queue, priority, len, start as u32)
        }
        PackedEvent::Finish(origin, id) => {
            StoredAction::Finish(is_done, origin, (id % HALF) as u32, (id / HALF) as u32)
        }
        PackedEvent::Recover => StoredAction::Recover(is_done),
    }
}

#[inline(always)]
fn action_of(action: StoredAction) -> PackedAction
    ensures { result ≡ action_of action }
{
    match action {
        StoredAction::Nothing => PackedAction::Nothing,
        StoredAction::Crashed => PackedAction::Crashed,
        StoredAction::Recovered(kept) => PackedAction::Recovered(kept),
        StoredAction::NotRecovered(kept, fault) => PackedAction::NotRecovered(kept, fault),
        StoredAction::Timer(is_done, timer) => happened(is_done, PackedEvent::Timer(timer)),
        StoredAction::Deliver(is_done, place) => {
            happened(is_done, PackedEvent::Deliver(place as usize))
        }
        StoredAction::Submit(is_done, queue, priority, len, start) => {
            let event = PackedEvent::Submit(queue, priority, len, start as usize);
            happened(is_done, event)
        }
        StoredAction::Finish(is_done, origin, low, high) => {
            let id = u64::from(high) * HALF + u64::from(low);
            happened(is_done, PackedEvent::Finish(origin, id))
        }
        StoredAction::Recover(is_done) => happened(is_done, PackedEvent::Recover),
    }
}

#[inline(always)]
fn happened(is_done: bool, event: PackedEvent) -> PackedAction
    ensures { result ≡ happened is_done event }
{
    if is_done {
        PackedAction::Done(event)
    } else {
        PackedAction::Faulted(event)
    }
}
