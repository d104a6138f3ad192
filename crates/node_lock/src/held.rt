// What one lock holds.
ghost use Rattle.std.specs.Prelude.{◌≡◌, ◌≢◌, ◌<◌, ◌≤◌, ◌+◌, ◌↔◌, [], length, IfOk, OnOk, OnErr, IfErr, vec_len, vec_capacity, slice_index_or, ℕ, Ok, Err, true, false, Some, None, IsTrue};
ghost use Rattle.group_task.specs.declared.node.TheConstants.{NODES};
ghost use Rattle.node_lock.specs.HeldView.{HeldView, HeldInvariant, IsOther, IsPolled, Takes, SameRun, Unserved};
ghost use Rattle.node_lock.specs.History.{Turn, entries_of};
ghost use Rattle.node_lock.specs.Planned.{no_turns, plan_len, turns_of};
ghost use Rattle.node_lock.specs.Wearing.{HasFailed};
ghost use Rattle.node_lock.specs.declared.held.TheConstants.{MOST_ENTRIES};
ghost use Rattle.node_lock.specs.declared.held.HeldFault.TheVariants.{HistoryFull, NoMemory};
ghost use Rattle.node_lock.specs.declared.worker.Worker.TheVariants.{Intake, Clock, Operator};

use crate::plans::Plans;
use crate::run::Run;
use crate::turn::{Site, clear, fetch};
use crate::turn_log::TurnLog;
use crate::turn_numbers::TurnNumbers;
use crate::worker::{Turns, Worker};
use durable_node::DurableNode;
use group_task::NodeId;
use link_ring::{PutEnd, TakeEnd};
use node_core::Event;
use sector_disk::{MemDisk, SectorDisk};
use std::alloc::{AllocError, Global};
use std::marker::Model;
use thiserror::Error;
use wire_msg::Message;

/// Why a turn was not taken.
#[derive(Clone, Copy, PartialEq, Eq, Debug, Error)]
pub enum HeldFault {
    /// The history has [`MOST_ENTRIES`] turns.
    #[error("the history is full")]
    HistoryFull,
    /// There is no memory. A message that was already taken from a link waits, and is what the repeated poll gives.
    #[error("out of memory")]
    NoMemory,
}

/// The most entries of a history.
pub const MOST_ENTRIES: usize = 65_536;

// a history has room for what a turn sends, with so many jobs pending, before its first one: else that room grows job by job
const FEW_JOBS: u64 = 64;

/// A node with its links, its plans and its history.
#[derive(Drop)]
pub struct Held {
    site: Site,
    run: Run,
    takes: Vec<TakeEnd>,
    plans: Plans,
    turns: Turns,
    waiting: Option<Message>,
}

impl Model for Held {
    ghost use Rattle.node_lock.specs.HeldView.{HeldView, HeldInvariant};

    ghost Value = { HeldView };

    ghost view = { λ h. record { node = h.site.node; run = h.run; puts = h.site.puts.items; takes = h.takes.items; plans = h.plans; turns = h.turns; history = h.site.history.turns; lost = h.site.history.lost; numbers = h.site.history.numbers; counter = h.site.numbers.counter; drawn = h.site.numbers.drawn; waiting = h.waiting; room = h.site.history.room; sends = h.site.history.sends; events = h.site.history.events } };

    // Promise: The history is one of a node that has just opened, and the node stands for the state that it replays to; of a node
    // that is Down each disk image does, with or without the command in doubt.
    // Refuses: entry_dropped, event_answered_as_rest, outcome_invented.
    // Promise: The disk is as large as the run's slots ask for, and no entry is one that a journal of so many slots doesn't allow.
    // Refuses: disks_of_four_slots.
    // Promise: Each worker's entries are a front of its plan, and so many.
    // Refuses: plan_index_repeated.
    // Promise: What was put on a link is in order some of what the history sent to its receiver, none of it lost before as many
    // were put as the link has slots.
    // Refuses: put_dropped, message_put_on_the_next_link.
    // Promise: What was taken from a link is what the history polled from it, and the message that waits.
    // Refuses: waiting_message_lost.
    // Promise: A history has at most 65,536 turns.
    // Also: limits.
    // Refuses: limit_off_by_one.
    ghost invariant = { λ h. HeldInvariant (record { node = h.site.node; run = h.run; puts = h.site.puts.items; takes = h.takes.items; plans = h.plans; turns = h.turns; history = h.site.history.turns; lost = h.site.history.lost; numbers = h.site.history.numbers; counter = h.site.numbers.counter; drawn = h.site.numbers.drawn; waiting = h.waiting; room = h.site.history.room; sends = h.site.history.sends; events = h.site.history.events }) };
}

/// What is left of a node when its workers have ended.
#[derive(Drop)]
pub struct HeldParts {
    pub run: Run,
    pub plans: Plans,
    pub history: TurnLog,
    pub puts: Vec<PutEnd>,
    pub takes: Vec<TakeEnd>,
    pub waiting: Option<Message>,
}

impl Held {
    /// A node that has just opened. Its turns draw their numbers from those of the whole run.
    pub fn new(
        alloc: Global,
        run: Run,
        puts: Vec<PutEnd>,
        takes: Vec<TakeEnd>,
        plans: Plans,
        numbers: TurnNumbers,
    ) -> Result<Held, AllocError>
        requires member { run.node < run.nodes }
        requires most { run.nodes ≤ NODES }
        requires slots { (4 ≤ run.slots) × (run.slots ≤ 4096) }
        requires links { vec_len puts + 1 ≡ run.nodes }
        requires intake { (i d : ℕ) → i < length plans.intake → IsPolled run (slice_index_or plans.intake i d) }
        requires takes { vec_len takes + 1 ≡ run.nodes }
        requires take_ends { (k : ℕ) (d : _) → k < vec_len takes → ((slice_index_or takes.items k d).receiver ≡ run.node) × ((slice_index_or takes.items k d).messages ≡ []) × IsOther run.node k (slice_index_or takes.items k d).sender }
        requires none_drawn { numbers.drawn ≡ [] }
        requires ends { (k : ℕ) (d : _) → k < vec_len puts → ((slice_index_or puts.items k d).sender ≡ run.node) × ((slice_index_or puts.items k d).capacity ≡ run.capacity) × ((slice_index_or puts.items k d).messages ≡ []) × IsOther run.node k (slice_index_or puts.items k d).receiver }
        ensures { IfOk result (λ h. (h.run ≡ run) × (h.plans ≡ plans) × (h.turns ≡ no_turns) × (h.history ≡ []) × (h.lost ≡ []) × (h.waiting ≡ None) × (h.counter ≡ numbers.counter)) }
    {
        let node = DurableNode::open(alloc, run.node, run.nodes, run.slots)?;
        let turns = plans.turns().min(MOST_ENTRIES);
        let messages = usize::from(run.nodes).max(run.slots.min(FEW_JOBS) as usize);
        let history = TurnLog::with_capacity(alloc, turns, messages)?;
        Ok(Held {
            site: Site {
                node,
                puts,
                history,
                numbers,
            },
            run,
            takes,
            plans,
            turns: Turns {
                intake: 0,
                clock: 0,
                operator: 0,
            },
            waiting: None,
        })
    }

    /// Takes the worker's next turn. False where its plan is used up.
    pub fn next(&mut self, worker: Worker) -> Result<bool, HeldFault>
        // Promise: Run and plans never change.
        ensures plans { SameRun self.old self.new }
        // Promise: A turn is none, and changes nothing, exactly where the plan is used up; it is refused, and changes nothing,
        // exactly at 65,536 entries; want of memory changes nothing but room, what was mounted, and that a taken message waits.
        // Also: unchanged, full, room, memory, Held::is_used_up.
        // Refuses: clock_runs_out_a_turn_late, one_turn_too_many.
        ensures used_up { result ≡ Ok false ↔ (plan_len self.old.plans worker ≤ turns_of self.old.turns worker) }
        ensures unchanged { result ≡ Ok false → self.new ≡ self.old }
        // Promise: A turn adds exactly the worker's next entry: what the node answered to the very event of the plan, with the
        // messages that it sent; an empty poll, an arming and a crash are kept as such.
        // Refuses: entry_changed, outcome_invented, refusal_invented, doubt_told_wrong.
        // Promise: All that is said of `DurableNode::step` holds of the event's step: which refusal comes first, that it faulted
        // only where its disk failed, what a mounting read and gave, how much it sent.
        // Refuses: submit_refused_as_area_exhausted, disk_armed_by_nobody.
        // Promise: A poll hands on the message that waits, else the first of those that were seen in its link's ring; it finds
        // nothing only where none waits and none was seen.
        // Refuses: poll_that_never_looks, message_waits_on.
        ensures taken { result ≡ Ok true → (t : Turn) × Takes self.old worker t self.new }
        ensures full { result ≡ Err HistoryFull → (MOST_ENTRIES ≤ length self.old.history) × (self.new ≡ self.old) }
        ensures room { MOST_ENTRIES ≤ length self.old.history → turns_of self.old.turns worker < plan_len self.old.plans worker → result ≡ Err HistoryFull }
        ensures memory { result ≡ Err NoMemory → Unserved self.old self.new }
    {
        if self.is_used_up(worker) {
            return Ok(false);
        }
        if self.site.history.len() >= MOST_ENTRIES {
            return Err(HeldFault::HistoryFull);
        }
        match worker {
            Worker::Intake => self.next_intake(),
            Worker::Clock => self.next_clock(),
            Worker::Operator => self.next_operator(),
        }
    }

    #[tactic(auto, using(crate::proofs::Keeping::ready_in))]
    fn next_intake(&mut self) -> Result<bool, HeldFault>
        requires more { self.old.turns.intake < length self.old.plans.intake }
        requires few { length self.old.history < MOST_ENTRIES }
        ensures plans { SameRun self.old self.new }
        ensures taken { IfOk result (λ b. (b ≡ true) × ((t : Turn) × Takes self.old Intake t self.new)) }
        ensures memory { IfErr result (λ f. (f ≡ NoMemory) × Unserved self.old self.new) }
    {
        let index = self.turns.intake;
        let from = self.plans.intake()[index];
        let place = place_of(self.run.node, from);
        fetch(&mut self.takes, &mut self.waiting, place)?;
        self.site.receive(index as u32, &self.waiting)?;
        self.turns.intake += 1;
        clear(&mut self.waiting);
        Ok(true)
    }

    #[tactic(auto, using(crate::proofs::Keeping::ready_in))]
    fn next_clock(&mut self) -> Result<bool, HeldFault>
        requires more { self.old.turns.clock < length self.old.plans.clock }
        requires few { length self.old.history < MOST_ENTRIES }
        ensures plans { SameRun self.old self.new }
        ensures taken { IfOk result (λ b. (b ≡ true) × ((t : Turn) × Takes self.old Clock t self.new)) }
        ensures memory { IfErr result (λ f. (f ≡ NoMemory) × Unserved self.old self.new) }
    {
        let index = self.turns.clock;
        let event = Event::Timer(self.plans.clock()[index]);
        self.site.hand(Worker::Clock, index as u32, &event)?;
        self.turns.clock += 1;
        Ok(true)
    }

    #[tactic(auto, using(crate::proofs::Keeping::ready_in))]
    fn next_operator(&mut self) -> Result<bool, HeldFault>
        requires more { self.old.turns.operator < length self.old.plans.operator }
        requires few { length self.old.history < MOST_ENTRIES }
        ensures plans { SameRun self.old self.new }
        ensures taken { IfOk result (λ b. (b ≡ true) × ((t : Turn) × Takes self.old Operator t self.new)) }
        ensures memory { IfErr result (λ f. (f ≡ NoMemory) × Unserved self.old self.new) }
    {
        let index = self.turns.operator;
        let order = &self.plans.operator()[index];
        self.site.operate(index as u32, order)?;
        self.turns.operator += 1;
        Ok(true)
    }

    /// Whether the worker has taken all turns of its plan.
    pub fn is_used_up(&self, worker: Worker) -> bool
        ensures { IsTrue result ↔ (plan_len self.now.plans worker ≤ turns_of self.now.turns worker) }
    {
        match worker {
            Worker::Intake => self.plans.intake().len() <= self.turns.intake,
            Worker::Clock => self.plans.clock().len() <= self.turns.clock,
            Worker::Operator => self.plans.operator().len() <= self.turns.operator,
        }
    }

    /// How many turns the worker has taken.
    pub fn turns(&self, worker: Worker) -> usize
        ensures { result ≡ turns_of self.now.turns worker }
    {
        match worker {
            Worker::Intake => self.turns.intake,
            Worker::Clock => self.turns.clock,
            Worker::Operator => self.turns.operator,
        }
    }

    /// What is true of a node whenever its lock is free.
    pub fn is_kept(&self)
        ensures { HeldInvariant self.now }
    {
        let _ = &self.plans;
    }

    /// Which node of which run.
    pub fn run(&self) -> Run
        ensures { result ≡ self.now.run }
    {
        self.run
    }

    /// What is left of the node.
    pub fn into_parts(self) -> HeldParts
        ensures kept { HeldInvariant self }
        // Promise: A history says how many calls of its node's disk failed: that count rose just at the events that say that the device failed.
        // Refuses: failures_never_shown, outcome_invented.
        ensures failures { HasFailed (entries_of self.history) result.history.failures }
        ensures parts { (result.run ≡ self.run) × (result.plans ≡ self.plans) × (result.history.turns ≡ self.history) × (result.history.lost ≡ self.lost) × (result.history.numbers ≡ self.numbers) × (result.puts.items ≡ self.puts) × (result.takes.items ≡ self.takes) × (result.waiting ≡ self.waiting) }
    {
        let Held {
            site,
            run,
            takes,
            plans,
            turns: _,
            waiting,
        } = self;
        let Site {
            node,
            puts,
            mut history,
            ..
        } = site;
        history.end(node.into_disk().failures());
        HeldParts {
            run,
            plans,
            history,
            puts,
            takes,
            waiting,
        }
    }
}

// The place of the link from a node among a node's links.
fn place_of(own: NodeId, from: NodeId) -> usize
    requires { own ≢ from }
    ensures { IsOther own result from }
{
    let own = own.number();
    let from = from.number();
    if from < own {
        from as usize
    } else {
        from as usize - 1
    }
}
