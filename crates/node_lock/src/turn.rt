// One turn at a node.
ghost use Rattle.std.specs.Prelude.{◌≡◌, ◌≤◌, ◌<◌, [], ◌∷◌, ◌++◌, OnOk, IfErr, IfNone, IfSome, vec_len, slice_index_or, None};
ghost use Rattle.histories.specs.HistoryEvent.{Entry};
ghost use Rattle.durable_node.specs.Stepping.{most_by};
ghost use Rattle.node_lock.specs.declared.held.HeldFault.TheVariants.{NoMemory};
ghost use Rattle.node_lock.specs.declared.worker.Worker.TheVariants.{Intake, Operator};
ghost use Rattle.node_lock.specs.Asking.{Hand, asked_in, asked_by};
ghost use Rattle.node_lock.specs.Kept.{what_quiet};
ghost use Rattle.node_lock.specs.declared.line.Quiet.TheVariants.{Rested};
ghost use Rattle.node_lock.specs.Drawing.{IsGiven};
ghost use Rattle.node_lock.specs.Taking.{IsReady, TookTurn, TookNone, site_of, turn_of};
ghost use Rattle.link_ring.specs.Sides.{Side};
ghost use Rattle.node_lock.specs.Sending.{HasRoomFor, SameSides, Brings, most_to};

use crate::held::HeldFault;
use crate::line::Quiet;
use crate::links::{reserve_puts, send_all};
use crate::order::OperatorOrder;
use crate::perform::perform;
use crate::turn_log::TurnLog;
use crate::turn_numbers::TurnNumbers;
use crate::worker::Worker;
use durable_node::DurableNode;
use link_ring::{PutEnd, TakeEnd};
use node_core::Event;
use sector_disk::MemDisk;
use std::alloc::AllocError;
use wire_msg::Message;

/// A node, the ends of its links to the others, and its history.
#[derive(Drop)]
pub(crate) struct Site {
    pub(crate) node: DurableNode<MemDisk>,
    pub(crate) puts: Vec<PutEnd>,
    pub(crate) history: TurnLog,
    pub(crate) numbers: TurnNumbers,
}

impl Site {
    /// A turn that hands an event to the node.
    pub(crate) fn hand(
        &mut self,
        worker: Worker,
        index: u32,
        event: &Event,
    ) -> Result<(), HeldFault>
        requires { IsReady self.old }
        ensures taken { OnOk result ((e : Entry) × TookTurn worker index (Hand event.now) e (site_of self.old) (site_of self.new)) }
        ensures memory { IfErr result (λ fault. (fault ≡ NoMemory) × TookNone (site_of self.old) (site_of self.new)) }
    {
        if make_room(&self.node, &mut self.puts, &mut self.history, event).is_err() {
            return Err(HeldFault::NoMemory);
        }
        let (event_outcome, sent) = perform(&mut self.node, event)?;
        let number = self.numbers.draw();
        send_all(&mut self.puts, &sent, &mut self.history);
        self.history
            .push(worker, index, number, event, event_outcome, &sent);
        self.node.reuse(sent);
        Ok(())
    }

    /// The operator's turn.
    pub(crate) fn operate(&mut self, index: u32, order: &OperatorOrder) -> Result<(), HeldFault>
        requires { IsReady self.old }
        ensures taken { OnOk result ((e : Entry) × TookTurn Operator index (asked_in order.now) e (site_of self.old) (site_of self.new)) }
        ensures memory { IfErr result (λ fault. (fault ≡ NoMemory) × TookNone (site_of self.old) (site_of self.new)) }
    {
        let event = match order {
            OperatorOrder::Submit(job) => Event::Submit(job.work()),
            OperatorOrder::Finish(origin, id) => Event::Finish(*origin, *id),
            OperatorOrder::Recover => Event::Recover,
            OperatorOrder::Arm(calls) => {
                rest(
                    &mut self.history,
                    &mut self.numbers,
                    Worker::Operator,
                    index,
                )?;
                self.node.arm(*calls);
                return Ok(());
            }
            OperatorOrder::Crash(fill) => {
                if self.history.reserve_quiet().is_err() {
                    return Err(HeldFault::NoMemory);
                }
                self.node.crash(fill.as_slice());
                let number = self.numbers.draw();
                self.history
                    .push_quiet(Worker::Operator, index, number, Quiet::Crashed);
                return Ok(());
            }
        };
        self.hand(Worker::Operator, index, &event)
    }

    /// The intake's turn: what a poll took is handed to the node.
    pub(crate) fn receive(&mut self, index: u32, arrived: &Option<Message>) -> Result<(), HeldFault>
        requires { IsReady self.old }
        ensures taken { OnOk result ((e : Entry) × TookTurn Intake index (asked_by arrived.now) e (site_of self.old) (site_of self.new)) }
        ensures memory { IfErr result (λ fault. (fault ≡ NoMemory) × TookNone (site_of self.old) (site_of self.new)) }
    {
        match arrived {
            Some(message) => self.deliver(index, message),
            None => rest(&mut self.history, &mut self.numbers, Worker::Intake, index),
        }
    }

    // Hands a message to the node. It stands apart, since most polls take none, and here a whole event is made.
    #[inline(never)]
    fn deliver(&mut self, index: u32, message: &Message) -> Result<(), HeldFault>
        requires { IsReady self.old }
        ensures taken { OnOk result ((e : Entry) × TookTurn Intake index (Hand (Event.Deliver message.now)) e (site_of self.old) (site_of self.new)) }
        ensures memory { IfErr result (λ fault. (fault ≡ NoMemory) × TookNone (site_of self.old) (site_of self.new)) }
    {
        let event = Event::Deliver(*message);
        self.hand(Worker::Intake, index, &event)
    }
}

/// Makes all the room that an event takes outside the node.
fn make_room(
    node: &DurableNode<MemDisk>,
    puts: &mut Vec<PutEnd>,
    history: &mut TurnLog,
    event: &Event,
) -> Result<(), AllocError>
    ensures turns { history.new.turns ≡ history.old.turns }
    ensures numbers { history.new.numbers ≡ history.old.numbers }
    ensures lost { history.new.lost ≡ history.old.lost }
    ensures same { SameSides puts.old.items puts.new.items }
    ensures room { OnOk result ((0 < history.new.room) × (0 < history.new.events)) }
    ensures sends { OnOk result (most_by node.now.nodes node.now.kept ≤ history.new.sends) }
    ensures losses { OnOk result (most_by node.now.nodes node.now.kept ≤ history.new.losses) }
    ensures puts { OnOk result (HasRoomFor (most_to event.now node.now.state node.now.kept) puts.new.items) }
{
    history.reserve(node.most())?;
    reserve_puts(puts, event, node)
}

/// A turn that hands no event to the node and leaves it as it is.
fn rest(
    history: &mut TurnLog,
    numbers: &mut TurnNumbers,
    worker: Worker,
    index: u32,
) -> Result<(), HeldFault>
    ensures taken { OnOk result (history.new.turns ≡ history.old.turns ++ turn_of worker index (record { what = what_quiet Rested; sent = [] }) ∷ []) }
    ensures lost { history.new.lost ≡ history.old.lost }
    ensures number { OnOk result (IsGiven numbers.old.drawn numbers.new.drawn history.old.numbers history.new.numbers) }
    ensures memory { IfErr result (λ fault. (fault ≡ NoMemory) × (history.new.turns ≡ history.old.turns) × (history.new.numbers ≡ history.old.numbers) × (numbers.new ≡ numbers.old)) }
{
    if history.reserve_quiet().is_err() {
        return Err(HeldFault::NoMemory);
    }
    history.push_quiet(worker, index, numbers.draw(), Quiet::Rested);
    Ok(())
}

/// No message waits. None is written over none, since that takes as long as to write a message.
pub(crate) fn clear(waiting: &mut Option<Message>)
    ensures { waiting.new ≡ None }
{
    if waiting.is_some() {
        *waiting = None;
    }
}

/// Where no message waits, the next of the link at this place waits from here on.
pub(crate) fn fetch(
    takes: &mut Vec<TakeEnd>,
    waiting: &mut Option<Message>,
    place: usize,
) -> Result<(), HeldFault>
    requires place { place < vec_len takes.old }
    ensures none { IfNone waiting.new ((waiting.old ≡ None) × SameSides takes.old.items takes.new.items) }
    ensures empty { OnOk result (IfNone waiting.new ((d : Side) → (slice_index_or takes.old.items place d).seen ≡ [])) }
    ensures some { IfSome waiting.new (λ m. Brings place m waiting.old takes.old.items takes.new.items) }
    ensures memory { IfErr result (λ fault. fault ≡ NoMemory) }
{
    if waiting.is_some() {
        return Ok(());
    }
    let end = &mut takes[place];
    if end.reserve(1).is_err() {
        return Err(HeldFault::NoMemory);
    }
    end.take_into(waiting);
    Ok(())
}
