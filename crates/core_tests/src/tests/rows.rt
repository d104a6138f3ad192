//! Rows of the table of events at a core of two nodes: the whole state, the command that is wanted, and the messages that are sent.
ghost use Rattle.std.specs.Prelude.{◌≢◌, ◌<◌, ◌≤◌};

use crate::tests::groups::members;
use group_task::{GroupNo, Members, NodeId, Task, share};
use job_model::{Command, JobTable, Payload, Queue, Work};
use node_core::{CoreFault, Event, GroupState, InHand, NodeCore, Phase, Timer, Wanted};
use std::alloc::Global;
use std::process::Abort;
use wire_msg::{Body, Message};

/// A core, and the jobs that it keeps.
#[derive(Drop)]
struct Node {
    alloc: Global,
    core: NodeCore,
    table: JobTable,
}

impl Node {
    /// A node that is Normal and alone in its group of count 1.
    fn new(rt: &impl Abort, alloc: Global, number: u8) -> Node
        requires { number < 2 }
    {
        Node {
            alloc,
            core: NodeCore::new(alloc, NodeId::numbered(number), 2, 1),
            table: JobTable::with_room(alloc, 8).expect(rt, "memory"),
        }
    }

    fn put(&mut self, rt: &impl Abort, work: Work) {
        let command = Command::Put(work);
        assert!(rt; self.table.can_apply(&command));
        self.table.apply(command);
    }

    /// Expects that an event wants this command, which is answered so, and sends these messages.
    fn step(&mut self, rt: &impl Abort, event: &Event, command: (Wanted, u64), sends: &[Message])
        requires { 1 ≤ command.1 }
    {
        let (wants, answer) = command;
        let planned = match event {
            Event::Deliver(message) => {
                let room = Vec::new(self.alloc);
                self.core.plan_delivery(message, &self.table, room)
            }
            _ => self.core.plan_step(event, &self.table),
        };
        let plan = planned.expect(rt, "a plan");
        assert!(rt; plan.wants() == wants);
        let sent = self.core.commit_step(plan, answer);
        assert!(rt; sent.as_slice() == sends);
        assert!(rt; sent.len() <= self.core.most(&self.table));
    }

    /// Expects that a timer wants no command and sends these messages.
    fn fire(&mut self, rt: &impl Abort, timer: Timer, sends: &[Message]) {
        self.step(rt, &Event::Timer(timer), (Wanted::None, 1), sends);
    }

    /// Expects that a message wants no command and is answered with these.
    fn hear(&mut self, rt: &impl Abort, message: &Message, answers: &[Message]) {
        self.step(rt, &Event::Deliver(*message), (Wanted::None, 1), answers);
    }

    /// Expects that an event is refused so.
    fn refuse(&mut self, rt: &impl Abort, event: &Event, fault: CoreFault) {
        let refused = Some(fault);
        assert!(rt; self.core.plan_step(event, &self.table).err() == refused);
        if let Event::Deliver(message) = event {
            let room = Vec::new(self.alloc);
            let planned = self.core.plan_delivery(message, &self.table, room);
            assert!(rt; planned.err() == refused);
        }
    }

    /// Expects this whole state.
    fn expect(&self, rt: &impl Abort, want: &GroupState, hand: &[InHand]) {
        let group_state = &self.core.vector().group_state;
        assert_eq!(rt; group_state.phase, want.phase);
        assert!(rt; group_state.coordinator == want.coordinator && group_state.group == want.group);
        assert!(rt; group_state.up == want.up && group_state.task == want.task);
        assert!(rt; group_state.found == want.found && group_state.unready == want.unready);
        assert!(rt; group_state.checking == want.checking && group_state.probing == want.probing);
        let mut jobs = self.core.vector().hand.jobs().iter();
        for want in hand {
            let job = jobs.next().map(|job| job.to_in_hand());
            assert!(rt; job == Some(*want));
        }
        assert!(rt; jobs.next().is_none());
    }
}

fn to_one(body: Body) -> Message {
    Message::between(NodeId::numbered(0), NodeId::numbered(1), body)
}

fn to_zero(body: Body) -> Message {
    Message::between(NodeId::numbered(1), NodeId::numbered(0), body)
}

fn group(creator: u8, count: u64) -> GroupNo
    requires creator { creator < 3 }
    requires count { 1 ≤ count }
{
    GroupNo::numbered(NodeId::numbered(creator), count)
}

fn task(rt: &impl Abort, group: GroupNo, numbers: &[u8]) -> Task {
    let members = members(numbers);
    assert!(rt; members.contains(group.creator()));
    share(group, members)
}

/// The state of node 0 where it is Down.
fn down() -> GroupState {
    GroupState {
        phase: Phase::Down,
        coordinator: NodeId::numbered(0),
        group: group(0, 1),
        up: Members::new(),
        task: None,
        found: Members::new(),
        unready: Members::new(),
        checking: false,
        probing: false,
    }
}

/// The state of node 0 where it is Normal in its group of this count, which has these members.
fn leading(rt: &impl Abort, count: u64, numbers: &[u8]) -> GroupState
    requires { 1 ≤ count }
{
    let mut state = down();
    state.phase = Phase::Normal;
    state.group = group(0, count);
    state.up = members(numbers).without(state.coordinator);
    state.task = Some(task(rt, state.group, numbers));
    state
}

/// A job that node 0 keeps.
fn job(rt: &impl Abort, id: u64, queue: u8, priority: u8) -> InHand {
    InHand {
        origin: NodeId::numbered(0),
        id,
        work: Work {
            queue: Queue::new(queue).expect(rt, "a queue"),
            priority,
            payload: Payload::new(&[queue, priority]).expect(rt, "a payload"),
        },
    }
}

/// Node 0 in Election of its group of count 2, into which it invited node 1.
fn inviting(rt: &impl Abort, alloc: Global) -> Node {
    let mut node = Node::new(rt, alloc, 0);
    node.fire(rt, Timer::Check, &[to_one(Body::AreYouCoordinator)]);
    assert!(rt; node.core.merge_wait().is_none());
    node.hear(rt, &to_zero(Body::Coordinator(true)), &[]);
    assert_eq!(rt; node.core.merge_wait(), Some(1));
    let invites = to_one(Body::Invitation(group(0, 2)));
    let merge = Event::Timer(Timer::Merge);
    node.step(rt, &merge, (Wanted::Raise, 2), &[invites]);
    node
}

/// Node 0 in Reorganization of its group of count 2, whose task it told node 1.
fn reorganizing(rt: &impl Abort, alloc: Global) -> Node {
    let mut node = inviting(rt, alloc);
    node.hear(rt, &to_zero(Body::Accept(group(0, 2))), &[]);
    let tells = Body::Ready(task(rt, group(0, 2), &[0, 1]));
    node.fire(rt, Timer::Accept, &[to_one(tells)]);
    node
}

/// The new group has the count that the raise answers. A node that is Normal keeps its group.
#[test]
fn ready_timer(rt: HostRuntime) {
    let mut node = reorganizing(&rt, rt.alloc());
    node.step(&rt, &Event::Timer(Timer::Ready), (Wanted::Raise, 9), &[]);
    node.expect(&rt, &leading(&rt, 9, &[0]), &[]);
    node.fire(&rt, Timer::Ready, &[]);
    node.expect(&rt, &leading(&rt, 9, &[0]), &[]);
}

#[test]
fn merge_timer_with_nothing_found(rt: HostRuntime) {
    let mut node = Node::new(&rt, rt.alloc(), 0);
    node.fire(&rt, Timer::Check, &[to_one(Body::AreYouCoordinator)]);
    let mut state = leading(&rt, 1, &[0]);
    state.checking = true;
    node.expect(&rt, &state, &[]);
    node.fire(&rt, Timer::Merge, &[]);
    node.expect(&rt, &leading(&rt, 1, &[0]), &[]);
}

#[test]
fn accept_timer_with_no_member(rt: HostRuntime) {
    let mut node = inviting(&rt, rt.alloc());
    let mut state = leading(&rt, 2, &[0]);
    state.phase = Phase::Election;
    state.task = None;
    node.expect(&rt, &state, &[]);
    node.fire(&rt, Timer::Accept, &[]);
    node.expect(&rt, &leading(&rt, 2, &[0]), &[]);
}

#[test]
fn accept_timer_with_one_member(rt: HostRuntime) {
    let node = reorganizing(&rt, rt.alloc());
    let mut state = leading(&rt, 2, &[0, 1]);
    state.phase = Phase::Reorganization;
    state.unready = members(&[1]);
    node.expect(&rt, &state, &[]);
}

/// Equal priorities go by rising id. A job in hand stays there once, and an order goes out each time.
#[test]
fn dispatch_timer(rt: HostRuntime) {
    let mut node = reorganizing(&rt, rt.alloc());
    node.hear(&rt, &to_zero(Body::ReadyAck(group(0, 2))), &[]);
    for (queue, priority) in [(1, 0), (0, 3), (1, 7), (0, 7), (3, 7)] {
        node.put(&rt, job(&rt, 0, queue, priority).work);
    }
    let orders = [(2, 1, 7), (4, 3, 7), (0, 1, 0)].map(|(id, queue, priority)| {
        let work = job(&rt, id, queue, priority).work;
        let group = group(0, 2);
        to_one(Body::Work { group, id, work })
    });
    let hand = [job(&rt, 3, 0, 7), job(&rt, 1, 0, 3)];
    for _time in 0..2 {
        node.fire(&rt, Timer::Dispatch, &orders);
        node.expect(&rt, &leading(&rt, 2, &[0, 1]), &hand);
    }
}

#[test]
fn recover_while_up_empties_the_hand(rt: HostRuntime) {
    let mut node = Node::new(&rt, rt.alloc(), 0);
    let job = job(&rt, 6, 5, 9);
    let submit = Event::Submit(job.work);
    node.step(&rt, &submit, (Wanted::Put(job.work), 6), &[]);
    node.expect(&rt, &leading(&rt, 1, &[0]), &[job]);
    node.step(&rt, &Event::Recover, (Wanted::Raise, 9), &[]);
    node.expect(&rt, &leading(&rt, 9, &[0]), &[]);
}

/// Timers and messages change nothing, and jobs are refused. A message for another node is Stranger here, too.
#[test]
fn down_until_it_recovers(rt: HostRuntime) {
    let mut node = Node::new(&rt, rt.alloc(), 0);
    node.core = NodeCore::down(rt.alloc(), NodeId::numbered(0), 2);
    let job = job(&rt, 0, 5, 9);
    node.put(&rt, job.work);
    for word in ["check", "merge", "accept", "ready", "coord", "dispatch"] {
        let timer = Timer::from_word(word.as_bytes()).expect(&rt, "a timer");
        node.fire(&rt, timer, &[]);
    }
    node.hear(&rt, &to_zero(Body::AreYouCoordinator), &[]);
    node.hear(&rt, &to_zero(Body::Invitation(group(1, 2))), &[]);
    node.hear(&rt, &to_zero(Body::Done(0)), &[]);
    let stray = Event::Deliver(to_one(Body::AreYouCoordinator));
    node.refuse(&rt, &stray, CoreFault::Stranger);
    node.refuse(&rt, &Event::Submit(job.work), CoreFault::Down);
    node.refuse(&rt, &Event::Finish(job.origin, 0), CoreFault::Down);
    node.expect(&rt, &down(), &[]);
    node.step(&rt, &Event::Recover, (Wanted::Raise, 2), &[]);
    node.expect(&rt, &leading(&rt, 2, &[0]), &[]);
}
