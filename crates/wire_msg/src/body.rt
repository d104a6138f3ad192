ghost use Rattle.std.specs.Prelude.{◌≡◌, ◌≤◌, IfSome, length};
ghost use Rattle.job_model.specs.declared.payload.TheConstants.{PAYLOAD_CAPACITY};
ghost use Rattle.wire_msg.specs.Kinds.{group_in, shape_of, short_of, body_of, given, IsShort, IsForm};

use crate::short::{Kind, Short};
use group_task::{GroupNo, NodeId, Task};
use job_model::{Payload, Queue, Work};

/// How many bytes the body of a message has at most: that of a Work with a priority and the longest payload. Its whole spelling
/// has six more.
pub const BODY_CAPACITY: usize = 421;

/// What a message says, in the order of the kinds 1 to 10; a Work with a priority is of kind 11. The names are those of Garcia-Molina's
/// invitation algorithm (Elections in a distributed computing system, 1982), and of the work that a group shares.
#[derive(Clone, Copy, Debug, PartialEq, Eq)]
pub enum Body {
    /// Asks whether the receiver coordinates a group.
    AreYouCoordinator,
    /// Answers it: yes or no.
    Coordinator(bool),
    /// Asks the coordinator of this group whether the sender is still one of its members.
    AreYouThere(GroupNo),
    /// Answers it, for this group: yes or no.
    Here(GroupNo, bool),
    /// Invites the receiver into this group.
    Invitation(GroupNo),
    /// Accepts the invitation into this group.
    Accept(GroupNo),
    /// Tells a member the task of the new group.
    Ready(Task),
    /// Tells the coordinator that the sender has the task of this group.
    ReadyAck(GroupNo),
    /// Gives a member of this group a job of the sender: its id there, and the work that it asks for.
    Work { group: GroupNo, id: u64, work: Work },
    /// Tells the node that gave the work that the job of this id is done.
    Done(u64),
}

/// What a body says: it has a short form, or it is one of the two long ones.
#[derive(Clone, Copy, Debug)]
pub enum Form<'a> {
    Short(Short),
    Ready(&'a Task),
    Work(GroupNo, u64, &'a Work),
}

/// What a Work says, with the bytes of its payload lent.
#[derive(Clone, Copy, Debug)]
pub struct LentWork<'a> {
    pub group: GroupNo,
    pub id: u64,
    pub queue: Queue,
    pub priority: u8,
    pub payload: &'a [u8],
}

impl Body {
    /// The group that it names.
    #[inline]
    pub fn group(&self) -> Option<GroupNo>
        ensures { result ≡ group_in self.now }
    {
        match self {
            Body::AreYouThere(group)
            | Body::Here(group, _)
            | Body::Invitation(group)
            | Body::Accept(group)
            | Body::ReadyAck(group)
            | Body::Work { group, .. } => Some(*group),
            Body::Ready(task) => Some(task.group()),
            Body::AreYouCoordinator | Body::Coordinator(_) | Body::Done(_) => None,
        }
    }

    /// Its form.
    #[inline(always)]
    pub fn form(&self) -> Form<'_>
        // Promise: A body has a short form exactly where it is no Ready and no Work; a body and its short form are made of each
        // other; the group that a body names is answered.
        // Also: Body::short, Body::group, Short::write_to, Short::body.
        // Refuses: no_body_is_short, short_one_turned_round, group_of_a_task_not_named.
        ensures form { IsForm result (shape_of self.now) }
        ensures same { body_of (shape_of self.now) ≡ self.now }
    {
        match self {
            Body::Ready(task) => Form::Ready(task),
            Body::Work { group, id, work } => Form::Work(*group, *id, work),
            _ => Form::Short(self.short().unwrap()),
        }
    }

    /// Its short form, which a Ready and a Work don't have.
    #[inline(always)]
    pub fn short(&self) -> Option<Short>
        ensures value { result ≡ short_of self.now }
        ensures short { IfSome result IsShort }
    {
        let none = NodeId::numbered(0);
        let of = |kind: Kind, answer: bool, group: GroupNo| Short {
            kind,
            answer,
            creator: group.creator(),
            number: group.count(),
        };
        let own = |kind: Kind, answer: bool, number: u64| Short {
            kind,
            answer,
            creator: none,
            number,
        };
        let short = match self {
            Body::AreYouCoordinator => own(Kind::AreYouCoordinator, false, 0),
            Body::Coordinator(answer) => own(Kind::Coordinator, *answer, 0),
            Body::AreYouThere(group) => of(Kind::AreYouThere, false, *group),
            Body::Here(group, answer) => of(Kind::Here, *answer, *group),
            Body::Invitation(group) => of(Kind::Invitation, false, *group),
            Body::Accept(group) => of(Kind::Accept, false, *group),
            Body::ReadyAck(group) => of(Kind::ReadyAck, false, *group),
            Body::Done(id) => own(Kind::Done, false, *id),
            Body::Ready(_) | Body::Work { .. } => return None,
        };
        Some(short)
    }
}

impl LentWork<'_> {
    /// Makes `body` this Work. It is written in place, since a body is long: where it is a Work already, no more than what it says.
    #[inline(always)]
    pub fn write_to(&self, body: &mut Body)
        requires { length self.now.payload.now ≤ PAYLOAD_CAPACITY }
        ensures { body.new ≡ given self.now }
    {
        if !matches!(body, Body::Work { .. }) {
            *body = Body::Work {
                group: self.group,
                id: self.id,
                work: Work {
                    queue: self.queue,
                    priority: self.priority,
                    payload: Payload::empty(),
                },
            };
        }
        if let Body::Work { group, id, work } = body {
            *group = self.group;
            *id = self.id;
            work.queue = self.queue;
            work.priority = self.priority;
            work.payload.set(self.payload);
        }
    }
}
