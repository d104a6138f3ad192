ghost use Rattle.std.specs.Prelude.{◌≡◌, true};
ghost use Rattle.group_task.specs.Ids.{has, IsSet};
ghost use Rattle.group_task.specs.Assignment.{owner_of};

use crate::group::GroupNo;
use crate::members::Members;
use crate::node::NodeId;
use job_model::Queue;
use std::marker::Model;

/// The task of a group: its members, the creator among them, share the queues.
///
/// The coordinator hands it to the members when it reorganizes the group. (Garcia-Molina 1982: the
/// task description.)
#[derive(Clone, Copy, Debug, PartialEq, Eq)]
pub struct Task {
    group: GroupNo,
    members: Members,
}

impl Model for Task {
    ghost use Rattle.std.specs.Prelude.{◌≡◌, true};
    ghost use Rattle.group_task.specs.Assignment.{Assignment};
    ghost use Rattle.group_task.specs.Ids.{has};

    ghost Value = { Assignment };

    ghost view = { λ a. record { group = a.group; members = a.members } };

    ghost invariant = { λ a. has a.members a.group.creator ≡ true };

    ghost inverse = { λ t. record { group = t.group; members = t.members } };
}

impl Task {
    /// The group whose task it is.
    #[inline]
    pub fn group(&self) -> GroupNo
        ensures { result ≡ self.now.group }
    {
        self.group
    }

    /// The nodes that share the queues.
    #[inline]
    pub fn members(&self) -> Members
        ensures value { result ≡ self.now.members }
        ensures set { IsSet self.now.members }
        ensures creator { has self.now.members self.now.group.creator ≡ true }
    {
        let Task { members, .. } = self;
        members.rise();
        self.members
    }
}

/// The task of a group and its members.
///
/// A caller that can't know that the creator is a member, as a reader of messages, tests it by
/// [`Members::contains`].
#[inline]
pub fn share(group: GroupNo, members: Members) -> Task
    requires { has members group.creator ≡ true }
    // Promise: A task is its group and its members, a set with the creator in it.
    // Also: Task::group, Task::members.
    // Refuses: task_of_the_first_group, group_of_another_count, creator_is_the_only_member.
    ensures { result ≡ record { group = group; members = members } }
{
    Task { group, members }
}

/// The member that works on a queue: the queues go to the members in turn, in rising order.
///
/// [`one_owner`](crate::one_owner) and [`even_shares`](crate::even_shares) say what comes of it.
pub fn owner(task: &Task, queue: Queue) -> NodeId
    // Promise: The owner of queue q is the member at place q mod count, and is a member.
    // Refuses: owner_off_by_one.
    ensures value { result ≡ owner_of task.now.members queue }
    ensures set { IsSet task.now.members }
    ensures member { has task.now.members result ≡ true }
{
    let members = task.members();
    members.get(queue.number() as usize % members.len())
}
