ghost use Rattle.std.specs.Prelude.{◌≡◌, ◌<◌, ◌≤◌, ◌^◌, ◌↔◌, IsNone, IfSome, IsTrue};
ghost use Rattle.group_task.specs.Group.{same_group};

use crate::node::NodeId;
use std::marker::Model;

/// The number of a group: the node that started it and is its coordinator, and that node's count.
///
/// A node counts the groups that it starts, from 1 on, and keeps the count where a failure doesn't
/// erase it, so that no two groups have one number. That it does so is the promise of the layers that
/// count: a number by itself is any creator with any count. (Garcia-Molina 1982: the group number.)
#[derive(Clone, Copy, Debug, PartialEq, Eq, PartialOrd, Ord)]
pub struct GroupNo {
    creator: NodeId,
    count: u64,
}

impl Model for GroupNo {
    ghost use Rattle.std.specs.Prelude.{◌≤◌};
    ghost use Rattle.group_task.specs.Group.{Group};

    ghost Value = { Group };

    ghost view = { λ a. record { creator = a.creator; count = a.count } };

    ghost invariant = { λ a. 1 ≤ a.count };

    ghost inverse = { λ g. record { creator = g.creator; count = g.count } };
}

impl GroupNo {
    /// The group's number, from input whose count may be 0, which no group has.
    #[inline]
    pub fn new(creator: NodeId, count: u64) -> Option<GroupNo>
        // Promise: A group's number is its creator and a count of at least 1.
        // Also: GroupNo::numbered, GroupNo::creator, GroupNo::count, GroupNo::is.
        // Refuses: count_0_taken, first_group_refused, every_group_is_the_first, another_creator, count_one_less, is_another_group.
        ensures value { IfSome result (λ g. g ≡ record { creator = creator; count = count }) }
        ensures none { IsNone result ↔ (count ≡ 0) }
    {
        if count == 0 {
            return None;
        }
        Some(GroupNo { creator, count })
    }

    /// The group's number, for a count that is known to be at least 1.
    #[inline]
    pub fn numbered(creator: NodeId, count: u64) -> GroupNo
        requires { 1 ≤ count }
        ensures { result ≡ record { creator = creator; count = count } }
    {
        GroupNo { creator, count }
    }

    /// The node that started the group and coordinates it.
    #[inline]
    pub fn creator(self) -> NodeId
        ensures { result ≡ self.creator }
    {
        self.creator
    }

    /// Which of its creator's groups it is, counted from 1.
    #[inline]
    pub fn count(self) -> u64
        ensures value { result ≡ self.count }
        ensures at_least_one { 1 ≤ self.count }
        ensures fits { self.count < 2 ^ 64 }
    {
        self.count
    }

    /// Whether this is the other group.
    #[inline]
    pub fn is(self, other: GroupNo) -> bool
        ensures { result ≡ same_group self other }
    {
        self == other
    }
}
