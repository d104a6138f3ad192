// When a node asked others.
ghost use Rattle.std.specs.Prelude.{◌≡◌};
ghost use Rattle.node_timers.specs.Questions.{asked_in, asked_of, asks_at, forgotten, kept_of, none_asked, there_asked};

use crate::wait::Wait;
use group_task::GroupNo;

/// That a node asked, at this time, whether it is still a member of this group.
#[derive(Clone, Copy, Debug, PartialEq, Eq)]
pub struct Question {
    pub group: GroupNo,
    pub asked: u64,
}

/// When a node asked others last. Its question in a group that it left is kept: the answer of a coordinator that was held up comes only then.
#[derive(Clone, Copy, Debug, PartialEq, Eq)]
pub struct Questions {
    /// Whomever it asked.
    pub last: Option<u64>,
    /// Its coordinator, and before that one another group's.
    pub here: Option<Question>,
    pub left: Option<Question>,
}

impl Questions {
    pub(crate) fn new() -> Questions
        ensures { result ≡ none_asked }
    {
        Questions {
            last: None,
            here: None,
            left: None,
        }
    }

    /// Behind the question of this wait, in a group, where it is so late.
    pub fn asks(self, wait: Wait, group: GroupNo, told: Option<u64>) -> Questions
        ensures { result ≡ asks_at wait group told self }
    {
        match wait {
            Wait::Merge => Questions { last: told, ..self },
            Wait::Answer => self.asks_there(group, told),
            _ => self,
        }
    }

    fn asks_there(self, group: GroupNo, told: Option<u64>) -> Questions
        ensures { result ≡ there_asked group told self }
    {
        let Some(asked) = told else {
            return Questions { last: None, ..self };
        };
        Questions {
            last: told,
            here: Some(Question { group, asked }),
            left: kept_of(self.here, group, self.left),
        }
    }

    /// When the coordinator of this group was asked.
    pub fn asked_in(&self, group: GroupNo) -> Option<u64>
        ensures { result ≡ asked_in group self.now }
    {
        let here = asked_of(self.here, group);
        if here.is_some() {
            return here;
        }
        asked_of(self.left, group)
    }

    /// When the node asks next isn't told.
    pub fn forgotten(self) -> Questions
        ensures { result ≡ forgotten self }
    {
        Questions {
            last: None,
            here: None,
            ..self
        }
    }
}

/// When it was asked, where that was in this group.
fn asked_of(question: Option<Question>, group: GroupNo) -> Option<u64>
    ensures { result ≡ asked_of group question }
{
    match question {
        Some(question) if question.group.is(group) => Some(question.asked),
        _ => None,
    }
}

/// Which question of a group that was left is kept once the node asks in this one.
fn kept_of(here: Option<Question>, group: GroupNo, left: Option<Question>) -> Option<Question>
    ensures { result ≡ kept_of group here left }
{
    match here {
        Some(question) if !question.group.is(group) => Some(question),
        _ => left,
    }
}
