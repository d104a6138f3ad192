ghost use Rattle.std.specs.Prelude.{◌≡◌};
ghost use Rattle.lease_message.specs.Spelling.{kind_of, reason_number};
ghost use Rattle.lease_message.specs.Reading.{reason_numbered};

use crate::lease_name::LeaseName;
use group_task::NodeId;

/// Who asks: a process of a machine, and the number of the one that asks there.
#[derive(Clone, Copy, Debug, PartialEq, Eq)]
pub struct LeaseClient {
    pub machine: NodeId,
    /// The count of the machine's file in this process. No other process of the machine has it.
    pub process: u64,
    /// No other one that asks in this process has it.
    pub number: u64,
}

/// Why a voter doesn't grant a request.
#[derive(Clone, Copy, Debug, PartialEq, Eq)]
pub enum Reason {
    /// It began not long ago, and waits until what an earlier process of it granted has ended.
    Waiting,
    /// Another client has the grant.
    Held,
    /// Its epoch isn't above the greatest that was granted, or the voter's disk doesn't allow it.
    Epoch,
    /// It speaks of another list of machines, or of another time for which a grant is kept.
    Terms,
    /// The voter has no room for one name more.
    Full,
}

/// What a message says, in the order of the kinds 1 to 4. An answer has the number of its request.
#[derive(Clone, Copy, Debug, PartialEq, Eq)]
pub enum LeaseBody {
    /// Asks for the lease, or for its renewal, of a voter that keeps a grant for so long and has the list of machines of this number.
    Request {
        number: u64,
        keeps: u64,
        list: u64,
    },
    /// Grants it.
    Grant {
        number: u64,
    },
    /// Refuses it. The voter grants nothing to others for so long at most; the message's epoch is the greatest that it knows of.
    Refusal {
        number: u64,
        reason: Reason,
        lasts: u64,
    },
    /// The client relies on no epoch up to the message's any more.
    Release,
}

/// A message between a client and a voter, of the lease of a name under an epoch.
#[derive(Clone, Copy, Debug, PartialEq, Eq)]
pub struct LeaseMessage {
    pub client: LeaseClient,
    pub voter: NodeId,
    pub epoch: u64,
    pub body: LeaseBody,
    pub name: LeaseName,
}

impl LeaseBody {
    /// The number by which a spelling tells the kind.
    pub(crate) fn kind(&self) -> u8
        ensures { result ≡ kind_of self.now }
    {
        match self {
            LeaseBody::Request { .. } => 1,
            LeaseBody::Grant { .. } => 2,
            LeaseBody::Refusal { .. } => 3,
            LeaseBody::Release => 4,
        }
    }
}

impl Reason {
    /// The number by which a spelling tells it.
    pub(crate) fn number(self) -> u8
        ensures { result ≡ reason_number self }
    {
        match self {
            Reason::Waiting => 1,
            Reason::Held => 2,
            Reason::Epoch => 3,
            Reason::Terms => 4,
            Reason::Full => 5,
        }
    }

    /// The one of this number.
    pub(crate) fn numbered(number: u8) -> Option<Reason>
        ensures { result ≡ reason_numbered number }
    {
        match number {
            1 => Some(Reason::Waiting),
            2 => Some(Reason::Held),
            3 => Some(Reason::Epoch),
            4 => Some(Reason::Terms),
            5 => Some(Reason::Full),
            _ => None,
        }
    }
}
