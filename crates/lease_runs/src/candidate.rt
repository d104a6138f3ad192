//! What a client keeps of its lease of one name.

ghost use Rattle.std.specs.Prelude.{◌≤◌};

use crate::client_id::ClientId;

/// The most voters that there are.
pub const MOST_VOTERS: u8 = 128;

/// A request for a lease, or for its renewal. It is sent to each voter, the client's own machine included.
#[derive(Clone, Copy, PartialEq, Eq, Debug, Drop)]
pub struct Request {
    /// No other request of the client has it. An answer names it.
    pub number: u64,
    pub epoch: u64,
    /// When it was sent, by the client's own clock: not later than it left.
    pub sent: u64,
}

/// What a client keeps of one name, among so many voters, and for how long it relies on what it holds. Its methods alone change it.
#[derive(Drop)]
pub struct LeaseCandidate {
    pub(crate) client: ClientId,
    pub(crate) voters: u8,
    pub(crate) relies_for: u64,
    /// The number of the last request.
    pub(crate) number: u64,
    /// No epoch up to this one is relied on any more.
    pub(crate) given_up: u64,
    /// The last request, where it isn't given up, and who granted it.
    pub(crate) asked: Option<Request>,
    pub(crate) votes: [bool; 128],
    /// The request by which the client relies, until its time is over.
    pub(crate) lease: Option<Request>,
    ghost most: { voters ≤ 128 },
}
