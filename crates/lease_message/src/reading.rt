ghost use Rattle.std.specs.Prelude.{◌≡◌, IfSome, Some, option_map};
ghost use Rattle.std.specs.Int.{w64};
ghost use Rattle.group_task.specs.declared.node.TheConstants.{NODES};
ghost use Rattle.lease_message.specs.declared.message.LeaseMessage.{LeaseMessage as Message};
ghost use Rattle.lease_message.specs.Spelling.{Spells};
ghost use Rattle.lease_message.specs.Reading.{seen, byte_at, number_at, below_at, client_at, reason_at, request_at, refusal_at, grant_at, body_at, kind_at, whole_at};

use crate::lease_name::LeaseName;
use crate::message::{LeaseBody, LeaseClient, LeaseMessage, Reason};
use group_task::NodeId;

/// What is left to read. After a `None` it isn't read any further.
#[derive(Drop)]
struct Reader<'a> {
    rest: &'a [u8],
}

impl Reader<'_> {
    fn byte(&mut self) -> Option<u8>
        ensures { seen result self.new.rest.now ≡ byte_at self.old.rest.now }
    {
        let (first, rest) = self.rest.split_first()?;
        self.rest = rest;
        Some(*first)
    }

    fn number(&mut self) -> Option<u64>
        ensures { seen result self.new.rest.now ≡ number_at w64 self.old.rest.now }
    {
        if self.rest.len() < 8 {
            return None;
        }
        let (front, rest) = self.rest.split_at(8);
        self.rest = rest;
        Some(u64::from_be_bytes([
            front[0], front[1], front[2], front[3], front[4], front[5], front[6], front[7],
        ]))
    }

    #[tactic(auto, unfolding(crate::specs::Reading::below_at))]
    fn machine(&mut self) -> Option<NodeId>
        ensures { seen result self.new.rest.now ≡ below_at NODES self.old.rest.now }
    {
        let number = self.byte()?;
        NodeId::new(number)
    }

    /// The kind, behind the version.
    #[tactic(auto, unfolding(crate::specs::Reading::kind_at))]
    fn kind(&mut self) -> Option<u8>
        ensures { seen result self.new.rest.now ≡ kind_at self.old.rest.now }
    {
        if self.byte()? != 1 {
            return None;
        }
        self.byte()
    }

    #[tactic(auto, unfolding(crate::specs::Reading::client_at))]
    fn client(&mut self) -> Option<LeaseClient>
        ensures { seen result self.new.rest.now ≡ client_at self.old.rest.now }
    {
        let machine = self.machine()?;
        let process = self.number()?;
        let number = self.number()?;
        Some(LeaseClient {
            machine,
            process,
            number,
        })
    }

    #[tactic(auto, unfolding(crate::specs::Reading::reason_at))]
    fn reason(&mut self) -> Option<Reason>
        ensures { seen result self.new.rest.now ≡ reason_at self.old.rest.now }
    {
        let number = self.byte()?;
        Reason::numbered(number)
    }

    #[tactic(auto, unfolding(crate::specs::Reading::request_at))]
    fn request(&mut self) -> Option<LeaseBody>
        ensures { seen result self.new.rest.now ≡ request_at self.old.rest.now }
    {
        let number = self.number()?;
        let keeps = self.number()?;
        let list = self.number()?;
        Some(LeaseBody::Request {
            number,
            keeps,
            list,
        })
    }

    #[tactic(auto, unfolding(crate::specs::Reading::grant_at))]
    fn grant(&mut self) -> Option<LeaseBody>
        ensures { seen result self.new.rest.now ≡ grant_at self.old.rest.now }
    {
        let number = self.number()?;
        Some(LeaseBody::Grant { number })
    }

    #[tactic(auto, unfolding(crate::specs::Reading::refusal_at))]
    fn refusal(&mut self) -> Option<LeaseBody>
        ensures { seen result self.new.rest.now ≡ refusal_at self.old.rest.now }
    {
        let number = self.number()?;
        let reason = self.reason()?;
        let lasts = self.number()?;
        Some(LeaseBody::Refusal {
            number,
            reason,
            lasts,
        })
    }

    #[tactic(auto, unfolding(crate::specs::Reading::body_at))]
    fn body(&mut self, kind: u8) -> Option<LeaseBody>
        ensures { seen result self.new.rest.now ≡ body_at kind self.old.rest.now }
    {
        match kind {
            1 => self.request(),
            2 => self.grant(),
            3 => self.refusal(),
            4 => Some(LeaseBody::Release),
            _ => None,
        }
    }
}

/// Reads all of the bytes.
#[tactic(auto, unfolding(crate::specs::Reading::whole_at, crate::specs::Reading::name_at))]
fn whole(bytes: &[u8]) -> Option<LeaseMessage>
    ensures { result ≡ whole_at bytes.now }
{
    let mut reader = Reader { rest: bytes };
    let kind = reader.kind()?;
    let client = reader.client()?;
    let voter = reader.machine()?;
    let epoch = reader.number()?;
    let body = reader.body(kind)?;
    let name = LeaseName::new(reader.rest)?;
    Some(LeaseMessage {
        client,
        voter,
        epoch,
        body,
        name,
    })
}

/// The message that the bytes spell, all of them.
pub fn decode(bytes: &[u8]) -> Option<LeaseMessage>
    // Promise: `decode` gives a message exactly where the bytes are its spelling, all of them.
    // Refuses: other_version_taken, reason_changed.
    ensures read { IfSome result (λ m. Spells m bytes.now) }
    ensures only { (m : Message) → Spells m bytes.now → result ≡ Some m }
{
    whole(bytes)
}
