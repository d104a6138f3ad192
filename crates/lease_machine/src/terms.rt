ghost use Rattle.std.specs.Prelude.{◌≡◌, ◌+◌, ◌*◌, ◌-◌, ◌/◌, ◌<◌, ◌≤◌, ◌⊎◌, ◌↔◌, ◌^◌, IfSome, IsNone};

use group_task::NodeId;

/// What the machines agree on, and which of them this is.
#[derive(Clone, Copy, Debug)]
pub struct LeaseTerms {
    machine: NodeId,
    machines: u8,
    list: u64,
    keeps: u64,
    relies_for: u64,
    // A client relies for less time, by the slowest clock, than a voter keeps its grant by the fastest, though both read whole numbers.
    ghost margin: { 33 * relies_for + 2 * 64 ≤ 31 * keeps },
    ghost fits: { keeps ≤ 2 ^ 32 },
    ghost machines_fit: { machines ≤ 128 },
}

impl LeaseTerms {
    /// The terms of one of so many machines, by the list of this number, where a voter keeps a grant for so long.
    pub fn new(machine: NodeId, machines: u8, list: u64, keeps: u64) -> Option<LeaseTerms>
        // Promise: A client relies on a lease for as long as the margin lets it: 33 times that, and 128, is no more than 31 times
        // what a voter keeps a grant for, where clocks keep to 31/32 and 33/32 and are read in whole numbers.
        // Refuses: no_margin_for_drift.
        ensures terms { IfSome result (λ terms. (terms.machine ≡ machine) × (terms.machines ≡ machines) × (terms.list ≡ list) × (terms.keeps ≡ keeps)) }
        ensures margin { IfSome result (λ terms. terms.relies_for ≡ (31 * keeps - 128) / 33) }
        ensures none { IsNone result ↔ ((machines ≤ machine) ⊎ (128 < machines) ⊎ (31 * keeps < 161) ⊎ (2 ^ 32 < keeps)) }
    {
        if machine.number() >= machines || machines > 128 || keeps > 1 << 32 || 31 * keeps < 161 {
            return None;
        }
        Some(LeaseTerms {
            machine,
            machines,
            list,
            keeps,
            relies_for: (31 * keeps - 128) / 33,
        })
    }

    pub fn machine(&self) -> NodeId
        ensures { result ≡ self.now.machine }
    {
        self.machine
    }

    /// How many machines there are: the numbers below it.
    pub fn machines(&self) -> u8
        ensures { result ≡ self.now.machines }
    {
        self.machines
    }

    /// The number of the list of machines.
    pub fn list(&self) -> u64
        ensures { result ≡ self.now.list }
    {
        self.list
    }

    /// How long a voter keeps a grant.
    pub fn keeps(&self) -> u64
        ensures value { result ≡ self.now.keeps }
        ensures fits { self.now.keeps ≤ 2 ^ 32 }
    {
        self.keeps
    }

    /// How long a client relies on a lease, from when it asked.
    pub fn relies_for(&self) -> u64
        ensures value { result ≡ self.now.relies_for }
        ensures margin { 33 * self.now.relies_for + 2 * 64 ≤ 31 * self.now.keeps }
    {
        self.relies_for
    }
}
