// What keeps the epochs that a process reserves.
ghost use Rattle.std.specs.Prelude.{◌≡◌, ◌≤◌, ℕ, IsOk};

/// The device failed, so no epoch was reserved. Nothing more is granted by this process.
#[derive(Clone, Copy, Debug, PartialEq, Eq)]
pub struct ReserveFault;

/// What keeps the epochs that a process reserves, so that after any restart the floor is at or above each epoch that was granted.
pub trait EpochStore {
    ghost bound: { Self → ℕ };

    /// No epoch above this is reserved.
    fn bound(&self) -> u64
        ensures { result ≡ bound self.now };

    /// Reserves epochs up to this one at least.
    fn reserve(&mut self, epoch: u64) -> Result<(), ReserveFault>
        ensures rises { bound self.old ≤ bound self.new }
        ensures reserves { IsOk result → epoch ≤ bound self.new };
}
