// The file of leases as what keeps the epochs of a session.
ghost use Rattle.std.specs.Prelude.{◌≡◌, ◌≤◌, ℕ, IsOk};
ghost use Rattle.lease_file.specs.Blocks.{bound_of};
ghost use Rattle.lease_file.specs.Kept.{kept_of};

use lease_file::LeaseFile;
use lease_session::{EpochStore, ReserveFault};
use sector_disk::SectorDisk;

/// A mounted file of leases.
#[derive(Debug, Drop)]
pub(crate) struct EpochFile<D: SectorDisk> {
    file: LeaseFile<D>,
}

impl<D: SectorDisk> EpochFile<D> {
    pub(crate) fn new(file: LeaseFile<D>) -> EpochFile<D>
        ensures { result.file ≡ file }
    {
        EpochFile { file }
    }

    /// The disk alone, as it is.
    pub(crate) fn into_disk(self) -> D
        ensures { result ≡ self.file.disk }
    {
        let EpochFile { file } = self;
        file.into_disk()
    }
}

impl<D: SectorDisk> EpochStore for EpochFile<D> {
    ghost bound = { λ store. bound_of (kept_of store.file).count };

    fn bound(&self) -> u64 {
        self.file.bound()
    }

    fn reserve(&mut self, epoch: u64) -> Result<(), ReserveFault> {
        match self.file.reserve(epoch) {
            Ok(()) => Ok(()),
            Err(_) => Err(ReserveFault),
        }
    }
}
