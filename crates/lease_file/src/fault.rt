// What a call of a file of leases is refused with.
use thiserror::Error;

#[derive(Clone, Copy, Debug, PartialEq, Eq, Error)]
pub enum LeaseFault {
    /// The device failed in this call.
    #[error("the device failed")]
    Device,
    /// The device failed in an earlier call: the file has to be mounted again.
    #[error("the device failed earlier, mount again")]
    Broken,
    /// No block of epochs is left for another process.
    #[error("no epochs are left")]
    Exhausted,
    /// A cell was never written.
    #[error("the disk isn't formatted")]
    NotFormatted,
    /// What has its body in this sector isn't allowed there.
    #[error("the body in sector {0} is damaged")]
    Damaged(u64),
}
