// What a disk answers in place of `Ok`.
use thiserror::Error;

#[derive(Clone, Copy, Debug, PartialEq, Eq, Error)]
pub enum DiskFault {
    /// The device failed the call: the count of failures rose, or stands at its greatest value.
    #[error("the device failed")]
    Device,
    /// The disk has no such sector, and nothing was done. Only `read` and `write` answer it.
    #[error("the disk has no such sector")]
    OutOfRange,
}
