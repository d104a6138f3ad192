// What a call of a cell is refused with.
use thiserror::Error;

#[derive(Clone, Copy, Debug, PartialEq, Eq, Error)]
pub enum CellFault {
    /// The device failed in this call.
    #[error("the device failed")]
    Device,
    /// The device failed in an earlier raise: the cell has to be mounted again.
    #[error("the device failed earlier, mount again")]
    Broken,
    /// The value is the greatest that eight bytes hold.
    #[error("the value is the greatest there is")]
    Exhausted,
    /// No slot is sealed.
    #[error("no slot is sealed")]
    NotFormatted,
    /// The slot with its body in this sector is sealed, and past the eight bytes of a value a byte
    /// isn't zero.
    #[error("the body in sector {0} is damaged")]
    Damaged(u64),
}
