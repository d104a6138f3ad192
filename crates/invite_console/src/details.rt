/// What `sim` prints beside the line of each act and the nodes at its end.
#[derive(Clone, Copy, Debug, PartialEq, Eq)]
pub struct Details {
    /// What each message says, on a line of its own, in place of its bytes.
    pub names: bool,
    /// The nodes as they are before each act, in front of its line.
    pub nodes: bool,
}
