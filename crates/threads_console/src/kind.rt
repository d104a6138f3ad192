/// What is printed of a run.
#[derive(Clone, Copy, Debug, PartialEq, Eq)]
pub enum TraceKind {
    /// The nodes and their histories.
    Plain,
    /// Beside them the order in which the turns were taken.
    Ordered,
}
