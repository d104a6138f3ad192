use job_model::Work;

/// What a line asks of the store.
#[derive(Clone, Copy, Debug)]
pub enum Request {
    /// Make the file anew, with areas of so many slots.
    Format(u64),
    Mount,
    Raise,
    Put(Work),
    /// The job of this id is done.
    Done(u64),
    Compact,
    List,
}

/// The number of a line, and what it asks.
#[derive(Clone, Copy, Debug)]
pub struct RequestLine {
    pub number: u64,
    pub request: Request,
}
