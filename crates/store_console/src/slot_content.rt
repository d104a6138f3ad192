use job_model::Work;

/// What the record of a slot says of a job.
#[derive(Clone, Copy, Debug)]
pub enum Said {
    /// The job of this id was put or kept, with this work.
    Kept(u64, Work),
    /// The job of this id is done.
    Done(u64),
    /// It says where ids go on.
    Nothing,
    /// There is no record that can be read.
    Unread,
}

/// What a slot of a journal gives, also where it is damaged.
#[derive(Clone, Copy, Debug)]
pub struct SlotContent {
    /// That of its body.
    pub sector: u64,
    /// What its body says, whatever its gate says.
    pub says: Said,
    /// Whether a mounting reads a record there.
    pub whole: bool,
}
