// How far apart the sectors of a disk lie in its file.
ghost use Rattle.std.specs.Prelude.{◌≡◌, ◌*◌, ◌/◌, ◌<◌, ◌^◌, Some, IfSome, IfNone, IsNone, MatchOption};
ghost use Rattle.file_disk.specs.File.{bytes_of};
ghost use Rattle.file_disk.specs.Label.{byte_of};

/// How many bytes of the file there are for each sector. A node's file says by its label which it was made with; no other file does.
#[derive(Clone, Copy, Debug, PartialEq, Eq)]
pub enum Stride {
    /// 512 bytes: a sector lies directly behind the one before it.
    Packed,
    /// 4,096 bytes, a sector in the first 512 of them: a block of most devices and file systems holds one sector alone.
    Spaced,
}

impl Stride {
    /// In bytes.
    pub fn bytes(self) -> u64
        ensures { result ≡ bytes_of self }
    {
        match self {
            Stride::Packed => 512,
            Stride::Spaced => 4096,
        }
    }

    /// The byte of a label that says so.
    pub fn byte(self) -> u8
        ensures { result ≡ byte_of self }
    {
        match self {
            Stride::Packed => 0,
            Stride::Spaced => 1,
        }
    }
}
