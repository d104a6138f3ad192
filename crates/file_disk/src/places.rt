// Bytes of a file at their place.
use std::fs::File;
use std::io;
use std::io::{ErrorKind, Seek, SeekFrom};
use std::os::unix::fs::{FileExt, MetadataExt};

// Fills the piece from this place on: a read that gives less is followed by another, an interrupted one is made again, and the end of the
// file is an error.
pub fn read_at<F: FileExt>(file: &F, place: u64, piece: &mut [u8]) -> io::Result<()> {
    file.read_exact_at(piece, place)
}

// Writes the whole piece from this place on: a write that takes less is followed by another, and an interrupted one is made again.
pub fn write_at<F: FileExt>(file: &F, place: u64, piece: &[u8]) -> io::Result<()> {
    file.write_all_at(piece, place)
}

// Writes the piece over a file of at least so many bytes. One that has become shorter is refused: a write behind its end would leave zeros
// where sectors were. Its end is sought: `metadata` would ask for its times too, and a kernel that has told a file's time marks the file changed
// at the next write (Linux from 6.13 on), for which the next sync pays.
pub fn overwrite(mut file: &File, length: u64, place: u64, piece: &[u8]) -> io::Result<()> {
    if file.seek(SeekFrom::End(0))? < length {
        return Err(shorter());
    }
    write_at(file, place, piece)
}

// Refuses a file that no name leads to any more, or that has fewer bytes.
pub fn expect_whole(file: &File, length: u64) -> io::Result<()> {
    let about = file.metadata()?;
    if about.nlink() == 0 {
        return Err(io::Error::new(ErrorKind::NotFound, "the file was removed"));
    }
    if about.len() < length {
        return Err(shorter());
    }
    Ok(())
}

fn shorter() -> io::Error {
    io::Error::new(ErrorKind::UnexpectedEof, "the file became shorter")
}
