//! A file with a block for each sector, which no command makes.
use file_disk::{FileDisk, Stride};
use sector_disk::SectorDisk;
use std::path::PathBuf;
use std::process::Abort;
use std::{env, fs, io, process};

// A path in the folder for temporary files that no other process takes.
fn temporary(rt: &HostRuntime) -> io::Result<PathBuf> {
    let name = format!(in rt.alloc(); "core_tests-{}-spaced", process::id(rt.process()))?;
    Ok(env::temp_dir(rt)?.join(rt.alloc(), name.as_str())?)
}

// Sector 1 is the bytes from 4,096 on, and the rest of its block stays zeros.
fn expect_spaced(rt: &impl Abort, bytes: &[u8]) {
    assert_eq!(rt; bytes.len(), 12_288);
    for (at, byte) in bytes.iter().enumerate() {
        let want = match at / 512 {
            8 => 0x11,
            16 => 0x22,
            _ => 0,
        };
        assert_eq!(rt; *byte, want, "byte {at}");
    }
}

#[test]
fn one_sector_in_a_block(rt: HostRuntime) {
    let path = temporary(&rt).expect(&rt, "a path");
    let mut disk = FileDisk::create_new(&rt, path.as_path(), 3, Stride::Spaced).expect(
        &rt, "a disk",
    );
    assert_eq!(rt; disk.write(2, &[0x22; 512]), Ok(()));
    assert_eq!(rt; disk.write(1, &[0x11; 512]), Ok(()));
    drop(disk);
    expect_spaced(
        &rt,
        &fs::read(&rt, path.as_path()).expect(&rt, "the file's bytes"),
    );
    let mut disk = FileDisk::open_with(&rt, path.as_path(), Stride::Spaced).expect(&rt, "a disk");
    let mut sector = [0xee; 512];
    assert!(rt; disk.read(1, &mut sector).is_ok() && sector == [0x11; 512]);
    assert_eq!(rt; disk.sectors(), 3);
    fs::remove_file(&rt, path.as_path()).expect(&rt, "the file removed");
}
