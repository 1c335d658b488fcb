//! A commit with more targets than its sector has room for.

use fs_layout::Commit;

// The sectors 300 to 499.
fn many_targets() -> [u32; 200] {
    let mut targets = [0; 200];
    for k in 0..200 {
        targets[k] = 300 + k as u32;
    }
    targets
}

// Whether the two sectors of a commit with these begin so, whether it is read back from them, and whether it is where there is no
// header.
fn seen() -> Option<[bool; 4]> {
    let targets = many_targets();
    let sector = Commit::sector_with(0, &targets);
    let header = Commit::header_sector(&targets, 0);
    let mut read = Commit::counted(&sector, 1)?;
    read.read_header(0, &header);
    Some([
        sector.starts_with(b"INOJ\xc8\0\0\0\x2c\x01\0\0"),
        header.starts_with(b"\xaa\x01\0\0\xab\x01\0\0"),
        read.targets() == targets.as_slice(),
        Commit::counted(&sector, 0).is_some(),
    ])
}

#[test]
fn a_long_commit_is_read_back(rt: HostRuntime) {
    let found = seen();
    assert!(rt; found == Some([true, true, true, false]), "{found:?}");
}
