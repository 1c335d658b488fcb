//! An image of version 2 whose one file has the largest size and no hole, so that both levels of sectors of pointers are full, and one of
//! version 3 whose one file has a block that is found by all three: what a check finds where bytes of them are changed, or where they are
//! cut, or share sectors; and that a mount agrees.

ghost use Rattle.std.specs.Prelude.{◌+◌, ◌^◌, ◌≤◌};

use crate::new_disks::mount_fault;
use fs_check::{CheckFault, Finding, check};
use fs_system::MountFault;
use sector_disk::{Disk, MemDisk};
use std::alloc::{AllocError, Global};

// Sectors of the disk; with 64 inodes its inode table begins at 137, and its data at 153.
const SECTORS: u32 = 32768;

// A sector, an offset in it, and the bytes from there on.
type Change = (usize, usize, &'static [u8]);

// Inode 1, the root, whose block is sector 153: a directory of 128 bytes.
const ROOT: &[u8] =
    b"\x02\0\xed\x01\0\0\0\0\0\0\0\0\x01\0\0\0\x80\0\0\0\0\0\0\0\x01\0\0\0\0\0\0\0\0\0\0\0\x99\0\0\0";

// Inode 2, a file of 8,460,288 bytes: blocks 0 to 11 are the sectors from 284 on, the indirect sector is 155, and the double indirect
// one 154.
const FILE: &[u8] =
    b"\x01\0\xa4\x01\0\0\0\0\0\0\0\0\x01\0\0\0\0\x18\x81\0\0\0\0\0\0\0\0\0\0\0\0\0\0\0\0\0\
    \x1c\x01\0\0\x1d\x01\0\0\x1e\x01\0\0\x1f\x01\0\0\x20\x01\0\0\x21\x01\0\0\
    \x22\x01\0\0\x23\x01\0\0\x24\x01\0\0\x25\x01\0\0\x26\x01\0\0\x27\x01\0\0\
    \x9b\0\0\0\x9a\0\0\0";

// The image of version 2, but for the sectors of pointers. The sectors up to 16,807 are in use: those below the data, the root's block,
// 130 sectors of pointers, and 16,524 blocks.
static SECOND: [Change; 12] = [
    // Version 2, 32,768 sectors, 64 inodes.
    (0, 0, b"INOS\x02\0\0\0\0\x80\0\0\x40\0\0\0"),
    (1, 0, b"INOJ"),
    (128, 0, b"\x07\0\0\0\0\0\0\0"),
    (128, 8, &[0xff; 504]),
    (129, 0, &[0xff; 512]),
    (130, 0, &[0xff; 512]),
    (131, 0, &[0xff; 512]),
    (132, 0, &[0xff; 512]),
    (133, 0, &[0xff; 53]),
    (137, 128, ROOT),
    (137, 256, FILE),
    // Inode 2 is `h`.
    (153, 0, b"\x02\0\0\0\x01\0\0\0h"),
];

// The sectors of pointers: the double indirect sector, the indirect one, which has blocks 12 to 139, and the others with those from 140 on.
fn write_numbers(image: &mut [[u8; 512]]) {
    change(image, 154, 0, &numbers_from(156));
    for k in 0..129 {
        change(image, 155 + k, 0, &numbers_from(296 + 128 * k as u32));
    }
}

// A sector of pointers: 128 numbers from this one on.
fn numbers_from(first: u32) -> [u8; 512]
    requires { first + 128 ≤ 2 ^ 32 }
{
    let mut content = [0; 512];
    for k in 0..128 {
        let number = first + k;
        let at = 4 * k as usize;
        (&mut content[at..at + 4]).copy_from_slice(&number.to_le_bytes());
    }
    content
}

// Sectors of the disk of version 3; with 64 inodes its inode table begins at 514, and its data at 530.
const THIRD_SECTORS: u32 = 2048;

// Inode 1, the root, whose block is sector 530: a directory of 256 bytes.
const THIRD_ROOT: &[u8] =
    b"\x02\0\xed\x01\0\0\0\0\0\0\0\0\x01\0\0\0\0\x01\0\0\0\0\0\0\x01\0\0\0\0\0\0\0\0\0\0\0\x12\x02\0\0";

// The image of version 3. Inode 2 is a file of 8,460,289 bytes, of which only the last is kept: its triple indirect sector is 531.
static THIRD: [Change; 15] = [
    (0, 0, b"INOS\x03\0\0\0\0\x08\0\0\x40\0\0\0\x01"),
    (1, 0, b"INOJ"),
    (512, 0, b"\x07\0\0\0\0\0\0\0"),
    (512, 8, &[0xff; 504]),
    (513, 0, &[0xff; 66]),
    (513, 66, b"\x7f"),
    (513, 256, &[0xff; 256]),
    (514, 128, THIRD_ROOT),
    (
        514,
        256,
        b"\x01\0\xa4\x01\0\0\0\0\0\0\0\0\x01\0\0\0\x01\x18\x81\0",
    ),
    (514, 348, b"\x13\x02\0\0"),
    // Inode 2 is `f`.
    (530, 0, b"\x02\0\0\0\x01\0\0\0f"),
    // Sectors of pointers of the third, the second and the first level, and block 16,524.
    (531, 0, b"\x14\x02\0\0"),
    (532, 0, b"\x15\x02\0\0"),
    (533, 0, b"\x16\x02\0\0"),
    (534, 0, b"c"),
];

// Which image.
#[derive(Clone, Copy)]
enum Version {
    Two,
    Three,
}

// What doesn't lie in the image is left.
fn change(image: &mut [[u8; 512]], s: usize, at: usize, bytes: &[u8]) {
    if s >= image.len() || at > 512 || bytes.len() > 512 - at {
        return;
    }
    (&mut image[s][at..at + bytes.len()]).copy_from_slice(bytes);
}

fn change_all(image: &mut [[u8; 512]], changes: &[Change]) {
    for &(s, at, bytes) in changes {
        change(image, s, at, bytes);
    }
}

fn write_image(image: &mut [[u8; 512]], version: Version) {
    match version {
        Version::Two => {
            change_all(image, &SECOND);
            write_numbers(image);
        }
        Version::Three => change_all(image, &THIRD),
    }
}

// The image with these changes, cut to so many sectors, or with zeros behind it.
fn changed_disk(
    alloc: Global,
    version: Version,
    sectors: u32,
    changes: &[Change],
) -> Result<MemDisk, AllocError> {
    let mut image = Vec::new(alloc);
    image.resize(sectors as usize, [0; 512])?;
    write_image(&mut image, version);
    change_all(&mut image, changes);
    MemDisk::from_sectors(alloc, image)
}

// What a check comes to, of a clean disk its free sectors; and why it isn't mounted.
type Seen = (Result<usize, CheckFault>, Option<MountFault>);

fn checked_and_mounted<D: Disk + Drop>(alloc: Global, mut disk: D) -> Seen {
    let checked = match check(alloc, &mut disk) {
        Ok(summary) => Ok(summary.blocks),
        Err(fault) => Err(fault),
    };
    (checked, mount_fault(alloc, disk))
}

fn seen_of(
    alloc: Global,
    version: Version,
    sectors: u32,
    changes: &[Change],
) -> Result<Seen, AllocError> {
    let disk = changed_disk(alloc, version, sectors, changes)?;
    Ok(checked_and_mounted(alloc, disk))
}

// How many sectors are free, or the finding: the rule, and where it fails.
type Wanted = Result<usize, (u8, u32)>;

fn wanted_of(wanted: Wanted) -> Seen {
    match wanted {
        Ok(free) => (Ok(free), None),
        Err((rule, at)) => {
            let finding = Finding { rule, at };
            let fault = match rule {
                1 => MountFault::NotAFileSystem,
                _ => MountFault::Damaged(finding),
            };
            (Err(CheckFault::Found(finding)), Some(fault))
        }
    }
}

// The last sector of pointers has holes alone, and the sectors of what stood there are free.
const LAST_NUMBERS: Change = (283, 0, &[0; 512]);

const LAST_BITS: Change = (133, 37, &[0; 16]);

// How many sectors there are, what is changed, and what is wanted. Inode 2 has its size at 272 of sector 137, the number of its
// indirect sector at 340, and that of its double indirect one at 344.
static NUMBERS: [(u32, &[Change], Wanted); 17] = [
    (SECTORS, &[], Ok(15_960)),
    // Rule 1: as many sectors as the superblock says, and such as have a layout.
    (32767, &[], Err((1, 0))),
    (32769, &[], Err((1, 0))),
    (1023, &[], Err((1, 0))),
    (1023, &[(0, 8, b"\xff\x03\0\0")], Err((1, 0))),
    // Rule 4: one byte more than the largest file has; version 1, whose files end at 71,680, and which has no double indirect
    // sector.
    (SECTORS, &[(137, 272, b"\x01\x18\x81\0")], Err((4, 2))),
    (SECTORS, &[(0, 4, b"\x01")], Err((4, 2))),
    (
        SECTORS,
        &[(0, 4, b"\x01"), (137, 272, b"\0\x18\x01\0")],
        Err((4, 2)),
    ),
    // No triple indirect sector either.
    (SECTORS, &[(137, 348, b"\xa8\x41\0\0")], Err((4, 2))),
    // Rule 5: the sector before the data, or the first past the end, in place of each kind of number.
    (SECTORS, &[(137, 336, b"\x98\0\0\0")], Err((5, 2))),
    (SECTORS, &[(137, 340, b"\x98\0\0\0")], Err((5, 2))),
    (SECTORS, &[(137, 344, b"\x98\0\0\0")], Err((5, 2))),
    (SECTORS, &[(137, 344, b"\0\x80\0\0")], Err((5, 2))),
    (SECTORS, &[(154, 0, b"\x98\0\0\0")], Err((5, 2))),
    (SECTORS, &[(154, 508, b"\0\x80\0\0")], Err((5, 2))),
    (SECTORS, &[(155, 508, b"\x98\0\0\0")], Err((5, 2))),
    (SECTORS, &[(283, 508, b"\x05\0\0\0")], Err((5, 2))),
];

// Rules 6 and 7.
static SHARED: [(u32, &[Change], Wanted); 11] = [
    // Rule 6: a sector of pointers that is a block too, or stands on both levels, or twice.
    (SECTORS, &[(155, 508, b"\x9b\0\0\0")], Err((6, 155))),
    (SECTORS, &[(283, 508, b"\x9a\0\0\0")], Err((6, 154))),
    (SECTORS, &[(137, 340, b"\x9a\0\0\0")], Err((6, 154))),
    (SECTORS, &[(154, 0, b"\x9b\0\0\0")], Err((6, 155))),
    (SECTORS, &[(154, 4, b"\x9c\0\0\0")], Err((6, 156))),
    // Rule 7: the bit of a sector of pointers is clear, or a number is gone with all that is found by it.
    (SECTORS, &[(129, 35, b"\xf7")], Err((7, 283))),
    (SECTORS, &[(137, 340, &[0; 4])], Err((7, 155))),
    (SECTORS, &[(137, 344, &[0; 4])], Err((7, 154))),
    (SECTORS, &[(154, 0, &[0; 4])], Err((7, 156))),
    (SECTORS, &[(155, 0, &[0; 4])], Err((7, 296))),
    (SECTORS, &[(283, 508, &[0; 4])], Err((7, 16_807))),
];

// Rule 8.
static ENDS: [(u32, &[Change], Wanted); 11] = [
    // Rule 8: past the size there is the last block, or all that version 1 hasn't, or each sector of pointers.
    (SECTORS, &[(137, 272, b"\0\x16\x81\0")], Err((8, 2))),
    (SECTORS, &[(137, 272, b"\0\x18\x01\0")], Err((8, 2))),
    (SECTORS, &[(137, 272, b"\0\x18\0\0")], Err((8, 2))),
    // One byte before the end of the last block, which is zero, or isn't.
    (SECTORS, &[(137, 272, b"\xff\x17\x81\0")], Ok(15_960)),
    (
        SECTORS,
        &[(137, 272, b"\xff\x17\x81\0"), (16_807, 511, b"\x01")],
        Err((8, 2)),
    ),
    // A sector of pointers to holes alone stays while the first of them isn't past the size.
    (SECTORS, &[LAST_NUMBERS, LAST_BITS], Ok(16_088)),
    (
        SECTORS,
        &[LAST_NUMBERS, LAST_BITS, (137, 272, b"\x01\x18\x80\0")],
        Ok(16_088),
    ),
    (
        SECTORS,
        &[LAST_NUMBERS, LAST_BITS, (137, 272, b"\0\x18\x80\0")],
        Err((8, 2)),
    ),
    (
        SECTORS,
        &[(155, 0, &[0; 512]), (129, 37, &[0; 16])],
        Ok(16_088),
    ),
    // A directory needs no sector of pointers to its one block: the root has an indirect, or a double indirect one.
    (
        SECTORS,
        &[(137, 212, b"\xa8\x41\0\0"), (133, 53, b"\x01")],
        Err((8, 1)),
    ),
    (
        SECTORS,
        &[(137, 216, b"\xa8\x41\0\0"), (133, 53, b"\x01")],
        Err((8, 1)),
    ),
];

// The bits of sectors 528 to 535 with that of sector 535 too, and without that of sector 534.
const MORE_BITS: Change = (513, 66, b"\xff");

const FEWER_BITS: Change = (513, 66, b"\x3f");

// What is changed of the image of version 3, and what is wanted. Inode 2 has its size at 272 of sector 514, and the number of its triple
// indirect sector at 348.
static THIRD_NUMBERS: [(&[Change], Wanted); 11] = [
    (&[], Ok(1513)),
    // Rule 4: the largest file, and one byte more.
    (&[(514, 272, b"\0\x18\x81\x40")], Ok(1513)),
    (&[(514, 272, b"\x01\x18\x81\x40")], Err((4, 2))),
    // Rule 5: the sector before the data, or the first past the end, in place of a number of each level.
    (&[(514, 348, b"\x11\x02\0\0")], Err((5, 2))),
    (&[(514, 348, b"\0\x08\0\0")], Err((5, 2))),
    (&[(531, 0, b"\x11\x02\0\0")], Err((5, 2))),
    (&[(531, 508, b"\0\x08\0\0")], Err((5, 2))),
    (&[(532, 0, b"\x11\x02\0\0")], Err((5, 2))),
    (&[(532, 508, b"\0\x08\0\0")], Err((5, 2))),
    (&[(533, 0, b"\x11\x02\0\0")], Err((5, 2))),
    (&[(533, 508, b"\0\x08\0\0")], Err((5, 2))),
];

// Inode 3 as inode 2 of this image is, but for the number of its triple indirect sector, with its bit.
const MORE_FILE: Change = (
    514,
    384,
    b"\x01\0\xa4\x01\0\0\0\0\0\0\0\0\x01\0\0\0\x01\x18\x81\0",
);

const MORE_INODES: Change = (512, 0, b"\x0f");

// What inodes share, or a sector of pointers has of itself. Inode 3 has the number of its double indirect sector at 472 of sector 514, and
// that of its triple indirect one at 476.
static THIRD_TWICE: [(&[Change], Wanted); 7] = [
    // A sector of pointers that names itself: it is of each level, and what it named before isn't owned.
    (&[(531, 0, b"\x13\x02\0\0\x13\x02\0\0")], Err((6, 531))),
    // Two inodes have one triple indirect sector: what is found by it is owned twice too.
    (
        &[MORE_FILE, MORE_INODES, (514, 476, b"\x13\x02\0\0")],
        Err((6, 531)),
    ),
    // The same, from sector 534 down to block 531: the least of them is found last.
    (
        &[
            MORE_FILE,
            MORE_INODES,
            (514, 348, b"\x16\x02\0\0"),
            (514, 476, b"\x16\x02\0\0"),
            (534, 0, b"\x15\x02\0\0"),
            (533, 0, b"\x14\x02\0\0"),
            (532, 0, b"\x13\x02\0\0"),
        ],
        Err((6, 531)),
    ),
    // The same, but inode 3 has only the sector of pointers of the second level, sector 533.
    (
        &[
            MORE_FILE,
            MORE_INODES,
            (514, 348, b"\x16\x02\0\0"),
            (514, 472, b"\x15\x02\0\0"),
            (534, 0, b"\x15\x02\0\0"),
            (533, 0, b"\x14\x02\0\0"),
            (532, 0, b"\x13\x02\0\0"),
        ],
        Err((6, 531)),
    ),
    // A number found by the shared sector is outside the data area: of the first inode. One that only inode 3 finds, as it has the sector
    // on another level: of inode 3, where block 534 is a sector of pointers and begins with number 99.
    (
        &[
            MORE_FILE,
            MORE_INODES,
            (514, 476, b"\x13\x02\0\0"),
            (533, 508, b"\0\x08\0\0"),
        ],
        Err((5, 2)),
    ),
    (
        &[MORE_FILE, MORE_INODES, (514, 472, b"\x15\x02\0\0")],
        Err((5, 3)),
    ),
    // A sector of pointers to holes alone, of two inodes.
    (
        &[
            MORE_FILE,
            MORE_INODES,
            (514, 476, b"\x13\x02\0\0"),
            (531, 0, &[0; 512]),
        ],
        Err((6, 531)),
    ),
];

// Rules 6 and 7.
static THIRD_SHARED: [(&[Change], Wanted); 9] = [
    // Rule 6: a sector of pointers of the third level on the second too, one of the first twice, or on two ways, and one that is a block.
    (&[(531, 4, b"\x13\x02\0\0")], Err((6, 531))),
    (&[(532, 4, b"\x15\x02\0\0")], Err((6, 533))),
    (&[(514, 340, b"\x15\x02\0\0")], Err((6, 533))),
    (&[(533, 4, b"\x14\x02\0\0")], Err((6, 532))),
    // Rule 7: the bit of a sector of pointers is clear, or a number is gone with all that is found by it.
    (&[(513, 66, b"\x77")], Err((7, 531))),
    (&[(514, 348, &[0; 4])], Err((7, 531))),
    (&[(531, 0, &[0; 4])], Err((7, 532))),
    (&[(532, 0, &[0; 4])], Err((7, 533))),
    (&[(533, 0, &[0; 4])], Err((7, 534))),
];

// Rule 8.
static THIRD_ENDS: [(&[Change], Wanted); 13] = [
    // Rule 8: the first block of the third level is past the size, or its bytes behind the size are no zeros.
    (&[(514, 272, b"\0\x18\x81\0")], Err((8, 2))),
    (&[(534, 1, b"\x01")], Err((8, 2))),
    // Past the size there is one more sector of pointers of the second level, or of the first, or a block; each begins where the size ends,
    // or there is one byte more.
    (
        &[
            (531, 4, b"\x17\x02\0\0"),
            MORE_BITS,
            (514, 272, b"\0\x18\x01\x01"),
        ],
        Err((8, 2)),
    ),
    (
        &[
            (531, 4, b"\x17\x02\0\0"),
            MORE_BITS,
            (514, 272, b"\x01\x18\x01\x01"),
        ],
        Ok(1512),
    ),
    (
        &[
            (532, 4, b"\x17\x02\0\0"),
            MORE_BITS,
            (514, 272, b"\0\x18\x82\0"),
        ],
        Err((8, 2)),
    ),
    (
        &[
            (532, 4, b"\x17\x02\0\0"),
            MORE_BITS,
            (514, 272, b"\x01\x18\x82\0"),
        ],
        Ok(1512),
    ),
    (
        &[
            (533, 4, b"\x17\x02\0\0"),
            MORE_BITS,
            (514, 272, b"\0\x1a\x81\0"),
        ],
        Err((8, 2)),
    ),
    (
        &[
            (533, 4, b"\x17\x02\0\0"),
            MORE_BITS,
            (514, 272, b"\x01\x1a\x81\0"),
        ],
        Ok(1512),
    ),
    // Far behind the size: the last number of each level.
    (&[(531, 508, b"\x17\x02\0\0"), MORE_BITS], Err((8, 2))),
    (&[(532, 508, b"\x17\x02\0\0"), MORE_BITS], Err((8, 2))),
    (&[(533, 508, b"\x17\x02\0\0"), MORE_BITS], Err((8, 2))),
    // A hole: the sector of pointers to holes alone stays.
    (&[(533, 0, &[0; 4]), FEWER_BITS], Ok(1514)),
    // A directory needs no triple indirect sector.
    (&[(514, 220, b"\x17\x02\0\0"), MORE_BITS], Err((8, 1))),
];

#[test]
fn a_check_finds_damage_on_both_levels(rt: HostRuntime) -> Result<(), AllocError> {
    for rows in [NUMBERS.as_slice(), SHARED.as_slice(), ENDS.as_slice()] {
        for (i, &(sectors, changes, wanted)) in rows.iter().enumerate() {
            let seen = seen_of(rt.alloc(), Version::Two, sectors, changes)?;
            assert!(rt; seen == wanted_of(wanted), "{i}: {seen:?}");
        }
    }
    Ok(())
}

#[test]
fn a_check_finds_damage_on_three_levels(rt: HostRuntime) -> Result<(), AllocError> {
    for rows in [
        THIRD_NUMBERS.as_slice(),
        THIRD_TWICE.as_slice(),
        THIRD_SHARED.as_slice(),
        THIRD_ENDS.as_slice(),
    ] {
        for (i, &(changes, wanted)) in rows.iter().enumerate() {
            let seen = seen_of(rt.alloc(), Version::Three, THIRD_SECTORS, changes)?;
            assert!(rt; seen == wanted_of(wanted), "{i}: {seen:?}");
        }
    }
    Ok(())
}

// All inodes but the root are the file, whose triple indirect sector names itself 128 times.
fn write_one_for_all(image: &mut [[u8; 512]]) {
    write_image(image, Version::Three);
    change(image, 512, 0, &[0xff; 8]);
    for ino in 2..64 {
        let (s, at) = (514 + ino / 4, 128 * (ino % 4));
        change(
            image,
            s,
            at,
            b"\x01\0\xa4\x01\0\0\0\0\0\0\0\0\x01\0\0\0\x01\x18\x81\0",
        );
        change(image, s, at + 92, b"\x13\x02\0\0");
    }
    for k in 0..128 {
        change(image, 531, 4 * k, b"\x13\x02\0\0");
    }
}

fn seen_of_one_for_all(alloc: Global) -> Result<Seen, AllocError> {
    let mut image = Vec::new(alloc);
    image.resize(THIRD_SECTORS as usize, [0; 512])?;
    write_one_for_all(&mut image);
    Ok(checked_and_mounted(alloc, MemDisk::from_sectors(alloc, image)?))
}

#[test]
fn a_check_ends_where_a_sector_names_itself(rt: HostRuntime) -> Result<(), AllocError> {
    let seen = seen_of_one_for_all(rt.alloc())?;
    assert!(rt; seen == wanted_of(Err((6, 531))), "{seen:?}");
    Ok(())
}
