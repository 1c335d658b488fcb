//! Where the parts of an image stand, for its version and its numbers.

use fs_layout::{Geometry, Super, Version, geometry_of};

// Where the parts of a disk begin: the bitmaps, the inode table and the data.
type Starts = (u32, u32, u32, u32);

// How many header sectors a new disk of a version has, of so many sectors and inodes, its starts, and how many data sectors it has.
type NewDisk = Option<(u32, Starts, u32)>;

static NEW_DISKS: [(Version, u32, u32, NewDisk); 29] = [
    (Version::Two, 1024, 64, Some((0, (128, 129, 130, 146), 878))),
    (
        Version::Two,
        4096,
        16,
        Some((0, (128, 129, 130, 134), 3962)),
    ),
    (
        Version::Two,
        4097,
        17,
        Some((0, (128, 129, 131, 136), 3961)),
    ),
    (
        Version::One,
        65536,
        4096,
        Some((0, (128, 129, 145, 1169), 64367)),
    ),
    (
        Version::Two,
        65536,
        4096,
        Some((0, (128, 129, 145, 1169), 64367)),
    ),
    (Version::Two, 1023, 64, None),
    (Version::One, 65537, 64, None),
    (Version::Two, 65537, 64, None),
    (Version::Two, 1024, 15, None),
    (Version::One, 65536, 4097, None),
    (Version::Two, 65536, 4097, None),
    (Version::Two, 1024, 4096, None),
    (
        Version::Three,
        2048,
        64,
        Some((1, (512, 513, 514, 530), 1518)),
    ),
    (
        Version::Three,
        65535,
        4096,
        Some((1, (512, 513, 529, 1553), 63982)),
    ),
    (
        Version::Three,
        65536,
        4096,
        Some((2, (770, 771, 787, 1811), 63725)),
    ),
    (
        Version::Three,
        131072,
        8192,
        Some((4, (1286, 1288, 1320, 3368), 127704)),
    ),
    (
        Version::Three,
        262144,
        16384,
        Some((8, (2318, 2322, 2386, 6482), 255662)),
    ),
    (
        Version::Three,
        2097152,
        65536,
        Some((31, (8252, 8268, 8780, 25164), 2071988)),
    ),
    (
        Version::Three,
        16777216,
        1048576,
        Some((34, (9026, 9282, 13378, 275522), 16501694)),
    ),
    (
        Version::Three,
        1024,
        16,
        Some((1, (512, 513, 514, 518), 506)),
    ),
    (
        Version::Three,
        1024,
        1784,
        Some((1, (512, 513, 514, 960), 64)),
    ),
    (Version::Three, 1024, 1785, None),
    (Version::Three, 1023, 64, None),
    (Version::Three, 16777217, 64, None),
    (Version::Three, 1024, 15, None),
    (Version::Three, 16777216, 1048577, None),
    (Version::Three, 0, 0, None),
    (Version::Two, 0, 0, None),
    (Version::Three, u32::MAX, u32::MAX, None),
];

// The starts of a disk of each version, with so many header sectors.
static PLACES: [(Version, u32, u32, u32, Option<Starts>); 16] = [
    (Version::One, 0, 4097, 17, Some((128, 129, 131, 136))),
    (Version::One, 1, 4097, 17, None),
    (Version::One, 0, 65537, 17, None),
    (Version::Two, 0, 4097, 17, Some((128, 129, 131, 136))),
    (Version::Two, 1, 4097, 17, None),
    (Version::Two, 0, 4097, 4097, None),
    (Version::Three, 1, 1024, 64, Some((512, 513, 514, 530))),
    (Version::Three, 1, 65536, 4096, Some((512, 513, 529, 1553))),
    (Version::Three, 1, 589824, 4096, Some((512, 513, 657, 1681))),
    (Version::Three, 1, 585728, 4097, Some((512, 514, 657, 1682))),
    (
        Version::Three,
        63,
        65536,
        4096,
        Some((16508, 16509, 16525, 17549)),
    ),
    (Version::Three, 0, 65536, 4096, None),
    (Version::Three, 64, 65536, 4096, None),
    (Version::Three, u32::MAX, 65536, 4096, None),
    (Version::Three, 1, 589825, 4096, None),
    (Version::Three, 1, 585728, 8193, None),
];

fn starts_of(geometry: Geometry) -> Starts {
    (
        geometry.inode_bitmap,
        geometry.block_bitmap,
        geometry.table,
        geometry.first_data,
    )
}

fn new_disk(version: Version, sectors: u32, inodes: u32) -> NewDisk {
    let geometry = geometry_of(version, sectors, inodes)?;
    Some((
        geometry.header,
        starts_of(geometry),
        geometry.sectors.saturating_sub(geometry.first_data),
    ))
}

fn starts_with(version: Version, header: u32, sectors: u32, inodes: u32) -> Option<Starts> {
    let superblock = Super {
        version,
        sectors,
        inodes,
        header,
    };
    Some(starts_of(superblock.geometry()?))
}

// The first new disk that has another geometry.
fn other_disk() -> Option<usize> {
    for i in 0..NEW_DISKS.len() {
        let row = NEW_DISKS[i];
        if new_disk(row.0, row.1, row.2) != row.3 {
            return Some(i);
        }
    }
    None
}

// The first disk that has other starts.
fn other_starts() -> Option<usize> {
    for i in 0..PLACES.len() {
        let row = PLACES[i];
        if starts_with(row.0, row.1, row.2, row.3) != row.4 {
            return Some(i);
        }
    }
    None
}

#[test]
fn geometries_are_as_the_format_says(rt: HostRuntime) {
    let wrong = (other_disk(), other_starts());
    assert!(rt; wrong == (None, None), "{wrong:?}");
}
