//! What the bitmaps and the inode table of a new disk hold, sector by sector.

ghost use Rattle.std.specs.Prelude.{◌≡◌, ◌≤◌, ◌<◌, ◌+◌, ◌^◌, ℕ, nat_eq};
ghost use Rattle.std.specs.Int.{bit_at};
ghost use Rattle.fs_layout.specs.declared.geometry.TheConstants.{SECTOR_BITS};
ghost use Rattle.fs_layout.specs.Geometry.{IsGeometry};
ghost use Rattle.fs_images.specs.NewTables.{IsBitmap, IsNewTable, is_outside, root_table};

use fs_layout::{Geometry, Inode, Kind, POINTER_LEVELS, ROOT, SECTOR_BITS};

/// What sector `n` of the bitmaps and the inode table holds on a new disk.
#[tactic(auto, unfolding(fs_layout::specs::Bytes::zeros))]
pub(crate) fn table_sector(geometry: Geometry, n: u32) -> [u8; 512]
    requires geometry { IsGeometry geometry }
    requires from { geometry.inode_bitmap ≤ n }
    ensures { IsNewTable geometry n result }
{
    if n < geometry.block_bitmap {
        // Inode 0 isn't used, and inode 1 is the root.
        bitmap_sector(
            (n - geometry.inode_bitmap) * SECTOR_BITS,
            ROOT + 1,
            geometry.inodes,
        )
    } else if n < geometry.table {
        bitmap_sector(
            (n - geometry.block_bitmap) * SECTOR_BITS,
            geometry.first_data,
            geometry.sectors,
        )
    } else if n == geometry.table {
        root_sector()
    } else {
        [0; 512]
    }
}

// A sector of a bitmap, whose first bit is that of the number `first`. The bits of numbers below `low` and from `high`
// on are set.
fn bitmap_sector(first: u32, low: u32, high: u32) -> [u8; 512]
    requires { first + SECTOR_BITS < 2 ^ 32 }
    ensures { IsBitmap first low high result }
{
    let mut content = [0; 512];
    for i in 0..512 {
        content[i] = bitmap_byte(first + 8 * i as u32, low, high);
    }
    content
}

// A byte of such a bitmap.
fn bitmap_byte(first: u32, low: u32, high: u32) -> u8
    requires { first + 8 < 2 ^ 32 }
    ensures { (k : ℕ) → k < 8 → nat_eq (bit_at result k) 1 ≡ is_outside low high (first + k) }
{
    let mut byte = 0;
    for k in 0..8 {
        let n = first + k;
        if n < low || high <= n {
            byte |= 1 << k;
        }
    }
    byte
}

// The first sector of the inode table: an empty root of user 0, 0755, and three free inodes.
fn root_sector() -> [u8; 512]
    ensures { result ≡ root_table }
{
    let root = Inode {
        kind: Kind::Directory,
        mode: 0o755,
        uid: 0,
        gid: 0,
        names: 1,
        size: 0,
        parent: ROOT,
        acl: 0,
        default_acl: 0,
        direct: [0; 12],
        indirect: [0; POINTER_LEVELS],
        mtime: 0,
        ctime: 0,
        atime: 0,
    };
    let mut content = [0; 512];
    root.write_to(&mut content, 128);
    content
}
