//! Reading.

ghost use Rattle.std.specs.Prelude.{◌≡◌, ◌≤◌, ℕ, List, length, IfOk};
ghost use Rattle.fs_layout.specs.Images.{Holds};
ghost use Rattle.sector_txn.specs.Sectors.{IsUnchanged};
ghost use Rattle.sector_disk.specs.Disk.{HasCause};
ghost use Rattle.block_map.specs.Blocks.{IsWithin, IsReadOf};

use crate::blocks::{BLOCK, Blocks, read_block};
use fs_layout::Inode;
use sector_disk::DiskFault;
use sector_txn::Sectors;

/// Reads what an inode holds from `offset` on: as many bytes as `to` has and as are left, whose number it answers.
///
/// The rest of `to` stays. At `Err` nothing is said of it.
pub fn read_at<S: Sectors>(
    s: &mut S,
    inode: &Inode,
    offset: u64,
    to: &mut [u8],
) -> Result<usize, DiskFault>
    requires within { IsWithin (S.state s.old).header (S.state s.old).disk.size (S.state s.old).sectors inode.now }
    ensures bytes { IfOk result (λ count. (bytes : List ℕ) → Holds (S.state s.old).sectors inode.now bytes
        → IsReadOf bytes offset to.old to.new count) }
    ensures few { IfOk result (λ count. count ≤ length to.old) }
    ensures same { IsUnchanged (S.state s.old) (S.state s.new) }
    ensures cause { HasCause (S.state s.old).disk (S.state s.new).disk result }
{
    let count = to.len().min(inode.size.saturating_sub(offset) as usize);
    let mut blocks = Blocks::new(inode);
    let mut done = 0;
    while done < count {
        let next = offset + done as u64;
        let at = (next % BLOCK as u64) as usize;
        let len = (BLOCK - at).min(count - done);
        blocks.load(s, next / BLOCK as u64)?;
        let number = blocks.number(next / BLOCK as u64);
        read_block(s, number, at, &mut to[done..done + len])?;
        done += len;
    }
    Ok(count)
}
