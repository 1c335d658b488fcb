//! Laws of what calls on inodes share, each proved by a function that does nothing: its contract is the law.

ghost use Rattle.bit_alloc.specs.Laws.{StaysSound, CallsJoin, BeginsSound, LeavesSpare, BeginsWithSpare, KeepsFree};

use sector_txn::Sectors;

/// A call on one inode leaves a sound map sound: consistent, with whole tables, and with the bits set that are no
/// number's.
pub fn soundness_is_kept<S: Sectors>()
    ensures { StaysSound S.state }
{}

/// Two calls on one inode, one after the other, touch it as one call does.
pub fn calls_join<S: Sectors>()
    ensures { CallsJoin S.state }
{}

/// A consistent map is sound where the bits of inode 0 and of those past the last inode are set.
pub fn consistent_maps_are_sound<S: Sectors>()
    ensures { BeginsSound S.state }
{}

/// A call that puts so many sectors besides those of the bitmaps leaves the rest of the room.
pub fn spare_is_left<S: Sectors>()
    ensures { LeavesSpare S.state }
{}

/// A transaction that has put nothing has room for all bitmaps and 47 sectors more.
pub fn spare_at_first<S: Sectors>()
    ensures { BeginsWithSpare S.state }
{}

/// Where the bit of an inode is written, as many sectors are free as before.
pub fn inodes_take_no_sector()
    ensures { KeepsFree }
{}
