//! Laws of the layout, each proved by a function that does nothing: its contract is the law.

ghost use Rattle.fs_layout.specs.Bytes.{le16, le32, le64, u16_of, u32_of, u64_of};
ghost use Rattle.fs_layout.specs.AclSector.{FitsAclSector, acl_sector_bytes, acl_sector_of};
ghost use Rattle.fs_layout.specs.Commit.{FitsCommit, commit_bytes, commit_of};
ghost use Rattle.fs_layout.specs.Directories.{FitsSlot, slot_bytes, slot_of};
ghost use Rattle.fs_layout.specs.Inode.{FitsInode, FitsOlderInode, inode_bytes, inode_of, older_inode_of};
ghost use Rattle.fs_layout.specs.Superblock.{FitsSuper, super_bytes, super_of};
ghost use Rattle.fs_layout.specs.Version.{slot_size};
ghost use Rattle.fs_layout.specs.declared.inode.TheConstants.{INODE_SIZE};
ghost use Rattle.std.specs.Prelude.{ℕ};
ghost use Rattle.std.specs.Ordering.{nat_cmp};
ghost use Rattle.fs_layout.specs.Maps.{name_cmp};
ghost use Rattle.fs_layout.specs.declared.version.Version.{Version};
ghost use Rattle.fs_layout.specs.Laws.{AreNumbersAsBytes, AreReadAgain, NewHeadersAreAllowed, RecoversEach, OneInodeChanges, SavingEnds, RestsOnUsed, SomeConsistent, HaveEntries, SlotsHoldNames, SlotsHaveNames, OneMapOfNames, NamesAreRead, NamesStay, AclsHaveSectors, HoldsOneAcl, ModeTellsTheRest};

/// A number of 16 bits that is read from bytes is written as these bytes, and one that is written is read again.
pub fn numbers_of_16_bits()
    ensures { AreNumbersAsBytes 2 le16 u16_of }
{}

/// A number of 32 bits that is read from bytes is written as these bytes, and one that is written is read again.
pub fn numbers_of_32_bits()
    ensures { AreNumbersAsBytes 4 le32 u32_of }
{}

/// A number of 64 bits that is read from bytes is written as these bytes, and one that is written is read again.
pub fn numbers_of_64_bits()
    ensures { AreNumbersAsBytes 8 le64 u64_of }
{}

/// What is written is read: each value that fits its fields is read again from the bytes that it is written as, wherever they stand.
/// An inode that fits versions 1 and 2, and so has no times, is read as one of theirs too.
pub fn what_is_written_is_read()
    ensures superblock { AreReadAgain 512 FitsSuper super_bytes super_of }
    ensures commit { AreReadAgain 512 FitsCommit commit_bytes commit_of }
    ensures inode { AreReadAgain INODE_SIZE FitsInode inode_bytes inode_of }
    ensures older_inode { AreReadAgain INODE_SIZE FitsOlderInode inode_bytes older_inode_of }
    ensures slot { (version : Version) → AreReadAgain (slot_size version) (FitsSlot version) (slot_bytes version) (slot_of version) }
    ensures acl_sector { AreReadAgain 512 FitsAclSector acl_sector_bytes acl_sector_of }
{}

/// With as many header sectors as [`crate::geometry_of`] gives a disk, a call that puts each sector of the bitmaps has room for 47 more:
/// so the layout of a new disk is refused for its numbers' ranges and for too few data sectors alone.
pub fn new_headers_are_allowed()
    ensures { NewHeadersAreAllowed }
{}

/// In a recovered image the targets of a sealed commit have the contents of their log sectors, and each other sector
/// its own; an image whose commit sector is idle or not valid is recovered.
pub fn recovery()
    ensures { RecoversEach }
{}

/// In a consistent image one inode may change with what it owns: the image stays consistent, and each other inode is the
/// same with all that it owns.
pub fn one_inode_changes()
    ensures { OneInodeChanges }
{}

/// The blocks of an inode change, and the inode is saved: then one inode has changed, and it is the one that was saved.
pub fn saving_ends()
    ensures { SavingEnds }
{}

/// Whether an image is consistent rests on its tables and on the data sectors that are used: log, free sectors and what
/// lies past the end may hold anything.
pub fn consistency_rests_on_used_sectors()
    ensures { RestsOnUsed }
{}

/// The definition of a consistent image can be met.
pub fn some_image_is_consistent()
    ensures { SomeConsistent }
{}

/// A finite map with an entry set has that one and else what it had; with one removed it has none there and else what it
/// had. Two maps that have the same at each key are one.
pub fn maps_have_entries()
    ensures names { HaveEntries ℕ name_cmp }
    ensures numbers { HaveEntries ℕ nat_cmp }
{}

/// In each version a slot has the same bytes whatever name it has ([`crate::Version::slot_size`]), and the slots of as many names
/// as a directory may have are at most [`crate::Version::max_directory_size`] bytes.
pub fn names_fit_their_slots()
    ensures { (version : Version) → SlotsHoldNames version }
{}

/// Slots without a name that stands twice are a map of names with an entry for each slot. A directory has one such map,
/// its slots say it one by one, and it stays where the directory's sectors stay.
pub fn slots_say_the_names()
    ensures slots { SlotsHaveNames }
    ensures one { OneMapOfNames }
    ensures read { NamesAreRead }
    ensures stay { NamesStay }
{}

/// Each ACL has a sector's content of its own, and is read from it. So a sector holds one ACL, and the access ACL of an
/// inode is told by its sector and the mode bits.
pub fn sectors_say_the_acls()
    ensures content { AclsHaveSectors }
    ensures one { HoldsOneAcl }
    ensures access { ModeTellsTheRest }
{}
