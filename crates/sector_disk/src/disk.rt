//! A disk as the layers above see it: an array of sectors that may be stopped at any moment, as by a power cut.
//! A stop leaves in each sector what was there at the last sync that succeeded, or any content written since.

ghost use Rattle.std.specs.Prelude.{◌≡◌, ◌≤◌, ◌<◌, ◌^◌, ◌-◌, ◌↔◌, ℕ, List, Option, Some, None, IsErr, IsTrue, IfSome, OnOk, OnErr, slice_set};
ghost use Rattle.sector_disk.specs.Record.{Held, MayHold};
ghost use Rattle.sector_disk.specs.Picks.{IsPicked};
ghost use Rattle.sector_disk.specs.Disk.{DiskState, Image, IsImage, IsSame, ForgetsPast, IsWritten, ChangesOnly, IsStable, IsNarrowed, Elapses, HasCause, HasWriteCause, IsWholeSector, EndsInZeros, sector, AddsOnly, IsImageOr, IsWrite, LeavesOnly};

/// A read, a write or a sync failed, and the disk has counted it.
#[derive(Clone, Copy, Debug, PartialEq, Eq)]
pub struct DiskFault;

/// A disk of 512-byte sectors, numbered from 0.
///
/// A sector number below [`size`](Disk::size) is the caller's condition. A sync is honest: what it made stable is
/// there after any stop.
pub trait Disk {
    /// What reads give, what a stop may leave now, and what a stop might have left since an earlier moment.
    ghost state: { Self → DiskState };

    /// The number of sectors.
    fn size(&self) -> u32
        ensures { result ≡ (state self.now).size };

    /// How often a call has failed. At `u64::MAX` the count stays, and each call fails.
    fn failures(&self) -> u64
        ensures { result ≡ (state self.now).failures };

    /// Reads a sector. At `Err` nothing is said of the buffer.
    fn read(&mut self, n: u32, to: &mut [u8; 512]) -> Result<(), DiskFault>
        requires { n < (state self.old).size }
        ensures content { OnOk result (to.new ≡ sector (state self.old).seen n) }
        ensures same { IsSame (state self.old) (state self.new) }
        ensures time { Elapses (state self.old) (state self.new) }
        ensures cause { HasCause (state self.old) (state self.new) result }
        ensures quiet { (state self.new).failed_writes ≡ (state self.old).failed_writes }
        ensures worn { (state self.old).failures ≡ 2 ^ 64 - 1 → IsErr result };

    /// What a read of a sector gives, where that stands in memory. A disk needn't find any: what it doesn't find is to be read.
    fn find(&self, _n: u32) -> Option<&[u8; 512]>
        requires { _n < (state self.now).size }
        ensures { IfSome result (λ content. content.now ≡ sector (state self.now).seen _n) }
    {
        None
    }

    /// Whether it is known, without a read, that the bytes of a sector are zeros from number `first` on. A disk needn't know it of any.
    fn ends_in_zeros(&self, _n: u32, _first: usize) -> bool
        requires { _n < (state self.now).size }
        ensures { IsTrue result → EndsInZeros _first (sector (state self.now).seen _n) }
    {
        false
    }

    /// Writes a sector. Until a sync succeeds, a stop may leave the new content or one from before it.
    fn write(&mut self, n: u32, from: &[u8; 512]) -> Result<(), DiskFault>
        requires { n < (state self.old).size }
        ensures written { OnOk result (IsWritten (state self.old) (state self.new) n from.now) }
        ensures changes { ChangesOnly (state self.old) (state self.new) n from.now }
        ensures time { Elapses (state self.old) (state self.new) }
        ensures cause { HasCause (state self.old) (state self.new) result }
        ensures told { HasWriteCause (state self.old) (state self.new) result }
        ensures worn { (state self.old).failures ≡ 2 ^ 64 - 1 → IsErr result };

    /// Makes stable what was written. A sync that fails makes nothing stable.
    fn sync(&mut self) -> Result<(), DiskFault>
        ensures stable { OnOk result (IsStable (state self.new)) }
        ensures changes { IsNarrowed (state self.old) (state self.new) }
        ensures failed { OnErr result (IsSame (state self.old) (state self.new)) }
        ensures time { Elapses (state self.old) (state self.new) }
        ensures cause { HasCause (state self.old) (state self.new) result }
        ensures told { HasWriteCause (state self.old) (state self.new) result }
        ensures worn { (state self.old).failures ≡ 2 ^ 64 - 1 → IsErr result };

    /// Lets the past go: of the moments before this one nothing is said any more. A disk that keeps a record of them lets go of
    /// its memory.
    fn forget(&mut self)
        ensures { ForgetsPast (state self.old) (state self.new) };

    /// The number of sectors is a `u32`.
    ghost size_fits: { (disk : Self) → (state disk).size < 2 ^ 32 };

    /// The count of failures is a `u64`.
    ghost failures_fit: { (disk : Self) → (state disk).failures < 2 ^ 64 };

    /// A sector has 512 bytes, whatever a stop leaves there.
    ghost whole_sectors: { (disk : Self) (n : ℕ) (content : List ℕ) → n < (state disk).size → (state disk).may_hold n content
        → IsWholeSector content };

    /// What reads give is one of the images that a stop may leave.
    ghost seen_is_image: { (disk : Self) → IsImage (state disk) (state disk).seen };

    /// The present moment is one of those since an earlier one.
    ghost counts_now: { (disk : Self) (t : ℕ) (image : Image) → t ≤ (state disk).moment → IsImage (state disk) image → (state disk).left_since t image };

    /// Since this moment there is no other.
    ghost only_now: { (disk : Self) (image : Image) → (state disk).left_since (state disk).moment image → IsImage (state disk) image };
}

/// Writes a sector and syncs. A stop before the end leaves the new content or one from before it.
pub fn write_synced<D: Disk>(disk: &mut D, n: u32, content: &[u8; 512]) -> Result<(), DiskFault>
    requires { n < (D.state disk.old).size }
    ensures written { OnOk result ((D.state disk.new).seen ≡ slice_set (D.state disk.old).seen n content.now) }
    ensures stable { OnOk result (IsStable (D.state disk.new)) }
    ensures adds { AddsOnly (IsWrite n content.now) (D.state disk.old) (D.state disk.new) }
    ensures any_moment { LeavesOnly (D.state disk.old) (D.state disk.new) (IsImageOr (IsWrite n content.now) (D.state disk.old)) }
    ensures cause { HasCause (D.state disk.old) (D.state disk.new) result }
    ensures told { HasWriteCause (D.state disk.old) (D.state disk.new) result }
{
    disk.write(n, content)?;
    disk.sync()
}

/// A disk that can be made to fail and to stop, as tests do.
pub trait CrashDisk: Disk {
    /// How many writes and syncs pass before all fail; `None` where all pass.
    ghost armed: { Self → Option ℕ };

    /// What a stop picks from: what was there at the last sync, and the writes since, in their order.
    ghost held: { Self → Held };

    /// Lets this many writes and syncs pass, and fails all later ones. Reads go on.
    fn arm(&mut self, passes: u64)
        ensures armed { armed self.new ≡ Some passes }
        ensures held { held self.new ≡ held self.old }
        ensures same { IsSame (Self.state self.old) (Self.state self.new) }
        ensures time { Elapses (Self.state self.old) (Self.state self.new) }
        ensures failures { (Self.state self.new).failures ≡ (Self.state self.old).failures }
        ensures failed_writes { (Self.state self.new).failed_writes ≡ (Self.state self.old).failed_writes };

    /// Stops the disk and starts it again, disarmed: over the sectors with contents that were not synced, in
    /// rising order, the next byte of `choice` (0 past its end) modulo the number of contents picks one, the synced
    /// content first and then those written since in their order. Nothing is said of the moments before it.
    fn crash(&mut self, choice: &[u8])
        ensures armed { armed self.new ≡ None }
        ensures picked { IsPicked (held self.old) choice.now (Self.state self.new).seen }
        ensures image { IsImage (Self.state self.old) (Self.state self.new).seen }
        ensures stable { IsStable (Self.state self.new) }
        ensures size { (Self.state self.new).size ≡ (Self.state self.old).size }
        ensures failures { (Self.state self.new).failures ≡ (Self.state self.old).failures }
        ensures failed_writes { (Self.state self.new).failed_writes ≡ (Self.state self.old).failed_writes };

    /// Of each sector a stop picks from the contents that it may leave there.
    ghost held_is: { (disk : Self) (n : ℕ) (content : List ℕ) → (Self.Disk.state disk).may_hold n content ↔ MayHold (held disk) n content };
}
