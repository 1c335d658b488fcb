//! The sectors that a call reads and changes.

ghost use Rattle.std.specs.Prelude.{◌≡◌, ◌≤◌, ◌<◌, ℕ, false, IfOk, OnOk};
ghost use Rattle.std.specs.Fn.{FnOnceReturnsAt};
ghost use Rattle.fs_layout.specs.Header.{log_end};
ghost use Rattle.redo_journal.specs.Meaning.{IsMapped};
ghost use Rattle.sector_disk.specs.Disk.{HasCause};
ghost use Rattle.sector_txn.specs.Sectors.{TxnState, IsUnchanged, IsPut};

use sector_disk::DiskFault;

/// A map of sectors, and the changes of one call to it.
///
/// The map has sector 0 and those behind the journal, which lies between them. A call that is refused leaves its
/// changes behind, and its caller drops them all.
pub trait Sectors {
    /// The map, what it was before, which sectors were put, and the disk below.
    ghost state: { Self → TxnState };

    /// Reads a sector, as the last `put` left it. At `Err` nothing is said of the buffer.
    fn get(&mut self, n: u32, to: &mut [u8; 512]) -> Result<(), DiskFault>
        requires part { IsMapped (state self.old).header n }
        requires on_disk { n < (state self.old).disk.size }
        ensures content { OnOk result (to.new ≡ (state self.old).sectors n) }
        ensures same { IsUnchanged (state self.old) (state self.new) }
        ensures cause { HasCause (state self.old).disk (state self.new).disk result };

    /// Reads a sector where it stands: what `read` makes of its content, as the last `put` left it.
    fn read_with<T, F: FnOnce(&[u8; 512]) -> T + Drop>(
        &mut self,
        n: u32,
        read: F,
    ) -> Result<T, DiskFault>
        requires part { IsMapped (state self.old).header n }
        requires on_disk { n < (state self.old).disk.size }
        requires callable { F.IsAlwaysCallable read }
        ensures content { IfOk result (λ x. FnOnceReturnsAt F.FnOnce read ((state self.old).sectors n) x) }
        ensures same { IsUnchanged (state self.old) (state self.new) }
        ensures cause { HasCause (state self.old).disk (state self.new).disk result }
    {
        let mut content = [0; 512];
        self.get(n, &mut content)?;
        Ok(read(&content))
    }

    /// Changes a sector. A sector that wasn't put yet takes room.
    fn put(&mut self, n: u32, from: &[u8; 512])
        requires part { log_end (state self.old).header ≤ n }
        requires on_disk { n < (state self.old).disk.size }
        requires room { (state self.old).has_put n ≡ false → 0 < (state self.old).room }
        ensures { IsPut n from.now (state self.old) (state self.new) };

    /// How many sectors can still be put that weren't yet.
    fn room(&self) -> usize
        ensures { result ≡ (state self.now).room };

    /// A number that keys of hints are made with. Who picks what a key is made of, and doesn't know this number, can't pick many that
    /// share a place.
    fn salt(&self) -> u64 {
        0
    }

    /// Leaves a hint, such as where something was found, under a key. It may be lost.
    fn leave_hint(&mut self, _key: u64, _hint: u64)
        ensures { IsUnchanged (state self.old) (state self.new) }
    {}

    /// The hint that was left under a key. Nothing is promised of it: whoever asks looks whether it is so.
    fn hint(&self, _key: u64) -> Option<u64> {
        None
    }
}
