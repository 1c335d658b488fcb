//! Files that a disk can be kept in.

ghost use Rattle.std.specs.Prelude.{◌≡◌, Option, None, IfOk, IfSome, OnOk, replicate};
ghost use Rattle.sector_disk.specs.Record.{Held};
ghost use Rattle.sector_disk.specs.Files.{IfKnown, IsRunTried, HasRun, IsHeldNarrowed, IsHeldSynced, HasStable, HasCount};

use std::fs::File;
use std::io;
use std::os::unix::fs::FileExt;

/// A file of sectors, of which one program at a time can hold the lock.
///
/// A write of 512 bytes to it is done or not done, whenever the machine stops, and a sync is honest: std says so of no file.
pub trait DiskFile {
    /// What was in the file at its last sync, and the writes since; `None` where that isn't known.
    ghost held: { Self → Option Held } = { λ _. None };

    /// Takes the lock without waiting, and holds it as long as the file is open. That fails where it is taken: by another
    /// program, or by this one, which has opened the file twice. Who doesn't ask for the lock isn't kept from the file.
    fn try_lock(&self) -> io::Result<()>;

    /// How many whole sectors it has.
    fn count(&self) -> io::Result<u64>
        ensures { IfOk result (λ count. IfSome (held self.now) (HasCount count)) };

    /// Gives the file so many sectors, all of them zeros, and syncs it. What it had is lost.
    fn fill(&mut self, sectors: u32) -> io::Result<()>
        ensures { OnOk result (IfSome (held self.new) (HasStable (replicate sectors (replicate 512 0)))) };

    /// Reads its sectors from number `first` on.
    fn read_run(&mut self, first: u32, to: &mut [[u8; 512]]) -> io::Result<()>
        ensures same { held self.new ≡ held self.old }
        ensures content { OnOk result (IfSome (held self.new) (HasRun first to.new)) };

    /// Writes these sectors from number `first` on. Where that fails, each of them is written or not.
    fn write_run(&mut self, first: u32, run: &[[u8; 512]]) -> io::Result<()>
        ensures tried { IfKnown (IsRunTried first run.now) (held self.old) (held self.new) }
        ensures done { OnOk result (IfSome (held self.new) (HasRun first run.now)) };

    /// Makes stable what was written. Where that fails, nothing is known of what was written since the last sync.
    fn sync(&mut self) -> io::Result<()>
        ensures narrowed { IfKnown IsHeldNarrowed (held self.old) (held self.new) }
        ensures stable { OnOk result (IfKnown IsHeldSynced (held self.old) (held self.new)) };
}

impl DiskFile for File {
    fn try_lock(&self) -> io::Result<()> {
        Ok(File::try_lock(self)?)
    }

    fn count(&self) -> io::Result<u64> {
        Ok(self.metadata()?.len() / 512)
    }

    fn fill(&mut self, sectors: u32) -> io::Result<()> {
        // What the file has up to that length would stay.
        self.set_len(0)?;
        self.set_len(u64::from(sectors) * 512)?;
        self.sync_all()
    }

    fn read_run(&mut self, first: u32, to: &mut [[u8; 512]]) -> io::Result<()> {
        self.read_exact_at(to.as_flattened_mut(), u64::from(first) * 512)
    }

    fn write_run(&mut self, first: u32, run: &[[u8; 512]]) -> io::Result<()> {
        self.write_all_at(run.as_flattened(), u64::from(first) * 512)
    }

    // The times of the file needn't be stable, nor what the kernel journals for them.
    fn sync(&mut self) -> io::Result<()> {
        self.sync_data()
    }
}
