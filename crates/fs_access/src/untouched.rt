//! An image that is read and never written.
ghost use Rattle.std.specs.Prelude.{◌≡◌, IfOk, IfSome, IsErr, OnOk, replicate};
ghost use Rattle.sector_disk.specs.Files.{IfKnown, IsRunTried, HasRun, IsHeldNarrowed, IsHeldSynced, HasStable};

use sector_disk::DiskFile;
use std::io::{self, ErrorKind};

/// A file of which a disk takes its sectors, and to which it gives none back: what is written to the disk is in memory alone, and is
/// gone with it. The file needn't be open for writing.
#[derive(Drop)]
pub struct Untouched<F> {
    file: F,
}

impl<F> Untouched<F> {
    /// Over an open file.
    pub fn new(file: F) -> Untouched<F>
        ensures { result.file ≡ file }
    {
        Untouched { file }
    }
}

// This holds nothing of what the disk writes, so nothing is said of what it holds. The clauses `untouched` say that the file holds what
// it held.
impl<F: DiskFile> DiskFile for Untouched<F> {
    fn try_lock(&self) -> io::Result<()> {
        self.file.try_lock()
    }

    fn count(&self) -> io::Result<u64> {
        self.file.count()
    }

    fn fill(&mut self, _sectors: u32) -> io::Result<()>
        ensures failed { IsErr result }
        ensures untouched { F.held self.new.file ≡ F.held self.old.file }
    {
        Err(io::Error::from(ErrorKind::Unsupported))
    }

    fn read_run(&mut self, first: u32, to: &mut [[u8; 512]]) -> io::Result<()>
        ensures same { ⟦<Untouched<F> as DiskFile>⟧.held self.new ≡ ⟦<Untouched<F> as DiskFile>⟧.held self.old }
        ensures content { OnOk result (IfSome (⟦<Untouched<F> as DiskFile>⟧.held self.new) (HasRun first to.new)) }
        ensures untouched { F.held self.new.file ≡ F.held self.old.file }
    {
        self.file.read_run(first, to)
    }

    fn write_run(&mut self, first: u32, run: &[[u8; 512]]) -> io::Result<()>
        ensures tried { IfKnown (IsRunTried first run.now) (⟦<Untouched<F> as DiskFile>⟧.held self.old) (⟦<Untouched<F> as DiskFile>⟧.held self.new) }
        ensures done { OnOk result (IfSome (⟦<Untouched<F> as DiskFile>⟧.held self.new) (HasRun first run.now)) }
        ensures untouched { F.held self.new.file ≡ F.held self.old.file }
    {
        Ok(())
    }

    fn sync(&mut self) -> io::Result<()>
        ensures narrowed { IfKnown IsHeldNarrowed (⟦<Untouched<F> as DiskFile>⟧.held self.old) (⟦<Untouched<F> as DiskFile>⟧.held self.new) }
        ensures stable { OnOk result (IfKnown IsHeldSynced (⟦<Untouched<F> as DiskFile>⟧.held self.old) (⟦<Untouched<F> as DiskFile>⟧.held self.new)) }
        ensures untouched { F.held self.new.file ≡ F.held self.old.file }
    {
        Ok(())
    }
}
