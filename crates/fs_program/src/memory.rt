//! Runs a script on a new file system in memory.
ghost use Rattle.std.specs.Prelude.{◌≡◌, MatchResult, Ok, Err, OnOk, IsTrue};
ghost use Rattle.fs_layout.specs.declared.version.Version.TheVariants.{Two};
ghost use Rattle.fs_shell.specs.declared.fault.RunFault.TheVariants.{ReadFault, WriteFault};
ghost use Rattle.fs_shell.specs.Watching.{FailsWhere};
ghost use Rattle.fs_system.specs.Playing.{IsConfig};
ghost use Rattle.fs_system.specs.Histories.{Config};
ghost use Rattle.fs_program.specs.declared.failure.Failure.TheVariants.{Run};
ghost use Rattle.fs_program.specs.Programs.{Begins, Fails, RunsInMemory};
ghost use Rattle.fs_program.specs.Streams.{reading, writing};

use crate::failure::Failure;
use fs_images::mkfs;
use fs_layout::Version;
use fs_shell::{Count, Watched, run};
use fs_system::Fs;
use sector_disk::{Disk, MemDisk};
use std::alloc::Global;
use std::io::{Read, Write};

// The size of the disk.
const SECTORS: u32 = 1024;

// How many inodes it has, 0 too.
const INODES: u32 = 64;

/// Makes an empty file system in memory, and runs the script on it.
pub(crate) fn run_in_memory<R: Read, W: Write>(
    alloc: Global,
    reader: &mut Watched<R>,
    writer: &mut Watched<W>,
) -> Result<Count, Failure>
    // What was written is the text of a run over the script's lines, which began with an empty file system. It may have
    // ended early, or not have begun.
    ensures ran { RunsInMemory ⟦<MemDisk as Disk>⟧.state Two SECTORS INODES (reading R.remaining reader.old reader.new)
        (writing W.contents writer.old writer.new) ((reader.new ≡ reader.old) × (writer.new ≡ writer.old)) result }
    ensures read_fault { FailsWhere reader.old.failed reader.new.failed (result ≡ Err (Run ReadFault)) }
    ensures write_fault { FailsWhere writer.old.failed writer.new.failed (result ≡ Err (Run WriteFault)) }
    ensures flushed { OnOk result (IsTrue writer.new.flushed) }
{
    let Ok(disk) = MemDisk::new(alloc, SECTORS) else {
        return Err(Failure::NotCreated);
    };
    run_on(alloc, disk, reader, writer)
}

// Makes an empty file system on the disk, and runs the script on it.
fn run_on<D: Disk + Drop, R: Read, W: Write>(
    alloc: Global,
    disk: D,
    reader: &mut Watched<R>,
    writer: &mut Watched<W>,
) -> Result<Count, Failure>
    requires { (D.state disk).size ≡ SECTORS }
    ensures ran { RunsInMemory D.state Two SECTORS INODES (reading R.remaining reader.old reader.new)
        (writing W.contents writer.old writer.new) ((reader.new ≡ reader.old) × (writer.new ≡ writer.old)) result }
    ensures read_fault { FailsWhere reader.old.failed reader.new.failed (result ≡ Err (Run ReadFault)) }
    ensures write_fault { FailsWhere writer.old.failed writer.new.failed (result ≡ Err (Run WriteFault)) }
    ensures flushed { OnOk result (IsTrue writer.new.flushed) }
{
    let mut fs = new_file_system(alloc, disk)?;
    match run(alloc, reader, writer, &mut fs) {
        Ok(count) => Ok(count),
        Err(fault) => Err(Failure::Run(fault)),
    }
}

// Makes an empty file system on the disk, and mounts it.
fn new_file_system<D: Disk + Drop>(alloc: Global, disk: D) -> Result<Fs<D>, Failure>
    requires { (D.state disk).size ≡ SECTORS }
    ensures { MatchResult result (λ fs. (c : Config D) × IsConfig D.state (Ok fs) c × Begins D.state Two SECTORS INODES c)
        (Fails (λ fault. ⊥) (Unit {0})) }
{
    let mut disk = disk;
    if let Err(fault) = mkfs(&mut disk, Version::Two, INODES) {
        return Err(Failure::Mkfs(fault));
    }
    match Fs::mount(alloc, disk) {
        Ok(fs) => Ok(fs),
        Err((fault, _)) => Err(Failure::Mount(fault)),
    }
}
