//! What the program does for its words.

ghost use Rattle.std.specs.Prelude.{◌≡◌, ◌⊎◌, ◌≤◌, ℕ, map, string_bytes, MatchResult, Err, IfErr, IfOk, IfSome, IsSome};
ghost use Rattle.std.specs.Option.{option_copied};
ghost use Rattle.sector_disk.specs.Disk.{IsFresh};
ghost use Rattle.fs_layout.specs.Geometry.{the_geometry};
ghost use Rattle.fs_images.specs.Making.{IsNewLayout};
ghost use Rattle.fs_program.specs.Jobs.{HasChecked, ImageMkfsEnds, ImageRunEnds, ImageCheckEnds, ImageInfoEnds, ImageUpgradeEnds, IsOfZeros, JobEnds, ProgramEnds};
ghost use Rattle.fs_program.specs.Answering.{ImageAccessEnds};
ghost use Rattle.fs_program.specs.Copying.{ImagePackEnds, ImageUnpackEnds};
ghost use Rattle.fs_program.specs.Serving.{ImageFuseEnds};
ghost use Rattle.fs_program.specs.Streams.{reading, writing};
ghost use Rattle.fs_command.specs.Words.{words_status};

use crate::answering::answer_on_disk;
use crate::copying::{pack_on_disk, unpack_on_disk};
use crate::denials::DenialList;
use crate::disks::{
    check_disk, describe_disk, finish, make_on_disk, run_on_disk, tell_check, upgrade_disk, written,
};
use crate::failure::Failure;
use crate::memory::run_in_memory;
use crate::served::serve_on_disk;
use fs_access::{Question, Untouched};
use fs_check::{CheckFault, Summary, check, load};
use fs_command::{Job, Status, Text, WordsFault, parse_words};
use fs_images::{MkfsFault, newest_layout, older_layout};
use fs_layout::{Geometry, Version};
use fs_shell::Watched;
use fuse_serving::{Kernel, Processes, Standard};
use host_trees::{CopyFault, Given, has_proc};
use sector_disk::{Disk, DiskFile, FileDisk, FileFault, MemDisk, PartDisk, PartFile};
use std::fs::{self, OpenFile, OpenOptions, Permissions};
use std::io::{self, ErrorKind, Read, Write};
use std::os::fd::AsRawFd;
use std::os::unix::fs::{MetadataExt, OpenOptionsExt, PermissionsExt};
use std::random::RandomSource;
use std::rt::{Clock, Files};

// The mode of a file that is its owner's alone.
const PRIVATE_FILE: u32 = 0o600;

/// Does what the words ask for, the program's name being the first of them, and answers the status.
///
/// A script on the standard input is read from `input`, and replies are written to `out`: whether a call of them fails is
/// remembered. A text that can't be written is passed over, with status 3. Who asks on a mount is known by `processes`.
pub fn perform<
    R: Files<File: DiskFile + AsRawFd> + AllocGlobal + Clock + RandomSource,
    P: Processes + Drop,
    I: Read,
    O: Write,
    E: Write,
>(
    rt: &R,
    words: &[String],
    processes: P,
    input: &mut Watched<I>,
    out: &mut Watched<O>,
    err: &mut E,
) -> u8
    // The words ask for a job, and it has ended with this status; or they ask for none.
    ensures performs { ProgramEnds ⟦<MemDisk as Disk>⟧.state ⟦<FileDisk<R::File> as Disk>⟧.state ⟦<PartDisk<R::File> as Disk>⟧.state
        ⟦<FileDisk<Untouched<R::File>> as Disk>⟧.state R.File.held R.File.remaining P.Shows (map string_bytes words.now) processes
        (reading I.remaining input.old input.new) (writing O.contents out.old out.new) result }
    ensures range { result ≤ 3 }
{
    match parse_words(rt.alloc(), words) {
        Ok(job) => {
            let outcome = perform_job(rt, &job, processes, input, out, err);
            finish(outcome, err).code()
        }
        Err(fault) => refuse(&fault, out, err).code(),
    }
}

// Prints the parser's text: help and version are what was asked for.
fn refuse<O: Write, E: Write>(fault: &WordsFault, out: &mut Watched<O>, err: &mut E) -> Status
    ensures { (result ≡ words_status fault.now) ⊎ (result ≡ Status.Failed) }
{
    match fault.status() {
        Status::Done => written(write!(out, "{fault}"), Status::Done),
        status => written(write!(err, "{fault}"), status),
    }
}

fn perform_job<
    R: Files<File: DiskFile + AsRawFd> + AllocGlobal + Clock + RandomSource,
    P: Processes + Drop,
    I: Read,
    O: Write,
    E: Write,
>(
    rt: &R,
    job: &Job,
    processes: P,
    input: &mut Watched<I>,
    out: &mut Watched<O>,
    err: &mut E,
) -> Result<Status, Failure>
    ensures { JobEnds ⟦<MemDisk as Disk>⟧.state ⟦<FileDisk<R::File> as Disk>⟧.state ⟦<PartDisk<R::File> as Disk>⟧.state
        ⟦<FileDisk<Untouched<R::File>> as Disk>⟧.state R.File.held R.File.remaining P.Shows processes (reading I.remaining input.old input.new) (writing O.contents out.old out.new) job.now result }
{
    match job {
        Job::Memory => {
            let count = run_in_memory(rt.alloc(), input, out)?;
            Ok(Status::of_faults(count.faults))
        }
        Job::Mkfs {
            image,
            sectors,
            inodes,
        } => make_image(rt, image, older_layout(*sectors, *inodes), out),
        Job::Format {
            image,
            sectors,
            inodes,
        } => make_image(rt, image, newest_layout(*sectors, *inodes), out),
        Job::Pack {
            image,
            from,
            sectors,
            inodes,
            user,
            group,
        } => {
            let given = Given {
                user: *user,
                group: *group,
            };
            let layout = newest_layout(*sectors, *inodes);
            pack_image(rt, image, from, layout, given, err)
        }
        Job::Unpack { image, to } => unpack_image(rt, image, to, err),
        Job::Run { image, script } => run_image(rt, image, script.as_ref(), input, out, err),
        Job::Check { image, explain } => check_image(rt, image, *explain, out),
        Job::Info { image, json } => describe_image(rt, image, *json, out),
        Job::Upgrade { image } => upgrade_image(rt, image, out),
        Job::Fuse {
            image,
            denials,
            own_rules,
            commit,
        } => {
            let mut kernel = Standard::new(rt, processes, input, out);
            serve_image(
                rt,
                image,
                denials.as_ref(),
                *own_rules,
                *commit,
                &mut kernel,
                err,
            )
        }
        Job::Access {
            image,
            path,
            perms,
            cred,
            json,
        } => {
            let question = Question::new(cred, path.as_str(), *perms);
            ask_image(rt, image, &question, *json, out)
        }
    }
}

// Makes an image of this layout. Where there is none, since so many inodes leave too few sectors for data, no file is made.
fn make_image<R: Files<File: DiskFile> + AllocGlobal, O: Write>(
    rt: &R,
    image: &Text,
    layout: Option<Geometry>,
    out: &mut Watched<O>,
) -> Result<Status, Failure>
    requires { IfSome layout IsNewLayout }
    ensures { (version : Version) (sectors inodes : ℕ) → layout ≡ the_geometry version sectors inodes
        → ImageMkfsEnds ⟦<FileDisk<R::File> as Disk>⟧.state version sectors inodes (writing O.contents out.old out.new) result }
{
    let Some(geometry) = layout else {
        return Err(Failure::Mkfs(MkfsFault::TooSmall));
    };
    match create_image(rt, image, geometry.sectors) {
        Ok(mut disk) => make_on_disk(&mut disk, geometry, out),
        Err(failure) => Err(failure),
    }
}

// Makes an image of this layout with the tree of a directory. Where that is none, or can't be reached safely, no file is made.
fn pack_image<R: Files<File: DiskFile + AsRawFd> + AllocGlobal, E: Write>(
    rt: &R,
    image: &Text,
    from: &Text,
    layout: Option<Geometry>,
    given: Given,
    err: &mut E,
) -> Result<Status, Failure>
    requires { IfSome layout IsNewLayout }
    ensures { (sectors inodes : ℕ) → layout ≡ the_geometry Version.Three sectors inodes
        → ImagePackEnds ⟦<FileDisk<R::File> as Disk>⟧.state sectors inodes result }
{
    let Some(geometry) = layout else {
        return Err(Failure::Mkfs(MkfsFault::TooSmall));
    };
    if !is_directory(rt, from.as_str()) {
        return Err(Failure::Pack(CopyFault::NoDirectory));
    }
    if !has_proc(rt) {
        return Err(Failure::Pack(CopyFault::NoProc));
    }
    match create_image(rt, image, geometry.sectors) {
        Ok(disk) => pack_on_disk(rt, disk, geometry, from.as_str(), given, err),
        Err(failure) => Err(failure),
    }
}

fn is_directory<R: Files>(rt: &R, path: &str) -> bool {
    match fs::metadata(rt, path) {
        Ok(metadata) => metadata.is_dir(),
        Err(_) => false,
    }
}

fn create_image<R: Files<File: DiskFile> + AllocGlobal>(
    rt: &R,
    image: &Text,
    sectors: u32,
) -> Result<FileDisk<R::File>, Failure>
    requires { sectors ≤ 16777217 }
    ensures made { IfOk result (λ disk. IsOfZeros sectors (⟦<FileDisk<R::File> as Disk>⟧.state disk)) }
    ensures failed { IfErr result (λ failure. (failure ≡ Failure.Exists) ⊎ (failure ≡ Failure.NotCreated)) }
{
    match FileDisk::create(rt, rt.alloc(), image.as_str(), sectors) {
        Ok(disk) => Ok(disk),
        Err(FileFault::Exists) => Err(Failure::Exists),
        Err(FileFault::Failed | FileFault::OutOfMemory) => Err(Failure::NotCreated),
    }
}

// Copies the tree of an image to a new directory.
fn unpack_image<R: Files<File: DiskFile + AsRawFd> + AllocGlobal, E: Write>(
    rt: &R,
    image: &Text,
    to: &Text,
    err: &mut E,
) -> Result<Status, Failure>
    ensures { ImageUnpackEnds ⟦<FileDisk<R::File> as Disk>⟧.state result }
{
    let disk = open_image(rt, image)?;
    unpack_on_disk(rt, disk, to.as_str(), err)
}

fn open_image<R: Files<File: DiskFile> + AllocGlobal>(
    rt: &R,
    image: &Text,
) -> Result<FileDisk<R::File>, Failure>
    ensures { MatchResult result
        (λ disk. IsFresh (⟦<FileDisk<R::File> as Disk>⟧.state disk) (⟦<FileDisk<R::File> as Disk>⟧.state disk).seen)
        (λ failure. failure ≡ Failure.NotOpened) }
{
    match FileDisk::open_large(rt, rt.alloc(), image.as_str()) {
        Ok(disk) => Ok(disk),
        Err(_) => Err(Failure::NotOpened),
    }
}

fn run_image<R: Files<File: DiskFile> + AllocGlobal, I: Read, O: Write, E: Write>(
    rt: &R,
    image: &Text,
    script: Option<&Text>,
    input: &mut Watched<I>,
    out: &mut Watched<O>,
    err: &mut E,
) -> Result<Status, Failure>
    ensures { ImageRunEnds ⟦<FileDisk<R::File> as Disk>⟧.state R.File.remaining (option_copied script.entry)
        (reading I.remaining input.old input.new) (writing O.contents out.old out.new) result }
{
    let disk = open_image(rt, image)?;
    let Some(script) = script else {
        return run_on_disk(rt.alloc(), disk, input, out, err);
    };
    match fs::open(rt, script.as_str()) {
        Ok(file) => run_on_disk(rt.alloc(), disk, &mut Watched::new(file), out, err),
        Err(_) => Err(Failure::NoScript),
    }
}

fn check_image<R: Files<File: DiskFile> + AllocGlobal, O: Write>(
    rt: &R,
    image: &Text,
    explain: bool,
    out: &mut Watched<O>,
) -> Result<Status, Failure>
    ensures { ImageCheckEnds ⟦<FileDisk<R::File> as Disk>⟧.state ⟦<PartDisk<R::File> as Disk>⟧.state R.File.held explain
        (writing O.contents out.old out.new) result }
{
    let (found, file) = check_part(rt, image)?;
    if let Some(found) = found {
        return tell_check(found, explain, out);
    }
    match FileDisk::over_large(rt.alloc(), file) {
        Ok(mut disk) => check_disk(rt.alloc(), &mut disk, explain, out),
        Err(_) => Err(Failure::NotOpened),
    }
}

// What a check finds that reads a file in part. None where it has asked for a sector that wasn't loaded.
fn check_part<R: Files<File: DiskFile> + AllocGlobal>(
    rt: &R,
    image: &Text,
) -> Result<(Option<Result<Summary, CheckFault>>, R::File), Failure>
    ensures { MatchResult result (λ found. IfSome found.0 (HasChecked ⟦<PartDisk<R::File> as Disk>⟧.state (R.File.held found.1)))
        (λ failure. failure ≡ Failure.NotOpened) }
{
    let Ok(mut part) = PartFile::open(rt, rt.alloc(), image.as_str()) else {
        return Err(Failure::NotOpened);
    };
    if load(rt.alloc(), &mut part).is_err() {
        return Err(Failure::NotOpened);
    }
    let mut disk = PartDisk::new(part);
    let found = check(rt.alloc(), &mut disk);
    if disk.failures() == 0 {
        Ok((Some(found), disk.into_file()))
    } else {
        Ok((None, disk.into_file()))
    }
}

fn describe_image<R: Files<File: DiskFile> + AllocGlobal, O: Write>(
    rt: &R,
    image: &Text,
    json: bool,
    out: &mut Watched<O>,
) -> Result<Status, Failure>
    ensures { ImageInfoEnds ⟦<FileDisk<R::File> as Disk>⟧.state json (writing O.contents out.old out.new) result }
{
    let mut disk = open_image(rt, image)?;
    describe_disk(&mut disk, json, out)
}

fn upgrade_image<R: Files<File: DiskFile> + AllocGlobal, O: Write>(
    rt: &R,
    image: &Text,
    out: &mut Watched<O>,
) -> Result<Status, Failure>
    ensures { ImageUpgradeEnds ⟦<FileDisk<R::File> as Disk>⟧.state (writing O.contents out.old out.new) result }
{
    let mut disk = open_image(rt, image)?;
    upgrade_disk(rt.alloc(), &mut disk, out)
}

// Answers who may do what at a path of an image.
fn ask_image<R: Files<File: DiskFile> + AllocGlobal, O: Write>(
    rt: &R,
    image: &Text,
    question: &Question<'_>,
    json: bool,
    out: &mut Watched<O>,
) -> Result<Status, Failure>
    ensures { ImageAccessEnds ⟦<FileDisk<Untouched<R::File>> as Disk>⟧.state question.now json (writing O.contents out.old out.new) result }
{
    let disk = open_unwritten(rt, image)?;
    answer_on_disk(rt.alloc(), disk, question, json, out)
}

// The disk of an image whose file is opened for reading alone, and which keeps in memory what is written to it.
fn open_unwritten<R: Files<File: DiskFile> + AllocGlobal>(
    rt: &R,
    image: &Text,
) -> Result<FileDisk<Untouched<R::File>>, Failure>
    ensures { MatchResult result
        (λ disk. IsFresh (⟦<FileDisk<Untouched<R::File>> as Disk>⟧.state disk) (⟦<FileDisk<Untouched<R::File>> as Disk>⟧.state disk).seen)
        (λ failure. failure ≡ Failure.NotOpened) }
{
    let Ok(file) = fs::open(rt, image.as_str()) else {
        return Err(Failure::NotOpened);
    };
    match FileDisk::over_large(rt.alloc(), Untouched::new(file)) {
        Ok(disk) => Ok(disk),
        Err(_) => Err(Failure::NotOpened),
    }
}

// A number that no user knows. Where the system has no random bytes it is 0: users may then make calls slower, and change no reply.
fn random_salt<R: RandomSource>(rt: &R) -> u64 {
    let mut bytes = [0; 8];
    match rt.fill_bytes(&mut bytes) {
        Ok(()) => u64::from_le_bytes(bytes),
        Err(_) => 0,
    }
}

fn serve_image<R: Files<File: DiskFile> + AllocGlobal + RandomSource, K: Kernel, E: Write>(
    rt: &R,
    image: &Text,
    denials: Option<&Text>,
    own_rules: bool,
    commit: u32,
    kernel: &mut K,
    err: &mut E,
) -> Result<Status, Failure>
    ensures { ImageFuseEnds ⟦<FileDisk<R::File> as Disk>⟧.state K.Does (option_copied denials.entry) own_rules commit
        kernel.old kernel.new result }
{
    let disk = open_image(rt, image)?;
    let mut witness = DenialList::new(rt.alloc(), open_denials(rt, denials)?);
    let served = serve_on_disk(
        rt.alloc(),
        disk,
        random_salt(rt),
        own_rules,
        commit,
        kernel,
        &mut witness,
        err,
    );
    witness.end();
    served
}

// The file for denials, if one is named.
fn open_denials<R: Files>(rt: &R, path: Option<&Text>) -> Result<Option<R::File>, Failure>
    ensures { IfErr result (λ failure. (failure ≡ Failure.NoDenials) × IsSome (option_copied path.entry)) }
{
    let Some(path) = path else {
        return Ok(None);
    };
    match open_list(rt, path.as_str()) {
        Ok(file) => Ok(Some(file)),
        Err(_) => Err(Failure::NoDenials),
    }
}

// Makes a file for its owner alone, or opens the one that is there.
fn open_list<R: Files>(rt: &R, path: &str) -> io::Result<R::File> {
    match OpenOptions::new()
        .append(true)
        .create_new(true)
        .mode(PRIVATE_FILE)
        .open(rt, path)
    {
        Ok(file) => Ok(file),
        Err(error) if error.kind() == ErrorKind::AlreadyExists => open_present(rt, path),
        Err(error) => Err(error),
    }
}

// Opens a file that is there: what it has stays, lines are added, and from now on it is its owner's alone. Anything but a regular file is
// refused before it is opened: a pipe would keep the server waiting, and who made a link would say where denials go. So is a file that
// somebody has put there in between.
fn open_present<R: Files>(rt: &R, path: &str) -> io::Result<R::File> {
    let seen = fs::symlink_metadata(rt, path)?;
    if !seen.is_file() {
        return Err(io::Error::from(ErrorKind::InvalidInput));
    }
    let file = OpenOptions::new().append(true).open(rt, path)?;
    let opened = file.metadata()?;
    if (opened.dev(), opened.ino()) != (seen.dev(), seen.ino()) {
        return Err(io::Error::from(ErrorKind::InvalidInput));
    }
    if opened.mode() & 0o7777 != PRIVATE_FILE {
        file.set_permissions(Permissions::from_mode(PRIVATE_FILE))?;
    }
    Ok(file)
}
