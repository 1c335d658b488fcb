//! What the jobs do on a disk, and what they print.

ghost use Rattle.std.specs.Prelude.{◌≡◌, ◌≤◌, OnOk, IfErr, is_ok, if◌then◌else◌, Some, Ok, Err};
ghost use Rattle.std.specs.Io.KnownBytes.{Appends};
ghost use Rattle.sector_disk.specs.Disk.{LeavesOnly, OnlyReads};
ghost use Rattle.fs_layout.specs.Geometry.{IsGeometry, the_geometry};
ghost use Rattle.fs_images.specs.Upgrading.{IsHalfUpgraded};
ghost use Rattle.fs_program.specs.Jobs.{IsOfRule, IsCheckTold, MkfsEnds, RunEnds, CheckEnds, InfoEnds, UpgradeEnds, status_at_end, run_status};
ghost use Rattle.fs_program.specs.Streams.{reading, writing};
ghost use Rattle.fs_program.specs.Unmounts.{unmount_end};
ghost use Rattle.fs_system.specs.Replies.{unmounted};
ghost use Rattle.fs_program.specs.Texts.{made_text, kinds_text, room_text, clean_text, finding_text, found_text, version_text};

use crate::explaining::print_explanation;
use crate::failure::Failure;
use fs_check::{CheckFault, Finding, Summary, check};
use fs_command::Status;
use fs_cred::Errno;
use fs_images::{mkfs, upgrade};
use fs_info::{print_info, read_info, yes_or_no};
use fs_layout::{Geometry, Version};
use fs_shell::{Count, RunFault, Watched, run};
use fs_system::Fs;
use sector_disk::Disk;
use std::alloc::Global;
use std::io::{self, Read, Write};

/// Prints why a job wasn't done.
pub(crate) fn tell<E: Write>(err: &mut E, failure: &Failure) -> Status
    ensures { result ≡ Status.Failed }
{
    let _ = writeln!(err, "{failure}");
    Status::Failed
}

/// The status of a job that has ended so. Why it wasn't done is printed.
pub(crate) fn finish<E: Write>(outcome: Result<Status, Failure>, err: &mut E) -> Status
    ensures { result ≡ status_at_end outcome }
{
    match outcome {
        Ok(status) => status,
        Err(failure) => tell(err, &failure),
    }
}

/// The status, where the text was written.
pub(crate) fn written(outcome: io::Result<()>, status: Status) -> Status
    ensures { result ≡ (if is_ok outcome then status else Status.Failed) }
{
    match outcome {
        Ok(()) => status,
        Err(_) => Status::Failed,
    }
}

// ---- making a file system

/// Makes a file system on a disk that has the size of the layout.
pub(crate) fn make_on_disk<D: Disk, O: Write>(
    disk: &mut D,
    geometry: Geometry,
    out: &mut Watched<O>,
) -> Result<Status, Failure>
    requires { the_geometry geometry.version (D.state disk.old).size geometry.inodes ≡ Some geometry }
    ensures { MkfsEnds (D.state disk.old) (D.state disk.new) geometry.version geometry.inodes (writing O.contents out.old out.new) result }
{
    if let Err(fault) = mkfs(disk, geometry.version, geometry.inodes) {
        return Err(Failure::Mkfs(fault));
    }
    Ok(written(print_made(geometry, out), Status::Done))
}

fn print_made<O: Write>(geometry: Geometry, out: &mut O) -> io::Result<()>
    requires { IsGeometry geometry }
    ensures { OnOk result (Appends (O.contents out.old) (O.contents out.new) (made_text geometry)) }
{
    let Geometry {
        sectors,
        inodes,
        first_data,
        ..
    } = geometry;
    let free = sectors - first_data;
    writeln!(out, "made {sectors} sectors {inodes} inodes {free} free")
}

// ---- running a script

/// Mounts a disk, runs a script on it, and unmounts, also where the run ended early, which is told first.
pub(crate) fn run_on_disk<D: Disk + Drop, I: Read, O: Write, E: Write>(
    alloc: Global,
    disk: D,
    input: &mut Watched<I>,
    out: &mut Watched<O>,
    err: &mut E,
) -> Result<Status, Failure>
    ensures { RunEnds D.state disk (reading I.remaining input.old input.new) (writing O.contents out.old out.new) result }
{
    let mut fs = match Fs::mount(alloc, disk) {
        Ok(fs) => fs,
        Err((fault, _)) => return Err(Failure::Mount(fault)),
    };
    let ran = run(alloc, input, out, &mut fs);
    let (_, errno) = fs.unmount();
    unmount_end(errno, tell_run(ran, err))
}

/// How a job ends that has this status, where the unmount after it is answered so.
pub(crate) fn unmount_end(errno: Option<Errno>, status: Status) -> Result<Status, Failure>
    ensures { result ≡ unmount_end status (unmounted errno) }
{
    match errno {
        None => Ok(status),
        Some(_) => Err(Failure::Unmount),
    }
}

// The status of a run. Why it ended early is printed.
fn tell_run<E: Write>(ran: Result<Count, RunFault>, err: &mut E) -> Status
    ensures { result ≡ run_status ran }
{
    match ran {
        Ok(count) => Status::of_faults(count.faults),
        Err(fault) => tell(err, &Failure::Run(fault)),
    }
}

// ---- checking

/// Checks a disk, and prints what it has, or which rule fails and, if that is to be explained, what it asks.
pub(crate) fn check_disk<D: Disk, O: Write>(
    alloc: Global,
    disk: &mut D,
    explain: bool,
    out: &mut Watched<O>,
) -> Result<Status, Failure>
    ensures reads { OnlyReads (D.state disk.old) (D.state disk.new) }
    ensures ends { CheckEnds (D.state disk.old) (D.state disk.new) explain (writing O.contents out.old out.new) result }
{
    tell_check(check(alloc, disk), explain, out)
}

/// Prints what a check has found.
pub(crate) fn tell_check<O: Write>(
    found: Result<Summary, CheckFault>,
    explain: bool,
    out: &mut Watched<O>,
) -> Result<Status, Failure>
    requires { IfErr found IsOfRule }
    ensures { IsCheckTold explain (writing O.contents out.old out.new) found result }
{
    match found {
        Ok(summary) => Ok(written(print_summary(&summary, out), Status::Done)),
        Err(fault) => tell_fault(fault, explain, out),
    }
}

fn tell_fault<O: Write>(
    fault: CheckFault,
    explain: bool,
    out: &mut Watched<O>,
) -> Result<Status, Failure>
    requires { IsOfRule fault }
    ensures { IsCheckTold explain (writing O.contents out.old out.new) (Err fault) result }
{
    match fault {
        CheckFault::Found(finding) => {
            Ok(written(print_found(finding, explain, out), Status::Faulty))
        }
        CheckFault::DiskFault => Err(Failure::Check(CheckFault::DiskFault)),
        CheckFault::OutOfMemory => Err(Failure::Check(CheckFault::OutOfMemory)),
    }
}

fn print_found<O: Write>(finding: Finding, explain: bool, out: &mut O) -> io::Result<()>
    requires { (1 ≤ finding.rule) × (finding.rule ≤ 14) }
    ensures { OnOk result (Appends (O.contents out.old) (O.contents out.new) (found_text explain finding)) }
{
    print_finding(finding, out)?;
    if explain {
        print_explanation(finding, out)?;
    }
    Ok(())
}

fn print_finding<O: Write>(finding: Finding, out: &mut O) -> io::Result<()>
    ensures { OnOk result (Appends (O.contents out.old) (O.contents out.new) (finding_text finding)) }
{
    let Finding { rule, at } = finding;
    writeln!(out, "finding {rule} {at}")
}

fn print_summary<O: Write>(summary: &Summary, out: &mut O) -> io::Result<()>
    ensures { OnOk result (Appends (O.contents out.old) (O.contents out.new) (clean_text summary.now)) }
{
    print_kinds(summary, out)?;
    print_room(summary, out)?;
    let pending = yes_or_no(summary.pending);
    writeln!(out, " pending {pending}")?;
    Ok(())
}

fn print_kinds<O: Write>(summary: &Summary, out: &mut O) -> io::Result<()>
    ensures { OnOk result (Appends (O.contents out.old) (O.contents out.new) (kinds_text summary.now)) }
{
    write!(
        out,
        "clean files {} dirs {} links {}",
        summary.files, summary.dirs, summary.links
    )
}

fn print_room<O: Write>(summary: &Summary, out: &mut O) -> io::Result<()>
    ensures { OnOk result (Appends (O.contents out.old) (O.contents out.new) (room_text summary.now)) }
{
    write!(
        out,
        " nameless {} blocks {} inodes {}",
        summary.nameless, summary.blocks, summary.inodes
    )
}

// ---- what a disk says of itself

/// Prints what a disk says of itself, a line each, or as a JSON object.
pub(crate) fn describe_disk<D: Disk, O: Write>(
    disk: &mut D,
    json: bool,
    out: &mut Watched<O>,
) -> Result<Status, Failure>
    ensures reads { OnlyReads (D.state disk.old) (D.state disk.new) }
    ensures ends { InfoEnds (D.state disk.old) (D.state disk.new) json (writing O.contents out.old out.new) result }
{
    match read_info(disk) {
        Ok(info) => Ok(written(print_info(&info, json, out), Status::Done)),
        Err(fault) => Err(Failure::Info(fault)),
    }
}

// ---- upgrading

/// Upgrades the file system on a disk, and prints the version that it has then.
pub(crate) fn upgrade_disk<D: Disk, O: Write>(
    alloc: Global,
    disk: &mut D,
    out: &mut Watched<O>,
) -> Result<Status, Failure>
    ensures any_moment { LeavesOnly (D.state disk.old) (D.state disk.new) (IsHalfUpgraded (D.state disk.old)) }
    ensures ends { UpgradeEnds (D.state disk.old) (D.state disk.new) (writing O.contents out.old out.new) result }
{
    match upgrade(alloc, disk) {
        Ok(version) => Ok(written(print_version(version, out), Status::Done)),
        Err(fault) => Err(Failure::Upgrade(fault)),
    }
}

fn print_version<O: Write>(version: Version, out: &mut O) -> io::Result<()>
    ensures { OnOk result (Appends (O.contents out.old) (O.contents out.new) (version_text version)) }
{
    let number = version.number();
    writeln!(out, "version {number}")
}
