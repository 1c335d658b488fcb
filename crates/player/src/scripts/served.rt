//! Runs scripts on disks of which calls may fail, which may be changed, checked, and mounted again.

use crate::disks::{INODES, sectors_of};
use crate::values::value_after;
use anyhow::{anyhow, bail};
use fs_check::{CheckFault, Summary, check};
use fs_images::mkfs;
use fs_layout::Version;
use fs_shell::{Watched, run};
use fs_system::{Fs, MountFault};
use sector_disk::{Disk, FailOnce, FuseDisk, MemDisk};
use std::alloc::{AllocError, Global};
use std::mem;

// One call fails; and all from some call on.
type FailingDisk = FuseDisk<FailOnce<MemDisk>>;

// A file system, or the disk of one that isn't mounted.
#[derive(Drop)]
enum Served {
    Mounted(Fs<FailingDisk>),
    Down(FailingDisk),
}

// What a line asks for besides a file system's events.
#[derive(Clone, Copy)]
enum Request<'a> {
    // A mount, which lets so many calls of the disk pass from then on.
    Mount(u64),
    Unmount,
    // Other bytes on the disk: the sector, the place, and the bytes.
    Put(&'a str),
    Check,
}

/// What is answered to the lines on an empty file system of this version, of whose disk this call fails.
pub fn replies(alloc: Global, version: Version, call: u64, lines: &str) -> anyhow::Result<String> {
    let (served, _) = mounted(alloc, new_disk(alloc, version, call)?);
    let mut seen = String::new(alloc);
    value_after(answer_all(alloc, &mut seen, served, lines), seen)
}

// Adds what is answered to the lines.
fn answer_all(alloc: Global, seen: &mut String, served: Served, lines: &str) -> anyhow::Result<()> {
    let mut script = String::new(alloc);
    let answered = answer_each(alloc, seen, &mut script, served, lines);
    mem::drop(script);
    answered
}

// Takes one line after another.
fn answer_each(
    alloc: Global,
    seen: &mut String,
    script: &mut String,
    served: Served,
    lines: &str,
) -> anyhow::Result<()> {
    let mut served = served;
    for line in lines.split_terminator('\n') {
        served = took_line(alloc, seen, script, served, line)?;
    }
    let pushed = push_replies(alloc, seen, &mut served, script.as_str());
    mem::drop(served);
    pushed
}

// A disk with an empty file system, of which this call fails.
fn new_disk(alloc: Global, version: Version, call: u64) -> anyhow::Result<FailingDisk> {
    let mut disk = FailOnce::new(MemDisk::new(alloc, sectors_of(version))?, call);
    mkfs(&mut disk, version, INODES)?;
    Ok(FuseDisk::new(disk, u64::MAX))
}

// What is served once a line is taken: it asks for something, or belongs to the script that a file system has to answer next.
fn took_line(
    alloc: Global,
    seen: &mut String,
    script: &mut String,
    served: Served,
    line: &str,
) -> anyhow::Result<Served> {
    let mut served = served;
    match prepared(alloc, seen, script, &mut served, line) {
        Ok(Some(request)) => answered(alloc, seen, served, request),
        Ok(None) => Ok(served),
        Err(fault) => {
            mem::drop(served);
            Err(fault)
        }
    }
}

// What a line asks for, once the script above it is answered. A line that asks for nothing is added to the script.
fn prepared<'a>(
    alloc: Global,
    seen: &mut String,
    script: &mut String,
    served: &mut Served,
    line: &'a str,
) -> anyhow::Result<Option<Request<'a>>> {
    let request = requested(line)?;
    if request.is_some() {
        push_replies(alloc, seen, served, script.as_str())?;
        script.clear();
    } else {
        writeln!(script, "{line}")?;
    }
    Ok(request)
}

fn requested(line: &str) -> anyhow::Result<Option<Request<'_>>> {
    Ok(match line.split_once(' ') {
        Some(("mount", calls)) => Some(Request::Mount(calls.parse::<u64>()?)),
        Some(("put", words)) => Some(Request::Put(words)),
        None if line == "mount" => Some(Request::Mount(u64::MAX)),
        None if line == "unmount" => Some(Request::Unmount),
        None if line == "check" => Some(Request::Check),
        _ => None,
    })
}

// Does what is requested, of the disk after an unmount, and adds what is answered.
fn answered(
    alloc: Global,
    seen: &mut String,
    served: Served,
    request: Request<'_>,
) -> anyhow::Result<Served> {
    let (mut disk, errno) = unmounted(served);
    let done = match request {
        Request::Mount(calls) => {
            let (served, fault) = mounted(alloc, FuseDisk::new(disk.into_inner(), calls));
            return Ok(value_after(push_mounted(seen, fault), served)?);
        }
        Request::Unmount => push_unmounted(seen, errno).map_err(anyhow::Error::from),
        Request::Put(words) => put(&mut disk, words),
        Request::Check => push_check(alloc, seen, &mut disk).map_err(anyhow::Error::from),
    };
    value_after(done, Served::Down(disk))
}

fn push_unmounted(seen: &mut String, errno: Option<&'static str>) -> Result<(), AllocError> {
    match errno {
        None => seen.push_str("unmounted\n"),
        Some(errno) => writeln!(seen, "unmount: {errno}"),
    }
}

// Adds what a check finds.
fn push_check<D: Disk>(alloc: Global, seen: &mut String, disk: &mut D) -> Result<(), AllocError> {
    match check(alloc, disk) {
        Ok(summary) => push_summary(seen, &summary),
        Err(CheckFault::Found(finding)) => writeln!(seen, "finding {finding}"),
        Err(fault) => writeln!(seen, "{fault}"),
    }
}

// What is served after a mount, and why the disk isn't mounted.
fn mounted(alloc: Global, disk: FailingDisk) -> (Served, Option<MountFault>) {
    match Fs::mount(alloc, disk) {
        Ok(fs) => (Served::Mounted(fs), None),
        Err((fault, disk)) => (Served::Down(disk), Some(fault)),
    }
}

fn push_mounted(seen: &mut String, fault: Option<MountFault>) -> Result<(), AllocError> {
    match fault {
        None => seen.push_str("mounted\n"),
        Some(fault) => writeln!(seen, "{fault}"),
    }
}

// The disk after an unmount, and the error that this tells. From then on no call fails for want of calls that pass.
fn unmounted(served: Served) -> (FailingDisk, Option<&'static str>) {
    let (disk, errno) = match served {
        Served::Down(disk) => (disk, None),
        Served::Mounted(fs) => {
            let (disk, errno) = fs.unmount();
            (disk, errno.map(|errno| errno.name()))
        }
    };
    (FuseDisk::new(disk.into_inner(), u64::MAX), errno)
}

// Adds what a clean disk has.
fn push_summary(seen: &mut String, summary: &Summary) -> Result<(), AllocError> {
    let Summary {
        files,
        dirs,
        links,
        nameless,
        blocks,
        inodes,
        pending,
    } = summary;
    write!(seen, "clean files {files} dirs {dirs} links {links} ")?;
    write!(seen, "nameless {nameless} blocks {blocks} inodes {inodes} ")?;
    let pending = if *pending { "yes" } else { "no" };
    writeln!(seen, "pending {pending}")
}

// Puts bytes on a disk: the words are the sector, the place in it, and the bytes.
fn put<D: Disk>(disk: &mut D, words: &str) -> anyhow::Result<()> {
    let (sector, words) = number_before(words)?;
    let (dentry, bytes) = number_before(words)?;
    let mut content = content_of(disk, sector)?;
    set_bytes(&mut content, dentry, bytes)?;
    if !put_stable(disk, sector, &content) {
        bail!("the disk failed");
    }
    disk.forget();
    Ok(())
}

// A number, and the words behind it.
fn number_before(words: &str) -> anyhow::Result<(u32, &str)> {
    match words.split_once(' ') {
        Some((number, words)) => Ok((number.parse::<u32>()?, words)),
        None => Err(anyhow!("too few words")),
    }
}

fn content_of<D: Disk>(disk: &mut D, sector: u32) -> anyhow::Result<[u8; 512]> {
    let mut content = [0; 512];
    if sector >= disk.size() || disk.read(sector, &mut content).is_err() {
        bail!("sector {sector} isn't read");
    }
    Ok(content)
}

// Sets the bytes from a place on.
fn set_bytes(content: &mut [u8], dentry: u32, words: &str) -> anyhow::Result<()> {
    for (byte, word) in content
        .iter_mut()
        .skip(dentry as usize)
        .zip(words.split(' '))
    {
        *byte = word.parse::<u8>()?;
    }
    Ok(())
}

// Gives a sector this content, and tells whether that is stable.
fn put_stable<D: Disk>(disk: &mut D, sector: u32, content: &[u8; 512]) -> bool {
    sector < disk.size() && disk.write(sector, content).is_ok() && disk.sync().is_ok()
}

// Adds what is answered to a script.
fn push_replies(
    alloc: Global,
    seen: &mut String,
    served: &mut Served,
    script: &str,
) -> anyhow::Result<()> {
    match served {
        Served::Mounted(fs) => push_run(alloc, seen, fs, script),
        Served::Down(_) => {
            push_down(seen, script)?;
            Ok(())
        }
    }
}

// Adds what a file system answers to a script.
fn push_run(
    alloc: Global,
    seen: &mut String,
    fs: &mut Fs<FailingDisk>,
    script: &str,
) -> anyhow::Result<()> {
    let mut written = Vec::new(alloc);
    let outcome = run(
        alloc,
        &mut Watched::new(script.as_bytes()),
        &mut Watched::new(&mut written),
        fs,
    );
    let pushed = push_text(alloc, seen, &written);
    mem::drop(written);
    outcome?;
    Ok(pushed?)
}

fn push_text(alloc: Global, seen: &mut String, written: &[u8]) -> Result<(), AllocError> {
    let text = String::from_utf8_lossy(alloc, written)?;
    seen.push_str(text.as_str())
}

// Each line that would have a reply finds nothing mounted.
fn push_down(seen: &mut String, script: &str) -> Result<(), AllocError> {
    for line in script.split_terminator('\n') {
        if !line.is_empty() && !line.starts_with('#') {
            seen.push_str("down\n")?;
        }
    }
    Ok(())
}
