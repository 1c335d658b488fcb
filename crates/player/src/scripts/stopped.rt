//! Plays scripts with stops of the disk.

use crate::disks::{INODES, SECTORS, sectors_of};
use crate::values::value_after;
use anyhow::bail;
use fs_images::mkfs;
use fs_layout::Version;
use fs_lines::{Line, parse_line, reply_text};
use fs_model::{Bytes, Event, EventReply, Reply, RestartFault};
use fs_system::{PlayFault, play};
use sector_disk::MemDisk;
use std::alloc::{AllocError, Global};
use std::mem;

/// Whether lines have a stop of the disk.
pub fn has_stops(lines: &str) -> bool {
    lines.split_terminator('\n').any(|line| line.starts_with("arm ")
        || line.starts_with("restart "))
}

/// What is answered to the lines on an empty file system of this version.
pub fn replies(alloc: Global, version: Version, lines: &str) -> anyhow::Result<String> {
    let mut disk = MemDisk::new(alloc, sectors_of(version))?;
    mkfs(&mut disk, version, INODES)?;
    replies_on(alloc, disk, lines)
}

/// What is answered to the lines on a disk without a file system.
pub fn replies_without_mkfs(alloc: Global, lines: &str) -> anyhow::Result<String> {
    replies_on(alloc, MemDisk::new(alloc, SECTORS)?, lines)
}

// What is answered to the lines on this disk, or why they aren't played.
fn replies_on(alloc: Global, disk: MemDisk, lines: &str) -> anyhow::Result<String> {
    let mut events = Vec::new(alloc);
    let seen = match push_events(alloc, &mut events, lines) {
        Ok(()) => played(alloc, disk, &events),
        Err(fault) => {
            mem::drop(disk);
            Err(fault)
        }
    };
    mem::drop(events);
    seen
}

// What is answered to the events.
fn played(alloc: Global, disk: MemDisk, events: &[Event]) -> anyhow::Result<String> {
    let (disk, outcome) = play(alloc, disk, events);
    mem::drop(disk);
    let mut seen = String::new(alloc);
    Ok(value_after(push_outcome(alloc, &mut seen, outcome), seen)?)
}

fn push_outcome(
    alloc: Global,
    seen: &mut String,
    outcome: Result<Vec<EventReply>, PlayFault>,
) -> Result<(), AllocError> {
    match outcome {
        Ok(replies) => {
            let pushed = push_replies(alloc, seen, &replies);
            mem::drop(replies);
            pushed
        }
        Err(fault) => writeln!(seen, "{fault}"),
    }
}

fn push_events(alloc: Global, events: &mut Vec<Event>, lines: &str) -> anyhow::Result<()> {
    for line in lines.split_terminator('\n') {
        push_event(alloc, events, line)?;
    }
    Ok(())
}

// Adds the event that a line asks for, if it asks for one.
fn push_event(alloc: Global, events: &mut Vec<Event>, line: &str) -> anyhow::Result<()> {
    if let Some(event) = event_of(alloc, line)? {
        events.push(event)?;
    }
    Ok(())
}

fn event_of(alloc: Global, line: &str) -> anyhow::Result<Option<Event>> {
    match line.split_once(' ') {
        Some(("arm", passes)) => Ok(Some(Event::Arm(passes.parse::<u64>()?))),
        Some(("restart", words)) => Ok(Some(restart(alloc, words)?)),
        _ => parsed(alloc, line),
    }
}

fn parsed(alloc: Global, line: &str) -> anyhow::Result<Option<Event>> {
    match parse_line(alloc, line.as_bytes()) {
        Ok(Line::Event(event)) => Ok(Some(event)),
        Ok(Line::Blank) => Ok(None),
        Err(_) => bail!("{line}"),
    }
}

// A stop that picks the content of this number in each sector, after which so many writes and syncs pass, or all.
fn restart(alloc: Global, words: &str) -> anyhow::Result<Event> {
    let (choice, passes) = match words.split_once(' ') {
        Some((choice, passes)) => (choice, Some(passes.parse::<u64>()?)),
        None => (words, None),
    };
    let choice = Bytes::from_slice(alloc, &[choice.parse::<u8>()?; 64])?;
    Ok(Event::Restart {
        choice,
        arm: passes,
    })
}

fn push_replies(
    alloc: Global,
    seen: &mut String,
    replies: &[EventReply],
) -> Result<(), AllocError> {
    for reply in replies {
        push_reply(alloc, seen, reply)?;
    }
    Ok(())
}

fn push_reply(alloc: Global, seen: &mut String, reply: &EventReply) -> Result<(), AllocError> {
    let text = match reply {
        EventReply::Reply(reply) => return push_text(alloc, seen, reply),
        EventReply::Armed => "armed\n",
        EventReply::Mounted => "mounted\n",
        EventReply::MountFailed(RestartFault::DiskFault) => "failed DiskFault\n",
        EventReply::MountFailed(RestartFault::OutOfMemory) => "failed OutOfMemory\n",
        EventReply::Down => "down\n",
    };
    seen.push_str(text)
}

fn push_text(alloc: Global, seen: &mut String, reply: &Reply) -> Result<(), AllocError> {
    let text = reply_text(alloc, reply)?;
    let pushed = writeln!(seen, "{text}");
    mem::drop(text);
    pushed
}
