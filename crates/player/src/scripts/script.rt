//! Files of scripts.
//!
//! A title stands behind `== `, and the rows of its script below it. Each script of a file begins with the rows that stand
//! above the first title. A row is a line and its reply, with ` -> ` between them; a line without an arrow has no reply.
//!
//! - `9* ` before a row makes nine of it, with the numbers from 1 in place of `#`, and the next ones in place of `+`.
//! - `{a*9}` stands for nine times `a`.
//! - A line `for NAME FIRST LAST` runs the script for each of these numbers, which stands in place of `{NAME}`, and the next one
//!   in place of `{NAME+}`. Of two such lines the second is the inner one.
//! - Of replies with ` or ` between them any is right. `_` is any reply.
//! - Replies with ` | ` between them are wanted in this order as the inner number rises: first the first of each row, then the
//!   second, and so on, each for at least one number; the last of fewer stays. Where LAST is `up`, the run ends once the last
//!   replies are seen.
//! - A line `disk fails at N` makes call N of the disk fail, counted from 0 before the file system is made. On a `disk
//!   without a file system` none is made. A `disk of version 3` has one of that version.
//! - `unmount` is answered `unmounted`, or `unmount: ERROR`. `mount` unmounts, where that wasn't done, and mounts again, and is
//!   answered `mounted`, or by why not. `mount N` lets N calls of the disk pass from then on. A line while nothing is mounted
//!   is answered `down`.
//! - `put SECTOR PLACE BYTE ..` unmounts, and puts these bytes on the disk; it has no reply. `check` unmounts, and checks the disk;
//!   it is answered what a clean disk has, `finding RULE AT`, or by why it wasn't checked.
//! - `arm PASSES`, `restart CHOICE` and `restart CHOICE PASSES` are the events of a disk that stops, and how they are answered
//!   are its replies: a restart picks in each sector what has the number CHOICE of what may stand there.

use crate::scripts::row::{Fill, push_row};
use crate::values::value_after;
use anyhow::bail;
use fs_layout::Version;
use std::alloc::{AllocError, Global};
use std::mem;
use std::num::ParseIntError;

/// Numbers that a script is run for.
#[derive(Clone, Copy)]
pub struct Numbers<'a> {
    /// What stands for one in rows.
    pub name: &'a str,
    /// The first.
    pub first: u64,
    /// The last.
    pub last: u64,
    /// Whether the last replies end the run.
    pub ends: bool,
}

// How many numbers there are at most where no last one is told.
const MOST_NUMBERS: u64 = 500;

// A script without such a line is run once.
const ONCE: Numbers<'static> = Numbers {
    name: "",
    first: 0,
    last: 0,
    ends: false,
};

/// The disk of a script.
#[derive(Clone, Copy)]
pub enum NewDisk {
    /// The disk has an empty file system of this version.
    Made(Version),
    /// The disk has one of version 2, and this call of it fails.
    FailsAt(u64),
    /// The disk has no file system.
    Unmade,
}

// The disk of a script, with the number as it stands in the file.
#[derive(Clone, Copy)]
enum DiskLine<'a> {
    Made(Version),
    FailsAt(&'a str),
    Unmade,
}

/// A script of a file.
#[derive(Drop)]
pub struct Script<'a> {
    pub title: &'a str,
    pub outer: Numbers<'a>,
    pub inner: Numbers<'a>,
    disk: DiskLine<'a>,
    // The rows as they stand in the file.
    rows: Vec<&'a str>,
}

/// The lines of a script for some numbers, and the replies that are wanted.
#[derive(Drop)]
pub struct Rows {
    /// The disk that they run on.
    pub disk: NewDisk,
    /// A line each.
    pub lines: String,
    /// What stands behind the arrows.
    pub replies: Vec<String>,
}

impl<'a> Numbers<'a> {
    fn read(words: &'a str) -> anyhow::Result<Numbers<'a>> {
        match number_words(words) {
            Some((name, first, last)) => Numbers::between(name, first.parse::<u64>()?, last),
            None => bail!("for {words}"),
        }
    }

    fn between(name: &'a str, first: u64, last: &str) -> anyhow::Result<Numbers<'a>> {
        let ends = last == "up";
        let last = if ends {
            first.saturating_add(MOST_NUMBERS)
        } else {
            last.parse::<u64>()?
        };
        Ok(Numbers {
            name,
            first,
            last,
            ends,
        })
    }
}

// The name of some numbers, the first, and the last.
fn number_words(words: &str) -> Option<(&str, &str, &str)> {
    let (name, range) = words.split_once(' ')?;
    let (first, last) = range.split_once(' ')?;
    Some((name, first, last))
}

impl<'a> Script<'a> {
    /// The script of a title and what stands below it, in a file with this above its first title.
    pub fn read(alloc: Global, head: &'a str, text: &'a str) -> anyhow::Result<Script<'a>> {
        let (title, below) = text.split_once('\n').unwrap_or((text, ""));
        let mut script = Script {
            title,
            outer: ONCE,
            inner: ONCE,
            disk: DiskLine::Made(Version::Two),
            rows: Vec::new(alloc),
        };
        value_after(script.add_all(head, below), script)
    }

    // Adds the rows above the first title, and the lines below its own.
    fn add_all(&mut self, head: &'a str, below: &'a str) -> anyhow::Result<()> {
        self.add_rows(head)?;
        for line in below.split_terminator('\n') {
            self.add(line)?;
        }
        Ok(())
    }

    fn add_rows(&mut self, head: &'a str) -> Result<(), AllocError> {
        for row in head.split_terminator('\n') {
            self.rows.push(row)?;
        }
        Ok(())
    }

    fn add(&mut self, line: &'a str) -> anyhow::Result<()> {
        if let Some(words) = line.strip_prefix("for ") {
            self.outer = self.inner;
            self.inner = Numbers::read(words)?;
        } else if let Some(call) = line.strip_prefix("disk fails at ") {
            self.disk = DiskLine::FailsAt(call);
        } else if line == "disk of version 3" {
            self.disk = DiskLine::Made(Version::Three);
        } else if line == "disk without a file system" {
            self.disk = DiskLine::Unmade;
        } else {
            self.rows.push(line)?;
        }
        Ok(())
    }

    /// The lines and their replies, where these are the outer and the inner number.
    pub fn rows(&self, alloc: Global, outer: u64, inner: u64) -> anyhow::Result<Rows> {
        let fill = Fill {
            outer: (self.outer.name, outer),
            inner: (self.inner.name, inner),
        };
        let mut rows = Rows {
            disk: new_disk(alloc, &fill, self.disk)?,
            lines: String::new(alloc),
            replies: Vec::new(alloc),
        };
        Ok(value_after(rows.add_all(alloc, &fill, &self.rows), rows)?)
    }
}

fn new_disk(alloc: Global, fill: &Fill<'_>, disk: DiskLine<'_>) -> anyhow::Result<NewDisk> {
    Ok(match disk {
        DiskLine::Made(version) => NewDisk::Made(version),
        DiskLine::FailsAt(call) => NewDisk::FailsAt(number_in(filled(alloc, fill, call)?)?),
        DiskLine::Unmade => NewDisk::Unmade,
    })
}

// The number that a row is.
fn number_in(row: String) -> Result<u64, ParseIntError> {
    let number = row.as_str().trim_end().parse::<u64>();
    mem::drop(row);
    number
}

// The rows that a row makes.
fn filled(alloc: Global, fill: &Fill<'_>, row: &str) -> Result<String, AllocError> {
    let mut text = String::new(alloc);
    value_after(push_row(&mut text, fill, row), text)
}

impl Rows {
    fn add_all(&mut self, alloc: Global, fill: &Fill<'_>, rows: &[&str]) -> Result<(), AllocError> {
        for row in rows {
            self.add_made(alloc, fill, row)?;
        }
        Ok(())
    }

    // Adds the rows that a row makes.
    fn add_made(&mut self, alloc: Global, fill: &Fill<'_>, row: &str) -> Result<(), AllocError> {
        let text = filled(alloc, fill, row)?;
        let added = self.add_filled(alloc, text.as_str());
        mem::drop(text);
        added
    }

    fn add_filled(&mut self, alloc: Global, text: &str) -> Result<(), AllocError> {
        for row in text.split_terminator('\n') {
            self.add(alloc, row)?;
        }
        Ok(())
    }

    fn add(&mut self, alloc: Global, row: &str) -> Result<(), AllocError> {
        match row.split_once(" -> ") {
            Some((line, reply)) => {
                self.add_reply(alloc, reply)?;
                writeln!(self.lines, "{line}")
            }
            None => writeln!(self.lines, "{row}"),
        }
    }

    fn add_reply(&mut self, alloc: Global, reply: &str) -> Result<(), AllocError> {
        self.replies.push(String::from_str(alloc, reply)?)?;
        Ok(())
    }

    /// How many replies a row has at most.
    pub fn phases(&self) -> usize {
        let mut most = 1;
        for reply in &self.replies {
            most = most.max(reply.as_str().split(" | ").count());
        }
        most
    }

    /// Whether these are the replies: of several the one of this index, or the last.
    pub fn are(&self, seen: &str, phase: usize) -> bool {
        let mut rest = seen.split_terminator('\n');
        for wanted in &self.replies {
            match rest.next() {
                Some(reply) if is_wanted(reply, wanted.as_str(), phase) => {}
                _ => return false,
            }
        }
        rest.next().is_none()
    }
}

fn is_wanted(reply: &str, wanted: &str, phase: usize) -> bool {
    let wanted = wanted
        .split(" | ")
        .take(phase.saturating_add(1))
        .last()
        .unwrap_or("");
    wanted
        .split(" or ")
        .any(|wanted| wanted == "_" || reply == wanted)
}
