//! Recordings of requests.
//!
//! They came about like this: shells, tests and small programs ran on a mount of Linux 6.18, and the requests of its kernel were
//! served by a model of the server in another language, which kept what it read, what it was told beside that, and what it
//! replied. Its file system had 1,024 sectors and 64 inodes. A small script brought what it kept into this form, and another one, which
//! makes hashes itself, the names of listings into the order that they have now, with the offsets that a kernel would ask by. Handles are
//! those that the model told; `handles.rt` puts others in their place.
//! Fourteen replies were made anew by the rules of `docs/MOUNT.md`: to who gives a link another owner, changes a file without a name, runs
//! what it can't read, or is granted a look-up whatever its groups are.
//!
//! The first line tells when the server began, in seconds, and the most bytes of one write. Each line below it is a request: the
//! present time in seconds; the supplementary groups of who asks, with commas between them, `-` for none, or `unknown`; the
//! bytes of the request; and those of the reply, `-` for none. Bytes are two digits each, and `78*4096` between dots stands for
//! so many of the same.

use crate::values::value_after;
use anyhow::{anyhow, bail};
use std::alloc::{AllocError, Global};
use std::mem;

/// A recording.
#[derive(Drop)]
pub struct Recording {
    /// When the server began, in seconds.
    pub start: u64,
    /// The most bytes of one write.
    pub max_write: u32,
    pub exchanges: Vec<Exchange>,
}

/// A request, and what was recorded beside it.
#[derive(Drop)]
pub struct Exchange {
    /// The time in seconds.
    pub now: u64,
    /// The supplementary groups of who asks, where they are known.
    pub groups: Option<Vec<u32>>,
    pub request: Vec<u8>,
    /// Empty where there is none.
    pub reply: Vec<u8>,
}

/// When an exchange was recorded, in seconds; 0 where there is none.
pub fn seconds_of(exchange: Option<&Exchange>) -> u64 {
    match exchange {
        Some(exchange) => exchange.now,
        None => 0,
    }
}

impl Recording {
    /// The recording of a file.
    pub fn read(alloc: Global, text: &str) -> anyhow::Result<Recording> {
        let head = text.split_terminator('\n').next().unwrap_or("");
        let (start, max_write) = read_head(head)?;
        let mut recording = Recording {
            start,
            max_write,
            exchanges: Vec::new(alloc),
        };
        value_after(recording.add_all(alloc, text), recording)
    }

    // Adds the requests below the first line.
    fn add_all(&mut self, alloc: Global, text: &str) -> anyhow::Result<()> {
        for line in text.split_terminator('\n').skip(1) {
            self.exchanges.push(Exchange::read(alloc, line)?)?;
        }
        Ok(())
    }
}

fn read_head(line: &str) -> anyhow::Result<(u64, u32)> {
    match head_words(line) {
        Some((start, max_write)) => Ok((start.parse::<u64>()?, max_write.parse::<u32>()?)),
        None => bail!("first line {line}"),
    }
}

fn head_words(line: &str) -> Option<(&str, &str)> {
    line.strip_prefix("start ")?.split_once(" max_write ")
}

impl Exchange {
    fn read(alloc: Global, line: &str) -> anyhow::Result<Exchange> {
        let mut exchange = Exchange {
            now: 0,
            groups: None,
            request: Vec::new(alloc),
            reply: Vec::new(alloc),
        };
        value_after(exchange.take(alloc, line), exchange)
    }

    // Takes what stands in a line.
    fn take(&mut self, alloc: Global, line: &str) -> anyhow::Result<()> {
        let (now, words) = halves(line)?;
        let (groups, words) = halves(words)?;
        let (request, reply) = halves(words)?;
        self.now = now.parse::<u64>()?;
        self.groups = read_groups(alloc, groups)?;
        push_bytes(alloc, &mut self.request, request)?;
        push_bytes(alloc, &mut self.reply, reply)
    }
}

// The first word, and those behind it.
fn halves(words: &str) -> anyhow::Result<(&str, &str)> {
    match words.split_once(' ') {
        Some(halves) => Ok(halves),
        None => Err(anyhow!("too few words")),
    }
}

fn read_groups(alloc: Global, word: &str) -> anyhow::Result<Option<Vec<u32>>> {
    if word == "unknown" {
        return Ok(None);
    }
    let mut groups = Vec::new(alloc);
    Ok(Some(value_after(push_groups(&mut groups, word), groups)?))
}

fn push_groups(groups: &mut Vec<u32>, word: &str) -> anyhow::Result<()> {
    if word != "-" {
        for group in word.split(',') {
            groups.push(group.parse::<u32>()?)?;
        }
    }
    Ok(())
}

fn push_bytes(alloc: Global, bytes: &mut Vec<u8>, word: &str) -> anyhow::Result<()> {
    if word != "-" {
        for part in word.split('.') {
            push_part(alloc, bytes, part)?;
        }
    }
    Ok(())
}

// Adds the bytes of a part.
fn push_part(alloc: Global, bytes: &mut Vec<u8>, part: &str) -> anyhow::Result<()> {
    let (digits, count) = match part.split_once('*') {
        Some((digits, count)) => (digits, count.parse::<u32>()?),
        None => (part, 1),
    };
    let some = hex::decode(alloc, digits)?;
    let pushed = push_times(bytes, &some, count);
    mem::drop(some);
    Ok(pushed?)
}

fn push_times(bytes: &mut Vec<u8>, some: &[u8], count: u32) -> Result<(), AllocError> {
    for _ in 0..count {
        bytes.extend_from_slice(some)?;
    }
    Ok(())
}
