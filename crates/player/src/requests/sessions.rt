//! Plays requests at random.

use crate::requests::chance::Chance;
use crate::requests::changing::{change, has_to_end, is_reply_to};
use crate::requests::leaving::look_after;
use crate::requests::playing::{put_request, serve_new};
use crate::requests::recording::{Exchange, Recording, seconds_of};
use crate::requests::replaying::groups_of;
use anyhow::bail;
use bitflags::Flags;
use fs_cred::Caps;
use fuse_protocol::Time;
use fuse_serving::{Caller, Kernel, ServeFault};
use std::alloc::{AllocError, Global};
use std::io::{self, ErrorKind};
use std::mem;

// A kernel that plays a recording, with other requests in between, and with bytes that are changed.
#[derive(Drop)]
struct Changing<'a> {
    alloc: Global,
    chance: Chance,
    recordings: &'a [Recording],
    // The recording that is played.
    played: &'a Recording,
    // How many of its requests were read.
    given: usize,
    // How many requests are still to be read.
    left: u64,
    // What was recorded of the request that was read last.
    present: Option<&'a Exchange>,
    request: Vec<u8>,
    // Whether it has its reply.
    replied: bool,
    // Whether the server has to end, or had to and read on.
    last: bool,
    read_on: bool,
    // Whether each reply was of its form, and the only one.
    replies_well: bool,
}

/// Plays so many requests, on a new file system after each few hundred: `COUNT:SEED`.
pub fn play_sessions(
    rt: &HostRuntime,
    recordings: &[Recording],
    words: &str,
) -> anyhow::Result<()> {
    let (count, seed) = count_and_seed(words)?;
    play_all(rt.alloc(), recordings, count, seed)?;
    println!(rt; "seed {seed}: {count} requests at random")?;
    Ok(())
}

fn count_and_seed(words: &str) -> anyhow::Result<(u64, u64)> {
    match words.split_once(':') {
        Some((count, seed)) => Ok((count.parse::<u64>()?, seed.parse::<u64>()?)),
        None => bail!("random:{words}"),
    }
}

fn play_all(alloc: Global, recordings: &[Recording], count: u64, seed: u64) -> anyhow::Result<()> {
    let mut chance = Chance::new(seed);
    let mut left = count;
    for session in 1..=count {
        if left == 0 {
            break;
        }
        match play_session(alloc, &mut chance, recordings, left) {
            Ok(played) => left = left.saturating_sub(played),
            Err(fault) => bail!("seed {seed}: session {session}: {fault}"),
        }
    }
    Ok(())
}

// Plays at most so many requests, and tells how many it were.
fn play_session(
    alloc: Global,
    chance: &mut Chance,
    recordings: &[Recording],
    most: u64,
) -> anyhow::Result<u64> {
    let Some(played) = chance.pick(recordings) else {
        bail!("no recordings");
    };
    let size = chance.below(400).saturating_add(1).min(most);
    let mut kernel = Changing {
        alloc,
        chance: *chance,
        recordings,
        played,
        given: 0,
        left: size,
        present: None,
        request: Vec::new(alloc),
        replied: false,
        last: false,
        read_on: false,
        replies_well: true,
    };
    let outcome = play(alloc, &mut kernel);
    *chance = kernel.chance;
    let left = kernel.left;
    mem::drop(kernel);
    outcome?;
    Ok(size.saturating_sub(left))
}

// Serves a kernel, and looks at what it was replied, and at what is left.
fn play(alloc: Global, kernel: &mut Changing<'_>) -> anyhow::Result<()> {
    let Recording {
        start,
        max_write,
        ..
    } = kernel.played;
    let (served, fs) = serve_new(alloc, *start, *max_write, kernel)?;
    match kernel.judge(served) {
        Ok(()) => look_after(alloc, fs),
        Err(fault) => {
            mem::drop(fs);
            Err(fault)
        }
    }
}

impl<'a> Changing<'a> {
    fn judge(&self, served: Result<(), ServeFault>) -> anyhow::Result<()> {
        let left = self.left;
        if let Err(fault) = served {
            bail!("{left} left: {fault}");
        }
        match self.misdeed() {
            Some(misdeed) => bail!("{left} left: {misdeed}"),
            None => Ok(()),
        }
    }

    // What the server did that it may not.
    fn misdeed(&self) -> Option<&'static str> {
        if self.read_on {
            Some("the server went on")
        } else if !self.last && self.left > 0 {
            Some("the server ended")
        } else if !self.replies_well {
            Some("a reply isn't of its form, or is one too many")
        } else {
            None
        }
    }

    // The next one of the recording, or any of all.
    fn next_exchange(&mut self) -> Option<&'a Exchange> {
        if let Some(exchange) = self.played.exchanges.get(self.given) {
            if self.given == 0 || !self.chance.is_once_in(8) {
                self.given = self.given.saturating_add(1);
                return Some(exchange);
            }
        }
        let recording = self.chance.pick(self.recordings)?;
        self.chance.pick(&recording.exchanges)
    }

    // Makes the next request. The first one stays as it was recorded: it makes the server's own process.
    fn make_request(&mut self) -> Result<(), AllocError> {
        let is_first = self.present.is_none();
        self.present = self.next_exchange();
        self.request.clear();
        if let Some(exchange) = self.present {
            self.request.extend_from_slice(&exchange.request)?;
        }
        if !is_first && self.chance.is_once_in(3) {
            change(&mut self.chance, &mut self.request)?;
        }
        self.replied = false;
        self.last = has_to_end(&self.request);
        Ok(())
    }
}

impl<'a> Kernel for Changing<'a> {
    ghost use Rattle.std.specs.Prelude.{⊤};

    // Nothing is claimed of what passes.
    ghost Does = { λ _ _ _. ⊤ };

    fn read(&mut self, buffer: &mut [u8]) -> io::Result<Option<usize>> {
        if self.last {
            self.read_on = true;
        }
        if self.left == 0 || self.read_on {
            return Ok(None);
        }
        self.left = self.left.saturating_sub(1);
        self.make_request()?;
        match put_request(buffer, &self.request) {
            Some(size) => Ok(Some(size)),
            None => Err(io::Error::from(ErrorKind::InvalidInput)),
        }
    }

    fn write(&mut self, reply: &[u8]) -> io::Result<bool> {
        if self.replied || !is_reply_to(reply, &self.request) {
            self.replies_well = false;
        }
        self.replied = true;
        Ok(!self.chance.is_once_in(30))
    }

    fn caller(&mut self, _pid: u32, _uid: u32, _gid: u32) -> Caller {
        let Some(exchange) = self.present else {
            return Caller::unknown();
        };
        if self.chance.is_once_in(20) {
            return Caller::unknown();
        }
        let caps = if self.chance.is_once_in(4) {
            Caps::from_bits_retain(self.chance.small(32))
        } else {
            Caps::all()
        };
        Caller {
            groups: groups_of(self.alloc, exchange),
            caps,
        }
    }

    fn now(&mut self) -> io::Result<Time> {
        Ok(Time {
            seconds: seconds_of(self.present),
            nanoseconds: self.chance.small(1_000_000_000),
        })
    }
}
