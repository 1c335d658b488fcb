//! Plays a recording, and compares the replies.

use crate::requests::handles::Handles;
use crate::requests::playing::{put_request, serve_new};
use crate::requests::recording::{Exchange, Recording, seconds_of};
use crate::values::value_after;
use bitflags::Flags;
use fs_cred::Caps;
use fuse_protocol::Time;
use fuse_serving::{Caller, Groups, Kernel};
use std::alloc::{AllocError, Global};
use std::io::{self, ErrorKind};
use std::mem;

// The kernel that was recorded.
#[derive(Drop)]
struct Recorded<'a> {
    alloc: Global,
    name: &'a str,
    exchanges: &'a [Exchange],
    // How many requests were read.
    given: usize,
    // What was recorded of the last of them, until its reply is compared.
    present: Option<&'a Exchange>,
    // What was written since the last of them.
    written: Vec<u8>,
    handles: Handles,
    // Which replies differ.
    told: String,
}

/// Plays a recording: how many requests there are in it, or which of them are replied otherwise than recorded, a line each.
pub fn replay<'a>(
    alloc: Global,
    name: &'a str,
    recording: &'a Recording,
) -> anyhow::Result<String> {
    let mut kernel = Recorded {
        alloc,
        name,
        exchanges: &recording.exchanges,
        given: 0,
        present: None,
        written: Vec::new(alloc),
        handles: Handles::new(alloc),
        told: String::new(alloc),
    };
    let played = play(alloc, recording, &mut kernel);
    let Recorded {
        written,
        handles,
        told,
        ..
    } = kernel;
    mem::drop(written);
    mem::drop(handles);
    value_after(played, told)
}

fn play(alloc: Global, recording: &Recording, kernel: &mut Recorded<'_>) -> anyhow::Result<()> {
    let (served, fs) = serve_new(alloc, recording.start, recording.max_write, kernel)?;
    mem::drop(fs);
    served?;
    kernel.compare()?;
    kernel.compare_count()?;
    Ok(())
}

impl<'a> Recorded<'a> {
    // Compares what was written with what is recorded.
    fn compare(&mut self) -> Result<(), AllocError> {
        let Some(exchange) = self.present else {
            return Ok(());
        };
        self.present = None;
        self.handles
            .take(&exchange.request, &exchange.reply, &mut self.written)?;
        if !are_same(&self.written, &exchange.reply) {
            self.tell_both(&exchange.reply)?;
        }
        self.written.clear();
        Ok(())
    }

    // Tells what was written in place of what is recorded.
    fn tell_both(&mut self, recorded: &[u8]) -> Result<(), AllocError> {
        let name = self.name;
        let number = self.given;
        let recorded = hex::encode(self.alloc, recorded)?;
        let written = hex::encode(self.alloc, &self.written)?;
        writeln!(
            self.told,
            "{name}: request {number}: recorded {recorded}, replied {written}"
        )
    }

    // Tells how many requests there are, where nothing else was told, or that not all were read.
    fn compare_count(&mut self) -> Result<(), AllocError> {
        let name = self.name;
        let count = self.exchanges.len();
        let given = self.given;
        if given != count {
            writeln!(self.told, "{name}: {given} requests of {count} were read")?;
        } else if self.told.is_empty() {
            writeln!(self.told, "{name}: {count} requests")?;
        }
        Ok(())
    }
}

impl<'a> Kernel for Recorded<'a> {
    ghost use Rattle.std.specs.Prelude.{⊤};

    // Nothing is claimed of what passes.
    ghost Does = { λ _ _ _. ⊤ };

    fn read(&mut self, buffer: &mut [u8]) -> io::Result<Option<usize>> {
        self.compare()?;
        let Some(exchange) = self.exchanges.get(self.given) else {
            return Ok(None);
        };
        self.present = Some(exchange);
        self.given = self.given.saturating_add(1);
        match put_request(buffer, &exchange.request) {
            Some(size) => {
                self.handles.give_back(buffer);
                Ok(Some(size))
            }
            None => Err(io::Error::from(ErrorKind::InvalidInput)),
        }
    }

    fn write(&mut self, reply: &[u8]) -> io::Result<bool> {
        self.written.extend_from_slice(reply)?;
        Ok(true)
    }

    fn caller(&mut self, _pid: u32, _uid: u32, _gid: u32) -> Caller {
        match self.present {
            Some(exchange) => Caller {
                groups: groups_of(self.alloc, exchange),
                caps: Caps::all(),
            },
            None => Caller::unknown(),
        }
    }

    fn now(&mut self) -> io::Result<Time> {
        Ok(Time {
            seconds: seconds_of(self.present),
            nanoseconds: 0,
        })
    }
}

fn are_same(one: &[u8], other: &[u8]) -> bool {
    one == other
}

/// The groups that are recorded, where they are known and there is memory for them.
pub fn groups_of(alloc: Global, exchange: &Exchange) -> Option<Groups> {
    let Some(recorded) = &exchange.groups else {
        return None;
    };
    let mut groups = Groups::new(alloc);
    for group in recorded {
        if groups.push(*group).is_err() {
            return None;
        }
    }
    Some(groups)
}
