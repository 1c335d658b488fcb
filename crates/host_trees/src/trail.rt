//! The way of a walk through a tree of the host, which nobody can lead out of it.
use crate::fault::CopyFault;
use crate::held::{Identity, check_proc, open_directory, open_seen, path_through};
use crate::lack::Lack;
use std::alloc::{AllocError, Global};
use std::fs::{self, Metadata, OpenFile};
use std::os::fd::AsRawFd;
use std::rt::Files;

// How many directories below the top are open at once, at most: a tree may be deeper than a process may have open files.
const MOST_OPEN: usize = 64;

/// A step of a walk: from the directory of a number, or from the top, to the one that had this name there.
#[derive(Drop)]
pub(crate) struct Step {
    from: Option<usize>,
    name: String,
    seen: Identity,
}

impl Step {
    /// The step to a directory that was seen.
    pub(crate) fn new(
        alloc: Global,
        from: Option<usize>,
        name: &str,
        seen: Identity,
    ) -> Result<Step, AllocError> {
        let name = String::from_str(alloc, name)?;
        Ok(Step { from, name, seen })
    }
}

// A directory that is open, by its number.
#[derive(Drop)]
struct Open<F> {
    number: usize,
    file: F,
}

/// The directories of a walk. Each is opened through the one above it, and has to be the one that was seen there.
///
/// The top stays open. Of the others some are, each below the one before it; those in between are opened again as the need comes.
#[derive(Drop)]
pub(crate) struct Trail<F> {
    top: F,
    // The step to each directory that was entered, by its number.
    steps: Vec<Step>,
    open: Vec<Open<F>>,
}

/// A directory that was entered: its number, unless it is the top, and its path as long as the walk stays there.
#[derive(Drop)]
pub(crate) struct Entered {
    pub(crate) number: Option<usize>,
    pub(crate) path: String,
}

/// Begins a walk at the directory that has this path now.
pub(crate) fn begin<R: Files<File: AsRawFd>>(
    rt: &R,
    alloc: Global,
    from: &str,
) -> Result<Trail<R::File>, CopyFault> {
    check_from(rt, from)?;
    check_proc(rt, alloc)?;
    match open_directory(rt, alloc, from) {
        Ok(top) => Ok(Trail {
            top,
            steps: Vec::new(alloc),
            open: Vec::new(alloc),
        }),
        Err(Lack::Memory) => Err(CopyFault::OutOfMemory),
        Err(_) => Err(CopyFault::NoDirectory),
    }
}

fn check_from<R: Files>(rt: &R, from: &str) -> Result<(), CopyFault> {
    match fs::metadata(rt, from) {
        Ok(metadata) if metadata.is_dir() => Ok(()),
        _ => Err(CopyFault::NoDirectory),
    }
}

impl<F: AsRawFd + OpenFile + Drop> Trail<F> {
    /// What the top has.
    pub(crate) fn metadata(&self) -> Result<Metadata, CopyFault> {
        match self.top.metadata() {
            Ok(metadata) => Ok(metadata),
            Err(_) => Err(CopyFault::NoDirectory),
        }
    }

    /// Enters a directory, or the top.
    pub(crate) fn enter<R: Files<File = F>>(
        &mut self,
        rt: &R,
        alloc: Global,
        step: Option<Step>,
    ) -> Result<Entered, Lack> {
        let mut number = None;
        if let Some(step) = step {
            number = Some(self.steps.len());
            self.steps.push(step)?;
        }
        self.reach(rt, alloc, number)?;
        let path = self.path(alloc)?;
        Ok(Entered { number, path })
    }

    // The path of the lowest directory that is open.
    fn path(&self, alloc: Global) -> Result<String, AllocError> {
        match self.open.last() {
            Some(open) => path_through(alloc, &open.file),
            None => path_through(alloc, &self.top),
        }
    }

    // Makes a directory the lowest one that is open.
    fn reach<R: Files<File = F>>(
        &mut self,
        rt: &R,
        alloc: Global,
        number: Option<usize>,
    ) -> Result<(), Lack> {
        let missing = self.leave_for(alloc, number)?;
        for number in missing.iter().rev() {
            self.descend(rt, alloc, *number)?;
        }
        Ok(())
    }

    // Closes what isn't above a directory, or the directory itself. What has to be opened then comes back, the lowest first.
    fn leave_for(&mut self, alloc: Global, number: Option<usize>) -> Result<Vec<usize>, Lack> {
        let mut missing = Vec::new(alloc);
        let mut above = number;
        // Bounded, since each function has to end.
        for _ in 0..u64::MAX {
            match above {
                Some(number) if !self.is_open(number) => {
                    missing.push(number)?;
                    above = self.above(number);
                }
                _ => break,
            }
        }
        self.close_below(above);
        Ok(missing)
    }

    fn is_open(&self, number: usize) -> bool {
        self.open.iter().any(|open| open.number == number)
    }

    // The directory above one.
    fn above(&self, number: usize) -> Option<usize> {
        match self.steps.get(number) {
            Some(step) => step.from,
            None => None,
        }
    }

    // The lowest directory that is open, unless it is the top.
    fn lowest(&self) -> Option<usize> {
        match self.open.last() {
            Some(open) => Some(open.number),
            None => None,
        }
    }

    // Closes what is below a directory that is open.
    fn close_below(&mut self, number: Option<usize>) {
        for _ in 0..self.open.len() {
            if self.lowest() == number {
                return;
            }
            self.open.pop();
        }
    }

    // Opens a directory of the lowest one that is open, and closes that where too many would be open.
    fn descend<R: Files<File = F>>(
        &mut self,
        rt: &R,
        alloc: Global,
        number: usize,
    ) -> Result<(), Lack> {
        let file = self.open_next(rt, alloc, number)?;
        if self.open.len() >= MOST_OPEN {
            self.open.pop();
        }
        self.open.push(Open { number, file })?;
        Ok(())
    }

    fn open_next<R: Files<File = F>>(
        &self,
        rt: &R,
        alloc: Global,
        number: usize,
    ) -> Result<F, Lack> {
        let Some(step) = self.steps.get(number) else {
            return Err(Lack::Changed);
        };
        let above = self.path(alloc)?;
        let name = step.name.as_str();
        let path = format!(in alloc; "{above}/{name}")?;
        open_seen(rt, alloc, path.as_str(), step.seen)
    }
}
