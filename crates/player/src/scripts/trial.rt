//! Tries scripts for all their numbers.

use crate::scripts::script::{NewDisk, Rows, Script};
use crate::scripts::{served, stopped};
use fs_layout::Version;
use std::alloc::{AllocError, Global};
use std::mem;

/// `ok`, or the first numbers for which the script isn't answered as its rows say, and how it is answered.
pub fn outcome(alloc: Global, script: &Script<'_>) -> anyhow::Result<String> {
    for outer in script.outer.first..=script.outer.last {
        if let Some(other) = other_at(alloc, script, outer)? {
            return Ok(other);
        }
    }
    Ok(String::from_str(alloc, "ok")?)
}

// Which of the replies with ` | ` between them are seen, and how many there are.
#[derive(Clone, Copy)]
struct Phases {
    phase: usize,
    phases: usize,
}

impl Phases {
    fn is_last(self) -> bool {
        self.phase.saturating_add(1) == self.phases
    }
}

// What is other than wanted at this outer number.
fn other_at(alloc: Global, script: &Script<'_>, outer: u64) -> anyhow::Result<Option<String>> {
    let mut phases = Phases {
        phase: 0,
        phases: 1,
    };
    for inner in script.inner.first..=script.inner.last {
        if let Some(other) = other_at_both(alloc, script, outer, inner, &mut phases)? {
            return Ok(Some(other));
        }
        if script.inner.ends && phases.is_last() {
            return Ok(None);
        }
    }
    if phases.is_last() {
        return Ok(None);
    }
    let Phases { phase, phases } = phases;
    Ok(Some(format!(in alloc; "replies {phase} of {phases} come last")?))
}

// What is other than wanted at these numbers.
fn other_at_both(
    alloc: Global,
    script: &Script<'_>,
    outer: u64,
    inner: u64,
    phases: &mut Phases,
) -> anyhow::Result<Option<String>> {
    let rows = script.rows(alloc, outer, inner)?;
    phases.phases = rows.phases();
    let other = other_than(alloc, &rows, inner > script.inner.first, phases);
    mem::drop(rows);
    match other? {
        Some(seen) => Ok(Some(told(alloc, outer, inner, seen)?)),
        None => Ok(None),
    }
}

// How these numbers are answered.
fn told(alloc: Global, outer: u64, inner: u64, seen: String) -> Result<String, AllocError> {
    let told = format!(in alloc; "at {outer} {inner}\n{seen}");
    mem::drop(seen);
    told
}

// How these rows are answered, where that isn't wanted. The next replies may be seen from now on.
fn other_than(
    alloc: Global,
    rows: &Rows,
    may_rise: bool,
    phases: &mut Phases,
) -> anyhow::Result<Option<String>> {
    let seen = replies(alloc, rows.disk, rows.lines.as_str())?;
    if may_rise && !rows.are(seen.as_str(), phases.phase) {
        phases.phase = phases.phase.saturating_add(1);
    }
    Ok(if rows.are(seen.as_str(), phases.phase) {
        None
    } else {
        Some(seen)
    })
}

// What is answered to the lines on a new disk.
fn replies(alloc: Global, disk: NewDisk, lines: &str) -> anyhow::Result<String> {
    match disk {
        NewDisk::Unmade => stopped::replies_without_mkfs(alloc, lines),
        NewDisk::Made(version) if stopped::has_stops(lines) => {
            stopped::replies(alloc, version, lines)
        }
        NewDisk::Made(version) => served::replies(alloc, version, u64::MAX, lines),
        NewDisk::FailsAt(call) => served::replies(alloc, Version::Two, call, lines),
    }
}
