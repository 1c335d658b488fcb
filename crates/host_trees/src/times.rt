//! Times of the host's objects, as the file system has them: nanoseconds since 1970.
use std::fs::{FileTimes, Metadata};
use std::os::unix::fs::MetadataExt;
use std::time::{Duration, SystemTime, UNIX_EPOCH};

const NANOS: u64 = 1_000_000_000;

/// The times of an object.
#[derive(Clone, Copy)]
pub(crate) struct Times {
    pub(crate) accessed: u64,
    pub(crate) modified: u64,
    pub(crate) changed: u64,
}

// Nanoseconds since 1970, unless it is before that, or too late for 64 bits.
fn since_1970(seconds: i64, nanos: i64) -> Option<u64> {
    let seconds = u64::try_from(seconds).ok()?;
    let nanos = u64::try_from(nanos).ok()?;
    seconds.checked_mul(NANOS)?.checked_add(nanos)
}

/// The times of an object of the host, unless one of them is out of range.
pub(crate) fn times_of(metadata: &Metadata) -> Option<Times> {
    let accessed = since_1970(metadata.atime(), metadata.atime_nsec())?;
    let modified = since_1970(metadata.mtime(), metadata.mtime_nsec())?;
    let changed = since_1970(metadata.ctime(), metadata.ctime_nsec())?;
    Some(Times {
        accessed,
        modified,
        changed,
    })
}

fn system_time(nanos: u64) -> Option<SystemTime> {
    UNIX_EPOCH.checked_add(Duration::from_nanos(nanos))
}

/// The times that a host's object is to get. One that isn't known stays as the host has it.
pub(crate) fn file_times(accessed: u64, modified: u64) -> FileTimes {
    let mut times = FileTimes::new();
    if accessed != 0 {
        if let Some(time) = system_time(accessed) {
            times = times.set_accessed(time);
        }
    }
    if modified != 0 {
        if let Some(time) = system_time(modified) {
            times = times.set_modified(time);
        }
    }
    times
}
