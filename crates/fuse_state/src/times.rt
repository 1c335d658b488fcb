//! Times of objects.

ghost use Rattle.std.specs.Prelude.{◌≡◌};
ghost use Rattle.fuse_state.specs.Stamps.{stamp_of, time_of, times_shown};

use fs_model::Stamps;
use fuse_protocol::Time;

const SECOND: u64 = 1_000_000_000;

/// When an object was last read, when its contents last changed, and when anything of it did.
#[derive(Clone, Copy)]
pub struct Times {
    pub atime: Time,
    pub mtime: Time,
    pub ctime: Time,
}

/// A time as the machine counts it: in nanoseconds since 1970. Of a time before, or past the year 2554, it is the nearest that can be
/// counted; 0 is no time.
pub fn stamp_of(time: Time) -> u64
    ensures { result ≡ stamp_of time }
{
    if time.seconds >= 1 << 63 {
        return 1;
    }
    time.seconds
        .saturating_mul(SECOND)
        .saturating_add(u64::from(time.nanoseconds))
        .max(1)
}

// The time that is shown: where it isn't known, when the server began.
fn time_of(start: Time, stamp: u64) -> Time
    ensures { result ≡ time_of start stamp }
{
    if stamp == 0 {
        return start;
    }
    Time {
        seconds: stamp / SECOND,
        nanoseconds: (stamp % SECOND) as u32,
    }
}

/// The times that are shown of what the machine has.
pub fn times_shown(start: Time, stamps: Stamps) -> Times
    ensures { result ≡ times_shown start stamps }
{
    Times {
        atime: time_of(start, stamps.atime),
        mtime: time_of(start, stamps.mtime),
        ctime: time_of(start, stamps.ctime),
    }
}
