//! For what a request opens a file.
ghost use Rattle.std.specs.Prelude.{◌≡◌};
ghost use Rattle.fuse_plans.specs.Flags.{mode_in};

use bitflags::Flags as _;
use fuse_protocol::OpenFlags;

/// For what a file is opened.
#[derive(Clone, Copy)]
pub enum Mode {
    Reads,
    Writes,
    Both,
}

// Of the bits that tell the mode: with neither, a file is opened for reading.
const MODE_BITS: u32 = 3;

impl Mode {
    /// The mode that the flags tell; 3 is no mode.
    pub fn of_flags(flags: OpenFlags) -> Option<Mode>
        ensures { result ≡ mode_in flags.0 }
    {
        match flags.bits() & MODE_BITS {
            0 => Some(Mode::Reads),
            1 => Some(Mode::Writes),
            2 => Some(Mode::Both),
            _ => None,
        }
    }
}
