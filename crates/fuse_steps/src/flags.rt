//! How a request opens a file, and how the machine does.
ghost use Rattle.std.specs.Prelude.{◌≡◌};
ghost use Rattle.fuse_plans.specs.Flags.{is_exec, is_excl, is_trunc, reads_alone, flags_of_mode, opening, creating, making, listing};

use bitflags::Flags as _;
use fs_model::Flags;
use fuse_plans::Mode;
use fuse_protocol::OpenFlags;

/// Whether the file is to be executed.
pub fn is_exec(flags: OpenFlags) -> bool
    ensures { result ≡ is_exec flags.0 }
{
    flags.bits() & OpenFlags::EXEC.bits() != 0
}

/// Whether the file is to be a new one.
pub fn is_excl(flags: OpenFlags) -> bool
    ensures { result ≡ is_excl flags.0 }
{
    flags.bits() & OpenFlags::EXCL.bits() != 0
}

/// Whether the file is to lose its bytes.
pub fn is_trunc(flags: OpenFlags) -> bool
    ensures { result ≡ is_trunc flags.0 }
{
    flags.bits() & OpenFlags::TRUNC.bits() != 0
}

/// Whether it is opened for nothing but to read: neither to write, nor that it lose its bytes.
pub fn reads_alone(flags: OpenFlags, mode: Mode) -> bool
    ensures { result ≡ reads_alone flags.0 mode }
{
    match mode {
        Mode::Reads => !is_trunc(flags),
        Mode::Writes | Mode::Both => false,
    }
}

// For what a file is opened, and how.
fn flags_with(mode: Mode, is_new: bool, trunc: bool, nofollow: bool, directory: bool) -> Flags
    ensures { result ≡ flags_of_mode mode is_new trunc nofollow directory }
{
    let (read, write) = match mode {
        Mode::Reads => (true, false),
        Mode::Writes => (false, true),
        Mode::Both => (true, true),
    };
    Flags {
        read,
        write,
        create: is_new,
        excl: is_new,
        trunc,
        append: false,
        nofollow,
        directory,
    }
}

/// What is there is opened, and no link.
pub fn opening(mode: Mode, trunc: bool) -> Flags
    ensures { result ≡ opening mode trunc }
{
    flags_with(mode, false, trunc, true, false)
}

/// A file is made that isn't there yet.
pub fn creating(mode: Mode) -> Flags
    ensures { result ≡ creating mode }
{
    flags_with(mode, true, false, false, false)
}

/// A file is made.
pub fn making() -> Flags
    ensures { result ≡ making }
{
    creating(Mode::Writes)
}

/// A directory is opened.
pub fn listing() -> Flags
    ensures { result ≡ listing }
{
    flags_with(Mode::Reads, false, false, false, true)
}
