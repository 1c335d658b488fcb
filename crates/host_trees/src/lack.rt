//! What is lacking in a copy, and why.
use fs_cred::{Errno, Refusal};
use fs_model::Reply;
use std::alloc::{AllocError, AllocFailed};
use std::io::{self, ErrorKind, Write};

/// Why an object, or something of it, isn't copied.
#[derive(Clone, Copy)]
pub(crate) enum Lack {
    /// Neither a file, a directory nor a symbolic link.
    Kind,
    /// A name that is no text in UTF-8.
    Name,
    /// A bit of its mode that such an object can't have in the file system.
    Bits,
    /// One of its times is before 1970, or after 2554.
    Times,
    /// An access list, which the host's modes can't say.
    List,
    /// Another object took the name of one that was seen.
    Changed,
    /// The host refuses.
    Host(ErrorKind),
    /// The file system refuses.
    Refused(Errno),
    /// The file system did less than was asked.
    Short,
    /// Memory ran out.
    Memory,
}

impl From<AllocError> for Lack {
    fn from(_error: AllocError) -> Lack {
        Lack::Memory
    }
}

impl<T: Drop> From<AllocFailed<T>> for Lack {
    fn from(_error: AllocFailed<T>) -> Lack {
        Lack::Memory
    }
}

impl From<io::Error> for Lack {
    fn from(error: io::Error) -> Lack {
        match error.kind() {
            ErrorKind::OutOfMemory => Lack::Memory,
            ErrorKind::InvalidFilename => Lack::Name,
            kind => Lack::Host(kind),
        }
    }
}

// The error of a refusal.
fn errno_of(refusal: Refusal) -> Errno {
    match refusal {
        Refusal::Denied(denial) => denial.errno,
        Refusal::Failed(errno) => errno,
    }
}

/// Why less was done than was asked for.
pub(crate) fn lack_in(reply: Reply) -> Lack {
    let lack = match &reply {
        Reply::Refused(refusal) => Lack::Refused(errno_of(*refusal)),
        _ => Lack::Short,
    };
    reply.discard();
    lack
}

impl Lack {
    // What is lacking. More is known where the host refuses.
    fn text(self) -> &'static str {
        match self {
            Lack::Kind => "no file, directory or link",
            Lack::Name => "a name that is no UTF-8",
            Lack::Bits => "set-id or sticky bits",
            Lack::Times => "times before 1970 or after 2554",
            Lack::List => "an access list",
            Lack::Changed => "changed meanwhile",
            Lack::Host(_) => "host",
            Lack::Refused(errno) => errno.name(),
            Lack::Short => "cut short",
            Lack::Memory => "out of memory",
        }
    }
}

/// Names an object, and what is lacking. A line that can't be written is left out.
pub(crate) fn tell<E: Write>(err: &mut E, path: &str, lack: Lack) {
    let text = lack.text();
    let _ = match lack {
        Lack::Host(kind) => writeln!(err, "{path:?}: {text}: {kind:?}"),
        _ => writeln!(err, "{path:?}: {text}"),
    };
}
