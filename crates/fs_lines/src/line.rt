//! What a line of a script says.
use fs_model::Event;
use std::alloc::{AllocError, AllocFailed};

/// The most bytes that a line has, without its newline.
pub const MAX_LINE: usize = 4096;

/// What a line asks for.
#[derive(Drop)]
pub enum Line {
    /// Nothing: it has no words, or is a comment.
    Blank,
    /// An event of a file system.
    Event(Event),
}

/// What is wrong with a line.
#[derive(Clone, Copy, Debug, PartialEq, Eq)]
pub enum LineFault {
    /// The line has more than 4,096 bytes.
    TooLong = 1,
    /// The line has a byte that is neither a space nor a graphic character of ASCII.
    BadByte = 2,
    /// A `\` without two lower-case hexadecimal digits behind it, or a `"` that is no part of the word `""`.
    BadEscape = 3,
    /// There is no such command with, or without, a pid before it.
    UnknownCommand = 4,
    /// There are too few or too many words.
    WordCount = 5,
    /// A word isn't of its form.
    BadNumber = 6,
    /// A word that is to be the text of an ACL is none.
    BadAcl = 7,
    /// Memory ran out, and the line wasn't performed.
    OutOfMemory = 8,
}

impl LineFault {
    ghost use Rattle.std.specs.Prelude.{◌≡◌};
    ghost use Rattle.fs_lines.specs.Texts.{fault_number, fault_name};

    /// The number that stands for it in replies.
    pub fn number(self) -> u8
        ensures { result ≡ fault_number self }
    {
        self as u8
    }

    /// The fault's name in replies.
    pub fn name(self) -> &'static str
        ensures { result.now ≡ fault_name self }
    {
        match self {
            LineFault::TooLong => "TooLong",
            LineFault::BadByte => "BadByte",
            LineFault::BadEscape => "BadEscape",
            LineFault::UnknownCommand => "UnknownCommand",
            LineFault::WordCount => "WordCount",
            LineFault::BadNumber => "BadNumber",
            LineFault::BadAcl => "BadAcl",
            LineFault::OutOfMemory => "OutOfMemory",
        }
    }
}

impl From<AllocError> for LineFault {
    ghost use Rattle.std.specs.Prelude.{◌≡◌};
    ghost use Rattle.fs_lines.specs.declared.line.LineFault.TheVariants.{OutOfMemory};

    ghost from_gives = { λ _ fault. fault ≡ OutOfMemory };

    fn from(_error: AllocError) -> LineFault {
        LineFault::OutOfMemory
    }
}

impl<T: Drop> From<AllocFailed<T>> for LineFault {
    ghost use Rattle.std.specs.Prelude.{◌≡◌};
    ghost use Rattle.fs_lines.specs.declared.line.LineFault.TheVariants.{OutOfMemory};

    ghost from_gives = { λ _ fault. fault ≡ OutOfMemory };

    fn from(_error: AllocFailed<T>) -> LineFault {
        LineFault::OutOfMemory
    }
}
