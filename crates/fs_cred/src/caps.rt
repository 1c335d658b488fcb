//! Capabilities: what a process may do beyond its ownership, after capabilities(7).
ghost use Rattle.std.specs.Prelude.{⊤};

use bitflags::{Flag, Flags};

/// A set of capabilities. Their names, as `from_name` takes them, are those of capabilities(7) in small letters, with dashes
/// and without `CAP_`.
#[derive(Clone, Copy, PartialEq, Eq)]
pub struct Caps(u32);

impl Caps {
    /// To give an object another owner or group.
    pub const CHOWN: Caps = Caps(1);

    /// To pass all permissions of files and directories, but for executing a file without any execute bit.
    pub const DAC_OVERRIDE: Caps = Caps(2);

    /// To read files and directories, and to search directories.
    pub const DAC_READ_SEARCH: Caps = Caps(4);

    /// To count as the owner of each object, where its mode or its ACL is changed, and where its name is removed.
    pub const FOWNER: Caps = Caps(8);

    /// To keep the set-group-ID bit of a directory whose group one isn't in.
    pub const FSETID: Caps = Caps(16);

    const FLAGS: &'static [Flag<Caps>] = &[
        Flag {
            name: "chown",
            value: Caps::CHOWN,
        },
        Flag {
            name: "dac-override",
            value: Caps::DAC_OVERRIDE,
        },
        Flag {
            name: "dac-read-search",
            value: Caps::DAC_READ_SEARCH,
        },
        Flag {
            name: "fowner",
            value: Caps::FOWNER,
        },
        Flag {
            name: "fsetid",
            value: Caps::FSETID,
        },
    ];
}

impl Flags for Caps {
    ghost use Rattle.fs_cred.specs.Capabilities.{named_caps};

    type Bits = u32;

    ghost exact = { ⊤ };

    ghost table = { named_caps };

    ghost set_of = { λ caps. caps.0 };

    fn flags<'a>() -> &'a [Flag<Caps>] {
        Caps::FLAGS
    }

    fn bits(&self) -> u32 {
        self.0
    }

    fn from_bits_retain(bits: u32) -> Caps {
        Caps(bits)
    }
}
