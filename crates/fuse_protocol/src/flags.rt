//! Sets of flags that requests carry.
ghost use Rattle.std.specs.Prelude.{⊤};

use bitflags::{Flag, Flags};

/// How a file is opened: the flags of open(2) on x86-64, and whether it is to be executed. Others may be set too.
#[derive(Clone, Copy)]
pub struct OpenFlags(pub(crate) u32);

impl OpenFlags {
    /// For writing. With neither this nor [`OpenFlags::READ_WRITE`] for reading; both together are no way to open a file.
    pub const WRITE_ONLY: OpenFlags = OpenFlags(1);

    /// For reading and writing.
    pub const READ_WRITE: OpenFlags = OpenFlags(2);

    /// To be executed.
    pub const EXEC: OpenFlags = OpenFlags(0x20);

    /// Only if this makes the file.
    pub const EXCL: OpenFlags = OpenFlags(0o200);

    /// The file loses its bytes.
    pub const TRUNC: OpenFlags = OpenFlags(0o1000);

    const FLAGS: &'static [Flag<OpenFlags>] = &[
        Flag {
            name: "write-only",
            value: OpenFlags::WRITE_ONLY,
        },
        Flag {
            name: "read-write",
            value: OpenFlags::READ_WRITE,
        },
        Flag {
            name: "exec",
            value: OpenFlags::EXEC,
        },
        Flag {
            name: "excl",
            value: OpenFlags::EXCL,
        },
        Flag {
            name: "trunc",
            value: OpenFlags::TRUNC,
        },
    ];
}

impl Flags for OpenFlags {
    ghost use Rattle.fuse_protocol.specs.Flags.{open_flags};

    type Bits = u32;

    ghost exact = { ⊤ };

    ghost table = { open_flags };

    ghost set_of = { λ flags. flags.0 };

    fn flags<'a>() -> &'a [Flag<OpenFlags>] {
        OpenFlags::FLAGS
    }

    fn bits(&self) -> u32 {
        self.0
    }

    fn from_bits_retain(bits: u32) -> OpenFlags {
        OpenFlags(bits)
    }
}

/// What the kernel offers when a file system is mounted, and what is taken of it. Others may be set too.
#[derive(Clone, Copy)]
pub struct InitFlags(pub(crate) u32);

impl InitFlags {
    /// The kernel may ask for what it reads ahead before it has what it asked for earlier.
    pub const ASYNC_READ: InitFlags = InitFlags(1 << 0);

    /// Opening a file takes its bytes away, where that is asked.
    pub const ATOMIC_O_TRUNC: InitFlags = InitFlags(1 << 3);

    /// Writes may have more than 4,096 bytes.
    pub const BIG_WRITES: InitFlags = InitFlags(1 << 5);

    /// The umask isn't applied by the kernel.
    pub const DONT_MASK: InitFlags = InitFlags(1 << 6);

    /// The kernel may ask for the entries of a directory with what look-ups of their names tell: READDIRPLUS.
    pub const DO_READDIRPLUS: InitFlags = InitFlags(1 << 13);

    /// It asks so where it expects that this is wanted, and for the entries alone elsewhere.
    pub const READDIRPLUS_AUTO: InitFlags = InitFlags(1 << 14);

    /// The kernel may ask for names in one directory side by side.
    pub const PARALLEL_DIROPS: InitFlags = InitFlags(1 << 18);

    /// Set-id bits are taken away by the file system.
    pub const HANDLE_KILLPRIV: InitFlags = InitFlags(1 << 19);

    /// The kernel asks for modes and ACLs, and refuses by them first.
    pub const POSIX_ACL: InitFlags = InitFlags(1 << 20);

    /// The answer says how many pages a request may have.
    pub const MAX_PAGES: InitFlags = InitFlags(1 << 22);

    /// The kernel may keep the targets of links.
    pub const CACHE_SYMLINKS: InitFlags = InitFlags(1 << 23);

    /// Set-id bits are taken away by the file system with each change, so the kernel asks for no capabilities before a write.
    pub const HANDLE_KILLPRIV_V2: InitFlags = InitFlags(1 << 28);

    const FLAGS: &'static [Flag<InitFlags>] = &[
        Flag {
            name: "async-read",
            value: InitFlags::ASYNC_READ,
        },
        Flag {
            name: "atomic-o-trunc",
            value: InitFlags::ATOMIC_O_TRUNC,
        },
        Flag {
            name: "big-writes",
            value: InitFlags::BIG_WRITES,
        },
        Flag {
            name: "dont-mask",
            value: InitFlags::DONT_MASK,
        },
        Flag {
            name: "do-readdirplus",
            value: InitFlags::DO_READDIRPLUS,
        },
        Flag {
            name: "readdirplus-auto",
            value: InitFlags::READDIRPLUS_AUTO,
        },
        Flag {
            name: "parallel-dirops",
            value: InitFlags::PARALLEL_DIROPS,
        },
        Flag {
            name: "handle-killpriv",
            value: InitFlags::HANDLE_KILLPRIV,
        },
        Flag {
            name: "posix-acl",
            value: InitFlags::POSIX_ACL,
        },
        Flag {
            name: "max-pages",
            value: InitFlags::MAX_PAGES,
        },
        Flag {
            name: "cache-symlinks",
            value: InitFlags::CACHE_SYMLINKS,
        },
        Flag {
            name: "handle-killpriv-v2",
            value: InitFlags::HANDLE_KILLPRIV_V2,
        },
    ];
}

impl Flags for InitFlags {
    ghost use Rattle.fuse_protocol.specs.Flags.{init_flags};

    type Bits = u32;

    ghost exact = { ⊤ };

    ghost table = { init_flags };

    ghost set_of = { λ flags. flags.0 };

    fn flags<'a>() -> &'a [Flag<InitFlags>] {
        InitFlags::FLAGS
    }

    fn bits(&self) -> u32 {
        self.0
    }

    fn from_bits_retain(bits: u32) -> InitFlags {
        InitFlags(bits)
    }
}

/// What is told of a file or a directory that was opened: what the kernel may keep of it beyond this opening. Others may be set too.
#[derive(Clone, Copy)]
pub struct OpenedFlags(pub(crate) u32);

impl OpenedFlags {
    /// Of what was read before, nothing is forgotten: `FOPEN_KEEP_CACHE`.
    pub const KEEP_CACHE: OpenedFlags = OpenedFlags(1 << 1);

    /// The listing of a directory may be kept: `FOPEN_CACHE_DIR`.
    pub const CACHE_DIR: OpenedFlags = OpenedFlags(1 << 3);

    const FLAGS: &'static [Flag<OpenedFlags>] = &[
        Flag {
            name: "keep-cache",
            value: OpenedFlags::KEEP_CACHE,
        },
        Flag {
            name: "cache-dir",
            value: OpenedFlags::CACHE_DIR,
        },
    ];
}

impl Flags for OpenedFlags {
    ghost use Rattle.fuse_protocol.specs.Flags.{opened_flags};

    type Bits = u32;

    ghost exact = { ⊤ };

    ghost table = { opened_flags };

    ghost set_of = { λ flags. flags.0 };

    fn flags<'a>() -> &'a [Flag<OpenedFlags>] {
        OpenedFlags::FLAGS
    }

    fn bits(&self) -> u32 {
        self.0
    }

    fn from_bits_retain(bits: u32) -> OpenedFlags {
        OpenedFlags(bits)
    }
}
