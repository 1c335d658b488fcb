//! What the kernel may keep of what it is told.
ghost use Rattle.std.specs.Prelude.{◌≡◌};
ghost use Rattle.fuse_state.specs.Keepings.{nothing_kept, usually_kept};

/// What the kernel may keep of what it is told, and for how many seconds.
#[derive(Clone, Copy)]
pub struct Keeping {
    /// To which object a name leads.
    pub names: u64,
    /// That nothing has a name.
    pub absent: u64,
    /// What stat(2) shows of an object.
    pub attributes: u64,
    /// The bytes of files and of links, and the listings of directories, from one opening to the next.
    pub pages: bool,
}

impl Keeping {
    /// The kernel keeps nothing, and asks anew each time.
    pub fn nothing() -> Keeping
        ensures { result ≡ nothing_kept }
    {
        Keeping {
            names: 0,
            absent: 0,
            attributes: 0,
            pages: false,
        }
    }

    /// On a mount: all changes come through the kernel, so it knows of them.
    pub fn usual() -> Keeping
        ensures { result ≡ usually_kept }
    {
        Keeping {
            names: 1,
            absent: 1,
            attributes: 1,
            pages: true,
        }
    }
}
