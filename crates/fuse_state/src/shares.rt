//! How things of which there are few are shared among users.
ghost use Rattle.std.specs.Prelude.{◌≡◌};
ghost use Rattle.fuse_state.specs.Shares.{allows, directory_shares};

/// How many of a kind of things users may hold.
#[derive(Clone, Copy)]
pub struct Shares {
    /// While fewer are held, each user may take one.
    pub open_to_all: u16,
    /// But for user 0, none holds more than these.
    pub of_one: u16,
    /// So many more are kept for the first of each further user.
    pub firsts: u16,
    /// And so many for user 0.
    pub of_root: u16,
}

/// How many are held: by all, by the user who asks, and by user 0.
#[derive(Clone, Copy)]
pub(crate) struct Held {
    pub(crate) all: usize,
    pub(crate) own: usize,
    pub(crate) of_root: usize,
}

impl Shares {
    /// The shares of open directories.
    pub(crate) fn of_directories() -> Shares
        ensures { result ≡ directory_shares }
    {
        Shares {
            open_to_all: 200,
            of_one: 128,
            firsts: 40,
            of_root: 16,
        }
    }

    /// Whether a user may hold one more.
    pub(crate) fn allow(&self, uid: u32, held: Held) -> bool
        ensures { result ≡ allows self.now uid held.all held.own held.of_root }
    {
        let open_to_all = usize::from(self.open_to_all);
        if held.all < open_to_all && (uid == 0 || held.own < usize::from(self.of_one)) {
            return true;
        }
        let of_root = usize::from(self.of_root);
        if uid == 0 {
            return held.of_root < of_root;
        }
        let limit = open_to_all + usize::from(self.firsts) + held.of_root.min(of_root);
        held.own == 0 && held.all < limit
    }
}
