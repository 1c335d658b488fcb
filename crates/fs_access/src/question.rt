//! What is asked, and what is answered.
ghost use Rattle.std.specs.Prelude.{◌≡◌};
ghost use Rattle.fs_access.specs.Asking.{says_granted};

use fs_cred::{Cred, Denial, Errno, Rule};
use posix_acl::Perms;
use std::marker::Model;

/// What is asked: whether who has this credential may do this at the path.
#[derive(Drop)]
pub struct Question<'a> {
    cred: &'a Cred,
    path: &'a str,
    perms: Perms,
}

impl<'a> Model for Question<'a> {
    ghost use Rattle.fs_access.specs.Asking.{Query};

    ghost Value = { Query };

    ghost view = { λ q. record { cred = q.cred.now; path = q.path.now; perms = q.perms } };
}

impl<'a> Question<'a> {
    /// Whether who has this credential may do this at the path.
    pub fn new(cred: &'a Cred, path: &'a str, perms: Perms) -> Question<'a>
        ensures { result ≡ record { cred = cred.entry.now; path = path.entry.now; perms = perms } }
    {
        Question { cred, path, perms }
    }

    /// Who it is.
    pub(crate) fn cred(&self) -> &Cred
        ensures { result.now ≡ self.now.cred }
    {
        self.cred
    }

    /// The path, as bytes.
    pub(crate) fn path(&self) -> &[u8]
        ensures { result.now ≡ self.now.path }
    {
        self.path.as_bytes()
    }

    /// What is to be done.
    pub(crate) fn perms(&self) -> Perms
        ensures { result ≡ self.now.perms }
    {
        self.perms
    }
}

/// What is answered.
#[derive(Clone, Copy)]
pub enum Answer {
    /// They may, by this rule.
    Granted(Rule),
    /// They may not.
    Denied {
        /// Where that was refused, and by which rule.
        denial: Denial,
        /// How many components of the path lead to the first symbolic link that the walk went through, if there is one.
        link: Option<usize>,
    },
    /// The path leads nowhere, or can't be walked.
    Failed(Errno),
}

impl Answer {
    /// Whether they may.
    pub fn is_granted(&self) -> bool
        ensures { result ≡ says_granted self.now }
    {
        matches!(self, Answer::Granted(_))
    }
}
