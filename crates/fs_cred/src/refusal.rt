//! What a call asks for, and what it answers where that is refused.
ghost use Rattle.std.specs.Prelude.{◌≡◌};
ghost use Rattle.fs_cred.specs.Refusals.{need_errno};
ghost use Rattle.fs_cred.specs.declared.refusal.Refusal.TheVariants.{Denied, Failed};

use crate::errno::Errno;
use crate::rule::Rule;
use posix_acl::Perms;

/// What a call asks for at an object.
#[derive(Clone, Copy, PartialEq, Eq)]
pub enum Need {
    /// To look up a name in a directory.
    Search,
    /// All of these permissions.
    Perm(Perms),
    /// To own the object: to change its mode or its ACL.
    Own,
    /// To give the object another owner.
    Chown,
    /// To give the object another group.
    Chgrp,
    /// To remove or rename the object, which a sticky directory restricts.
    Remove,
}

impl Need {
    /// What a call answers that is denied this: `EACCES` where permissions or search were wanted, and otherwise
    /// `EPERM`.
    pub fn errno(self) -> Errno
        ensures { result ≡ need_errno self }
    {
        match self {
            Need::Search | Need::Perm(_) => Errno::EACCES,
            Need::Own | Need::Chown | Need::Chgrp | Need::Remove => Errno::EPERM,
        }
    }
}

/// Where a permission was refused, and by which rule.
#[derive(Clone, Copy, PartialEq, Eq)]
pub struct Denial {
    /// That of the need.
    pub errno: Errno,
    /// Which path of the call it was: 1 or 2.
    pub walk: u8,
    /// How many lookups of that path were done before the object that refused was reached.
    pub step: usize,
    /// What was asked for.
    pub need: Need,
    /// What refused it.
    pub rule: Rule,
}

impl Denial {
    /// A denial with the error of its need.
    pub fn new(walk: u8, step: usize, need: Need, rule: Rule) -> Denial
        ensures { result ≡ record { errno = need_errno need; walk = walk; step = step; need = need; rule = rule } }
    {
        Denial {
            errno: need.errno(),
            walk,
            step,
            need,
            rule,
        }
    }
}

/// Why a call is refused.
#[derive(Clone, Copy, PartialEq, Eq)]
pub enum Refusal {
    /// The caller may not.
    Denied(Denial),
    /// Something else.
    Failed(Errno),
}

impl From<Denial> for Refusal {
    ghost from_gives = { λ denial refusal. refusal ≡ Denied denial };

    fn from(denial: Denial) -> Refusal {
        Refusal::Denied(denial)
    }
}

impl From<Errno> for Refusal {
    ghost from_gives = { λ errno refusal. refusal ≡ Failed errno };

    fn from(errno: Errno) -> Refusal {
        Refusal::Failed(errno)
    }
}
