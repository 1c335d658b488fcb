//! Whether permissions hold what is wanted.
ghost use Rattle.std.specs.Prelude.{◌≡◌};
ghost use Rattle.fs_cred.specs.Permissions.{holds};

use posix_acl::Perms;

/// No permission at all.
pub const NOTHING: Perms = Perms {
    read: false,
    write: false,
    execute: false,
};

/// Whether these permissions have all of what is wanted.
pub fn holds(perms: Perms, want: Perms) -> bool
    ensures { result ≡ holds perms want }
{
    (!want.read || perms.read) && (!want.write || perms.write) && (!want.execute || perms.execute)
}
