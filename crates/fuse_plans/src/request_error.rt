//! Why requests fail.
ghost use Rattle.std.specs.Prelude.{◌≡◌};
ghost use Rattle.fuse_plans.specs.RequestErrors.{refusal_errno, other_number, error_number, is_for, is_stale};

use fs_cred::{Errno, Refusal};

/// The errors of errno(3) that no call of the machine answers.
#[derive(Clone, Copy)]
pub enum OtherErrno {
    ENFILE,
    ERANGE,
    ENOSYS,
    ENODATA,
    EPROTO,
    EOPNOTSUPP,
    ESTALE,
}

/// Why a request fails: the machine refuses, or the server does.
#[derive(Clone, Copy)]
pub enum RequestError {
    Refuses(Refusal),
    Lacks(OtherErrno),
}

/// What is tried for a request: what comes of it, or why the request fails.
pub type Tried<T> = Result<T, RequestError>;

impl OtherErrno {
    /// The number on Linux.
    pub fn number(self) -> u8
        ensures { result ≡ other_number self }
    {
        match self {
            OtherErrno::ENFILE => 23,
            OtherErrno::ERANGE => 34,
            OtherErrno::ENOSYS => 38,
            OtherErrno::ENODATA => 61,
            OtherErrno::EPROTO => 71,
            OtherErrno::EOPNOTSUPP => 95,
            OtherErrno::ESTALE => 116,
        }
    }
}

fn refusal_errno(refusal: Refusal) -> Errno
    ensures { result ≡ refusal_errno refusal }
{
    match refusal {
        Refusal::Denied(denial) => denial.errno,
        Refusal::Failed(errno) => errno,
    }
}

impl RequestError {
    /// Operation not permitted.
    pub const EPERM: RequestError = RequestError::Refuses(Refusal::Failed(Errno::EPERM));

    /// No such file or directory.
    pub const ENOENT: RequestError = RequestError::Refuses(Refusal::Failed(Errno::ENOENT));

    /// The file would be too large.
    pub const EFBIG: RequestError = RequestError::Refuses(Refusal::Failed(Errno::EFBIG));

    /// The device has failed.
    pub const EIO: RequestError = RequestError::Refuses(Refusal::Failed(Errno::EIO));

    /// No descriptor that is open so.
    pub const EBADF: RequestError = RequestError::Refuses(Refusal::Failed(Errno::EBADF));

    /// Memory is lacking.
    pub const ENOMEM: RequestError = RequestError::Refuses(Refusal::Failed(Errno::ENOMEM));

    /// Permission denied; also of a caller whose groups are unknown.
    pub const EACCES: RequestError = RequestError::Refuses(Refusal::Failed(Errno::EACCES));

    /// The name is there.
    pub const EEXIST: RequestError = RequestError::Refuses(Refusal::Failed(Errno::EEXIST));

    /// Not a directory.
    pub const ENOTDIR: RequestError = RequestError::Refuses(Refusal::Failed(Errno::ENOTDIR));

    /// A body that is not of its form, or a value that is none.
    pub const EINVAL: RequestError = RequestError::Refuses(Refusal::Failed(Errno::EINVAL));

    /// Too much is open in the whole system.
    pub const ENFILE: RequestError = RequestError::Lacks(OtherErrno::ENFILE);

    /// The value of an attribute is longer than there is room for.
    pub const ERANGE: RequestError = RequestError::Lacks(OtherErrno::ERANGE);

    /// A request that is unknown.
    pub const ENOSYS: RequestError = RequestError::Lacks(OtherErrno::ENOSYS);

    /// There is no such attribute.
    pub const ENODATA: RequestError = RequestError::Lacks(OtherErrno::ENODATA);

    /// A version of the protocol that is not spoken.
    pub const EPROTO: RequestError = RequestError::Lacks(OtherErrno::EPROTO);

    /// What is not supported: attributes of other names, the owner of a link.
    pub const EOPNOTSUPP: RequestError = RequestError::Lacks(OtherErrno::EOPNOTSUPP);

    /// A node whose inode is gone, or is another one by now.
    pub const ESTALE: RequestError = RequestError::Lacks(OtherErrno::ESTALE);

    /// The number of the error on Linux.
    pub fn number(self) -> u8
        ensures { result ≡ error_number self }
    {
        match self {
            RequestError::Refuses(refusal) => refusal_errno(refusal).number(),
            RequestError::Lacks(errno) => errno.number(),
        }
    }

    /// Whether what was asked for is gone.
    pub fn is_stale(self) -> bool
        ensures { result ≡ is_stale self }
    {
        matches!(self, RequestError::Lacks(OtherErrno::ESTALE))
    }

    /// Whether the machine refuses with this error.
    pub fn is_for(self, errno: Errno) -> bool
        ensures { result ≡ is_for errno self }
    {
        match self {
            RequestError::Refuses(refusal) => refusal_errno(refusal).number() == errno.number(),
            RequestError::Lacks(_) => false,
        }
    }
}
