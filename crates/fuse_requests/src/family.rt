//! Requests by what they are about.
ghost use Rattle.std.specs.Prelude.{◌≡◌};
ghost use Rattle.fuse_requests.specs.Families.{family_of};

use fuse_protocol::Operation;

/// What a request is about.
#[derive(Clone, Copy)]
pub(crate) enum Family {
    /// An object is made.
    Making,
    /// Names that are there, and further ones.
    Naming,
    /// Names that go.
    Removing,
    OnObject,
    /// Attributes that are ACLs.
    OnAcl,
    ByHandle,
    /// The whole file system.
    OnWhole,
    /// There is no reply.
    Silent,
}

/// What a request is about.
pub(crate) fn family_of(operation: &Operation<'_>) -> Family
    ensures { result ≡ family_of operation.now }
{
    match operation {
        Operation::SymLink { .. }
        | Operation::MkNod { .. }
        | Operation::MkDir { .. }
        | Operation::Create { .. } => Family::Making,
        Operation::Lookup(_) | Operation::Rename { .. } | Operation::Link { .. } => Family::Naming,
        Operation::Unlink(_) | Operation::RmDir(_) => Family::Removing,
        Operation::GetAttr
        | Operation::SetAttr(_)
        | Operation::ReadLink
        | Operation::Open(_)
        | Operation::OpenDir
        | Operation::Access(_) => Family::OnObject,
        Operation::SetXAttr { .. }
        | Operation::GetXAttr { .. }
        | Operation::ListXAttr(_)
        | Operation::RemoveXAttr(_) => Family::OnAcl,
        Operation::Read(_)
        | Operation::Write { .. }
        | Operation::Release(_)
        | Operation::FSync(_)
        | Operation::ReadDir(_)
        | Operation::ReadDirPlus(_)
        | Operation::ReleaseDir(_) => Family::ByHandle,
        Operation::Forget(_) | Operation::Interrupt | Operation::BatchForget(_) => Family::Silent,
        _ => Family::OnWhole,
    }
}
