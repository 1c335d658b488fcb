//! Who asks, and where that counts.
ghost use Rattle.std.specs.Prelude.{◌≡◌};
ghost use Rattle.fuse_plans.specs.Nobody.{is_nobody, needs_caller};

use fs_cred::Cred;
use fuse_protocol::{Operation, Time};

/// Who asks, of which node, and when.
#[derive(Drop)]
pub struct Asked {
    pub node: u64,
    /// Who asks doesn't count: the server looks up what they would.
    pub needs_nobody: bool,
    /// None where not all groups of who asks are known.
    pub cred: Option<Cred>,
    pub now: Time,
}

/// Who counts of those who ask.
#[derive(Clone, Copy)]
pub enum WhoCounts {
    /// None of them.
    Nobody,
    /// The user alone, and not the groups and capabilities of the process.
    User,
    /// The user with the groups and the capabilities of the process.
    Process,
}

impl WhoCounts {
    /// Whether it is nobody.
    pub fn is_nobody(self) -> bool
        ensures { result ≡ is_nobody self }
    {
        match self {
            WhoCounts::Nobody => true,
            WhoCounts::User | WhoCounts::Process => false,
        }
    }
}

/// Whether an operation is performed as who asks, or may fail for its credential.
pub fn needs_caller(operation: &Operation<'_>) -> bool
    ensures { result ≡ needs_caller operation.now }
{
    match operation {
        Operation::Lookup(_)
        | Operation::SetAttr(_)
        | Operation::SymLink { .. }
        | Operation::MkNod { .. }
        | Operation::MkDir { .. }
        | Operation::Unlink(_)
        | Operation::RmDir(_)
        | Operation::Rename { .. }
        | Operation::Link { .. }
        | Operation::Open(_)
        | Operation::SetXAttr { .. }
        | Operation::RemoveXAttr(_)
        | Operation::OpenDir
        | Operation::Access(_)
        | Operation::Create { .. } => true,
        _ => false,
    }
}
