//! Who counts of those who ask: of others nothing is even learnt.
ghost use Rattle.std.specs.Prelude.{◌≡◌};
ghost use Rattle.fuse_plans.specs.Flags.{mode_in};
ghost use Rattle.fuse_plans.specs.Masks.{is_masked};
ghost use Rattle.fuse_plans.specs.Nobody.{asks_alone, asks_to_open, is_granted, is_judged, needs_nobody, who_counts};
ghost use Rattle.fuse_plans.specs.Plans.{CarriesOut};
ghost use Rattle.fuse_sessions.specs.Performing.{Did};

use crate::session::Session;
use fs_model::AclType;
use fuse_plans::{Mode, Tried, WhoCounts, needs_caller};
use fuse_protocol::{OpenFlags, Operation};
use fuse_steps::Machine;
use fuse_steps::acls::granted_by;
use fuse_steps::flags::{is_exec, reads_alone};
use posix_acl::Perms;

const READ: u16 = 4;

const EXECUTE: u16 = 1;

// What opening asks where nothing is to change.
fn asks_to_open(flags: OpenFlags) -> Option<Perms>
    ensures { result ≡ asks_to_open flags.0 (mode_in flags.0) }
{
    let mode = Mode::of_flags(flags)?;
    if !reads_alone(flags, mode) {
        return None;
    }
    Some(Perms::from_digit(if is_exec(flags) { EXECUTE } else { READ }))
}

// What is asked of the object of the node, where nothing else is asked, and nothing changes.
fn asks_alone(operation: &Operation<'_>) -> Option<Perms>
    ensures { result ≡ asks_alone operation.now }
{
    match operation {
        Operation::Lookup(_) => Some(Perms::from_digit(EXECUTE)),
        Operation::Open(flags) => asks_to_open(*flags),
        Operation::OpenDir => Some(Perms::from_digit(READ)),
        Operation::Access(mask) => Some(Perms::from_digit((*mask & 7) as u16)),
        _ => None,
    }
}

impl<M: Machine> Session<M> {
    /// Who counts of those who ask for an operation. Nothing changes of what the server keeps.
    pub fn who_counts(&mut self, node: u64, uid: u32, operation: &Operation<'_>) -> WhoCounts
        ensures decided { CarriesOut M.Serves (who_counts node uid operation.now self.old.server.server)
            self.old.machine self.new.machine result }
        ensures kept { self.new.server ≡ self.old.server }
    {
        if self.needs_nobody(node, operation) {
            return WhoCounts::Nobody;
        }
        let Some(want) = asks_alone(operation) else {
            return WhoCounts::Process;
        };
        match self.is_granted(node, uid, want) {
            Ok(granted) => {
                if granted {
                    WhoCounts::User
                } else {
                    WhoCounts::Process
                }
            }
            Err(_unseen) => WhoCounts::Process,
        }
    }

    // Whether a user is granted this of the object of a node, whatever its groups and capabilities are.
    fn is_granted(&mut self, node: u64, uid: u32, want: Perms) -> Tried<bool>
        ensures did { Did M.Serves (is_granted node uid want) self.old self.new result }
        ensures kept { self.new.server ≡ self.old.server }
    {
        let ino = self.the_number(node)?;
        let status = self.look(ino)?;
        let acl = self.list_of(ino, AclType::Access)?;
        Ok(granted_by(status.owner, uid, want, &acl))
    }

    // Whether who asks doesn't count for an operation: it needs nobody, or the kernel has judged by the same modes and lists before
    // it asked.
    fn needs_nobody(&mut self, node: u64, operation: &Operation<'_>) -> bool
        ensures decided { CarriesOut M.Serves (needs_nobody node operation.now self.old.server.server)
            self.old.machine self.new.machine result }
        ensures kept { self.new.server ≡ self.old.server }
    {
        match operation {
            Operation::Lookup(_) | Operation::ReadDirPlus(_) => self.is_judged(node),
            _ => !needs_caller(operation),
        }
    }

    // Whether the kernel has judged a look-up in the directory of a node.
    fn is_judged(&mut self, node: u64) -> bool
        ensures decided { let server = self.old.server.server in
            CarriesOut M.Serves (is_judged node server.settings.posix_acl server) self.old.machine self.new.machine result }
        ensures kept { self.new.server ≡ self.old.server }
    {
        if !self.server.settings().posix_acl {
            return false;
        }
        match self.is_masked(node) {
            Ok(masked) => !masked,
            Err(_unseen) => true,
        }
    }

    // Whether Linux doesn't follow the access list of the directory of a node.
    fn is_masked(&mut self, node: u64) -> Tried<bool>
        ensures did { Did M.Serves (is_masked node) self.old self.new result }
        ensures kept { self.new.server ≡ self.old.server }
    {
        let ino = self.the_number(node)?;
        self.list_hides(ino)
    }
}
