//! Calls on objects, and what the server sees of them.
ghost use Rattle.std.specs.Prelude.{◌≡◌, ◌||◌, not, [], Ok};
ghost use Rattle.fuse_plans.specs.Callers.{look, look_inside, on, server_credential, the_number};
ghost use Rattle.fuse_plans.specs.Masks.{acl_of, asks_list, list_hides, list_of};
ghost use Rattle.fuse_plans.specs.RemovedPlans.{look_before};
ghost use Rattle.fuse_sessions.specs.Performing.{Did};

use crate::session::Session;
use fs_model::{AclType, Call, Path, Reply, Status};
use fuse_plans::{RequestError, Tried};
use fuse_steps::Machine;
use fuse_steps::acls::{hides, may_hide, told_acl};
use fuse_steps::asker::on;
use fuse_steps::replies::acl_of_reply;
use fuse_steps::seen::{look_inside, shown, status_seen};
use posix_acl::Acl;

// Whether it counts what has a name that is to go: a directory may, or the server keeps times.
fn has_to_look(of_directory: bool, keeps_times: bool) -> bool
    ensures { result ≡ of_directory || not keeps_times }
{
    of_directory || !keeps_times
}

impl<M: Machine> Session<M> {
    /// The path of a call on an object.
    pub fn empty_path(&self) -> Path
        ensures { result ≡ [] }
    {
        Path::new(Vec::new(self.alloc))
    }

    /// The inode of a node.
    pub fn the_number(&self, node: u64) -> Tried<u32>
        ensures { Did M.Serves (the_number node) self.now self.now result }
    {
        self.server.number_of(node).ok_or(RequestError::ESTALE)
    }

    /// The reply to a call on an object that the server makes once.
    pub fn on_own(&mut self, ino: u32, call: Call) -> Tried<Reply>
        ensures did { Did M.Serves (on server_credential ino call) self.old self.new result }
        ensures kept { self.new.server ≡ self.old.server }
    {
        self.own.stand_at(ino);
        let reply = on(&mut self.machine, self.own.actor(), &call);
        call.discard();
        reply
    }

    /// What stat(2) shows of an object. No permission is asked: the kernel holds it.
    pub fn look(&mut self, ino: u32) -> Tried<Status>
        ensures did { Did M.Serves (look ino) self.old self.new result }
        ensures kept { self.new.server ≡ self.old.server }
    {
        let reply = self.on_own(ino, Call::Lstat(self.empty_path()));
        shown(reply)
    }

    /// An ACL of an object.
    pub fn list_of(&mut self, ino: u32, which: AclType) -> Tried<Option<Acl>>
        ensures did { Did M.Serves (list_of ino which) self.old self.new result }
        ensures kept { self.new.server ≡ self.old.server }
    {
        let reply = self.on_own(ino, Call::GetAcl(self.empty_path(), which))?;
        acl_of_reply(reply).ok_or(RequestError::EIO)
    }

    /// An ACL, where it says more than the mode.
    pub fn acl_of(&mut self, ino: u32, which: AclType) -> Tried<Option<Acl>>
        ensures did { Did M.Serves (acl_of ino which) self.old self.new result }
        ensures kept { self.new.server ≡ self.old.server }
    {
        let acl = self.list_of(ino, which)?;
        Ok(told_acl(which, acl))
    }

    /// What stat(2) shows the server of a name in a directory. The name comes back.
    pub fn look_inside_own(&mut self, dir_ino: u32, name: Path) -> (Tried<Status>, Path)
        ensures did { Did M.Serves (look_inside server_credential dir_ino name) self.old self.new result.0 }
        ensures name { result.1 ≡ name }
        ensures kept { self.new.server ≡ self.old.server }
    {
        self.own.stand_at(dir_ino);
        look_inside(&mut self.machine, self.own.actor(), name)
    }

    /// What stat(2) shows the server of a name that is to go, where it has to know that. The name comes back.
    pub fn look_before(
        &mut self,
        of_directory: bool,
        dir_ino: u32,
        name: Path,
    ) -> (Option<Status>, Path)
        ensures did { Did M.Serves (look_before of_directory dir_ino name) self.old self.new (Ok result.0) }
        ensures name { result.1 ≡ name }
        ensures kept { self.new.server ≡ self.old.server }
    {
        if has_to_look(of_directory, self.server.settings().keeps_times) {
            let (seen, name) = self.look_inside_own(dir_ino, name);
            return (status_seen(seen), name);
        }
        (None, name)
    }

    /// Whether Linux doesn't follow the access list of a directory.
    pub(crate) fn list_hides(&mut self, ino: u32) -> Tried<bool>
        ensures did { Did M.Serves (list_hides ino) self.old self.new result }
        ensures kept { self.new.server ≡ self.old.server }
    {
        let status = self.look(ino)?;
        self.asks_list(ino, status)
    }

    // The list is asked for only where the mode may come from such a one.
    fn asks_list(&mut self, ino: u32, status: Status) -> Tried<bool>
        ensures did { Did M.Serves (asks_list ino status) self.old self.new result }
        ensures kept { self.new.server ≡ self.old.server }
    {
        if !may_hide(status.mode) {
            return Ok(false);
        }
        let acl = self.acl_of(ino, AclType::Access)?;
        Ok(hides(&acl))
    }
}
