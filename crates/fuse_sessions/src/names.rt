//! Names that are looked up: each in a directory, and as who asks, unless nobody is needed.
ghost use Rattle.std.specs.Prelude.{◌≡◌, Ok};
ghost use Rattle.fuse_plans.specs.Callers.{server_credential};
ghost use Rattle.fuse_plans.specs.NamePlans.{find_name, searched_directory, found_or_absent, find_inside, tell_named, new_valid};
ghost use Rattle.fuse_sessions.specs.Performing.{Did};

use crate::session::Session;
use fs_model::{Path, Status};
use fuse_plans::{Asked, Replied, Tried};
use fuse_steps::Machine;
use fuse_steps::asker::{actor_in, who_asks};
use fuse_steps::name::{
    found_body, keeps_names, looked_up_body, or_absent, or_keep_absent, plain_name, unless_hidden,
};
use fuse_steps::seen::look_inside;

impl<M: Machine> Session<M> {
    /// What has a name in a directory.
    pub fn find_name(&mut self, asked: Asked, name: Path) -> Replied
        ensures { Did M.Serves (find_name asked name) self.old self.new result }
    {
        let dir_ino = self.searched_directory(asked.node, &name)?;
        if asked.needs_nobody {
            return self.find_own(true, dir_ino, name);
        }
        let cred = who_asks(asked.cred)?;
        let actor = actor_in(cred, dir_ino);
        let (seen, _name) = look_inside(&mut self.machine, &actor, name);
        self.found_or_absent(false, seen)
    }

    // The directory in which a name is looked for.
    fn searched_directory(&self, node: u64, name: &Path) -> Tried<u32>
        ensures { Did M.Serves (searched_directory node name.now) self.now self.now result }
    {
        plain_name(name)?;
        or_absent(self.the_number(node))
    }

    /// What the server finds under the name, or that it finds nothing.
    pub fn find_own(&mut self, needs_nobody: bool, dir_ino: u32, name: Path) -> Replied
        ensures did { Did M.Serves (find_inside needs_nobody server_credential dir_ino name) self.old self.new result }
        ensures kept { self.new.server ≡ self.old.server }
    {
        let (seen, _name) = self.look_inside_own(dir_ino, name);
        self.found_or_absent(needs_nobody, seen)
    }

    // What was found, or that nothing was, is told.
    fn found_or_absent(&mut self, needs_nobody: bool, seen: Tried<Status>) -> Replied
        ensures did { Did M.Serves (found_or_absent needs_nobody seen) self.old self.new result }
        ensures kept { self.new.server ≡ self.old.server }
    {
        match seen {
            Ok(status) => {
                let stamps = self.told_stamps(status.ino)?;
                Ok(looked_up_body(&self.server, needs_nobody, status, stamps))
            }
            Err(error) => or_keep_absent(self.server.settings(), needs_nobody, error),
        }
    }

    /// What is told of an object that has a name.
    pub fn tell_named(&mut self, name_valid: u64, ino: u32) -> Replied
        ensures { Did M.Serves (tell_named name_valid ino) self.old self.new result }
    {
        let status = self.look(ino)?;
        let stamps = self.told_stamps(status.ino)?;
        Ok(found_body(&self.server, name_valid, status, stamps))
    }

    /// For how many seconds the kernel may keep a new name in a directory.
    pub fn new_valid(&mut self, dir_ino: u32) -> u64
        ensures did { Did M.Serves (new_valid dir_ino) self.old self.new (Ok result) }
        ensures kept { self.new.server ≡ self.old.server }
    {
        let settings = self.server.settings();
        if !keeps_names(settings) {
            return 0;
        }
        let hides = self.list_hides(dir_ino);
        unless_hidden(settings.keeping.names, hides)
    }
}
