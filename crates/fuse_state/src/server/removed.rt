//! Directories that were removed, and may be open still.
ghost use Rattle.std.specs.Prelude.{◌≡◌, ◌+◌, ◌≤◌, [], ◌∷◌};
ghost use Rattle.fuse_state.specs.Servers.{removed_directory_of, with_removed_directory, without_nodes};

use super::Server;
use crate::removed::RemovedDirectory;

impl Server {
    /// What is shown of a directory that was removed, until the kernel forgets its node.
    pub fn removed_directory_of(&self, node: u64) -> Option<RemovedDirectory>
        ensures { result ≡ removed_directory_of self.now.server node }
    {
        self.removed_directories.get(node).copied()
    }

    // A directory was removed, if any was.
    pub(super) fn note_removed_directory(&mut self, removed: Option<RemovedDirectory>)
        requires { 1 ≤ self.old.room }
        ensures kept { self.new.server ≡ with_removed_directory removed self.old.server }
        ensures room { self.old.room ≤ self.new.room + 1 }
    {
        let Some(directory) = removed else {
            return;
        };
        let node = self.node_of(directory.status.ino);
        self.removed_directories.put(node, directory);
        self.room -= 1;
    }

    /// The kernel forgets a node.
    pub fn forget(&mut self, node: u64)
        ensures kept { self.new.server ≡ without_nodes (node ∷ []) self.old.server }
        ensures room { self.new.room ≡ self.old.room }
    {
        self.removed_directories.remove(node);
    }
}
