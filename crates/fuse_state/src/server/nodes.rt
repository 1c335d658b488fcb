//! Nodes, by which the kernel names objects: an inode's number, and how often it was given to a new object.
ghost use Rattle.std.specs.Prelude.{◌≡◌, ◌+◌, ◌≤◌};
ghost use Rattle.fuse_state.specs.Servers.{generation_of, with_generation, node_of, number_of_node};

use super::Server;

// So many numbers of inodes there are.
const NUMBERS: u64 = 4_294_967_296;

impl Server {
    // How often the number was given to a new object, modulo 2^32.
    fn generation_of(&self, ino: u32) -> u32
        ensures { result ≡ generation_of self.now.server ino }
    {
        self.generations.get(u64::from(ino)).copied().unwrap_or(0)
    }

    // A number is given to one more new object.
    pub(super) fn add_generation(&mut self, ino: u32)
        requires { 1 ≤ self.old.room }
        ensures kept { self.new.server ≡ with_generation ino self.old.server }
        ensures room { self.old.room ≤ self.new.room + 1 }
    {
        let generation = self.generation_of(ino).wrapping_add(1);
        self.generations.put(u64::from(ino), generation);
        self.room -= 1;
    }

    /// The node of an inode.
    pub fn node_of(&self, ino: u32) -> u64
        ensures { result ≡ node_of self.now.server ino }
    {
        NUMBERS * u64::from(self.generation_of(ino)) + u64::from(ino)
    }

    /// The inode of a node, unless that is stale.
    pub fn number_of(&self, node: u64) -> Option<u32>
        ensures { result ≡ number_of_node self.now.server node }
    {
        let ino = (node % NUMBERS) as u32;
        if u64::from(self.generation_of(ino)) == node / NUMBERS {
            Some(ino)
        } else {
            None
        }
    }
}
