//! Open directories.
ghost use Rattle.std.specs.Prelude.{◌≡◌, ◌+◌, ◌≤◌, length, option_copied};
ghost use Rattle.fuse_state.specs.Shares.{count_of};
ghost use Rattle.fuse_state.specs.Servers.{directory_holders, may_open_directory, directory_of, is_directory_open, listing_of, with_opened, with_listing, listings_while_open, without_directory};

use super::Server;
use crate::directory::OpenDirectory;
use crate::shares::{Held, Shares};
use fs_model::Listing;

impl Server {
    // How many directories are open.
    fn count_directories(&self) -> usize
        ensures { result ≡ length (directory_holders self.now.server) }
    {
        self.directories.entries().len()
    }

    // How many of them a user has opened.
    fn count_directories_of(&self, uid: u32) -> usize
        ensures { result ≡ count_of (directory_holders self.now.server) uid }
    {
        self.directories
            .entries()
            .iter()
            .filter(|(_, open)| open.owner == uid)
            .count()
    }

    /// Whether a user may open one more directory.
    pub fn may_open_directory(&self, uid: u32) -> bool
        ensures { result ≡ may_open_directory self.now.server uid }
    {
        let held = Held {
            all: self.count_directories(),
            own: self.count_directories_of(uid),
            of_root: self.count_directories_of(0),
        };
        Shares::of_directories().allow(uid, held)
    }

    /// The handle that the next open directory has.
    pub fn next_directory(&self) -> u64
        ensures { result ≡ self.now.server.next_directory }
    {
        self.next_directory
    }

    /// The open directory of a handle.
    pub fn directory_of(&self, handle: u64) -> Option<&OpenDirectory>
        ensures { option_copied result ≡ directory_of self.now.server handle }
    {
        self.directories.get(handle)
    }

    // Whether the directory of a node is open.
    fn is_directory_open(&self, node: u64) -> bool
        ensures { result ≡ is_directory_open self.now.server.directories node }
    {
        self.directories
            .entries()
            .iter()
            .any(|(_, open)| open.node == node)
    }

    /// The listing that was made last of an open directory, through whichever handle: one serves all, since offsets follow from names.
    pub fn listing_of(&self, handle: u64) -> Option<&Listing>
        ensures { option_copied result ≡ listing_of self.now.server handle }
    {
        match self.directory_of(handle) {
            Some(open) => self.listings.get(open.node),
            None => None,
        }
    }

    /// A user has opened the directory of a node at [`Server::next_directory`].
    pub fn add_directory(&mut self, owner: u32, node: u64)
        requires { 1 ≤ self.old.room }
        ensures kept { self.new.server ≡ with_opened owner node self.old.server }
        ensures room { self.old.room ≤ self.new.room + 1 }
    {
        let directory = OpenDirectory { node, owner };
        self.directories.put(self.next_directory, directory);
        self.next_directory += 1;
        self.room -= 1;
    }

    /// An open directory was listed.
    pub fn set_listing(&mut self, handle: u64, listing: Listing)
        requires { 1 ≤ self.old.room }
        ensures kept { self.new.server ≡ with_listing handle listing self.old.server }
        ensures room { self.old.room ≤ self.new.room + 1 }
    {
        let Some(open) = self.directory_of(handle).copied() else {
            return;
        };
        self.listings.put(open.node, listing);
        self.room -= 1;
    }

    /// A directory is closed. Its listing goes with its last opening.
    pub fn remove_directory(&mut self, handle: u64)
        ensures kept { self.new.server ≡ without_directory handle self.old.server }
        ensures room { self.new.room ≡ self.old.room }
    {
        let closed = self.directory_of(handle).copied();
        self.directories.remove(handle);
        if let Some(open) = closed {
            self.remove_unread_listing(open.node);
        }
    }

    // Nobody goes on in the listing of a directory that isn't open.
    fn remove_unread_listing(&mut self, node: u64)
        ensures kept { let old = self.old.server in
            self.new.server ≡ record old { listings = listings_while_open old.directories old.listings node } }
        ensures room { self.new.room ≡ self.old.room }
    {
        if !self.is_directory_open(node) {
            self.listings.remove(node);
        }
    }
}
