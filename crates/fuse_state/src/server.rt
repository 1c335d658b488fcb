//! A server's state.
ghost use Rattle.std.specs.Prelude.{◌≡◌, OnOk, OnErr};
ghost use Rattle.fuse_state.specs.Servers.{new_server, with_acls_offered, with_end, with_kept_at};

mod changes;
mod directories;
mod nodes;
mod removed;
mod times;

use crate::directory::OpenDirectory;
use crate::hash_table::HashTable;
use crate::removed::RemovedDirectory;
use crate::settings::Settings;
use crate::table::Table;
use crate::times::Times;
use fs_model::Listing;
use fuse_protocol::Time;
use std::alloc::{AllocError, Global};
use std::marker::Model;

/// As much as any one request adds.
pub const REQUEST_ROOM: usize = 5;

/// What a server keeps between requests. Contracts see that, and the room for more.
#[derive(Drop)]
pub struct Server {
    settings: Settings,
    generations: HashTable<u32>,
    times: HashTable<Times>,
    directories: Table<OpenDirectory>,
    listings: HashTable<Listing>,
    next_directory: u64,
    removed_directories: HashTable<RemovedDirectory>,
    ended: bool,
    kept_at: Time,
    room: usize,
}

impl Model for Server {
    ghost use Rattle.fuse_state.specs.Rooms.{Kept, HasTableRoom};

    ghost Value = { Kept };

    ghost view = { λ s. record {
      server = record {
        settings = s.settings;
        generations = s.generations.0;
        times = s.times.0;
        directories = s.directories.0;
        listings = s.listings.0;
        next_directory = s.next_directory;
        removed_directories = s.removed_directories.0;
        ended = s.ended;
        kept_at = s.kept_at;
      };
      room = s.room;
    } };

    ghost invariant = { λ s.
        HasTableRoom s.room s.generations.1 s.times.1 s.directories.1 s.listings.1 s.removed_directories.1 s.next_directory };
}

impl Server {
    /// A server that has served no request yet. It has no room: [`Server::prepare`] reserves it.
    pub fn new(alloc: Global, settings: Settings) -> Server
        ensures { result ≡ record { server = new_server settings; room = 0 } }
    {
        Server {
            settings,
            generations: HashTable::new(alloc),
            times: HashTable::new(alloc),
            directories: Table::new(alloc),
            listings: HashTable::new(alloc),
            next_directory: 0,
            removed_directories: HashTable::new(alloc),
            ended: false,
            kept_at: settings.start,
            room: 0,
        }
    }

    /// Reserves the room for what one request adds. Fails also where no numbers are left for open directories.
    pub fn prepare(&mut self) -> Result<(), AllocError>
        ensures kept { self.new.server ≡ self.old.server }
        ensures room { OnOk result (self.new.room ≡ REQUEST_ROOM) }
        ensures same { OnErr result (self.new ≡ self.old) }
    {
        self.generations.reserve(REQUEST_ROOM)?;
        self.times.reserve(REQUEST_ROOM)?;
        self.directories.reserve(REQUEST_ROOM)?;
        self.listings.reserve(REQUEST_ROOM)?;
        self.removed_directories.reserve(REQUEST_ROOM)?;
        if self.next_directory >= u64::MAX - REQUEST_ROOM as u64 {
            return Err(AllocError);
        }
        self.room = REQUEST_ROOM;
        Ok(())
    }

    /// What was agreed on before it serves.
    pub fn settings(&self) -> Settings
        ensures { result ≡ self.now.server.settings }
    {
        self.settings
    }

    /// Whether the kernel offers to judge by ACLs too. Where it doesn't, the server judges alone.
    pub fn agree_on_acls(&mut self, offered: bool)
        ensures kept { self.new.server ≡ with_acls_offered offered self.old.server }
        ensures room { self.new.room ≡ self.old.room }
    {
        self.settings.posix_acl = self.settings.posix_acl && offered;
    }

    /// Whether it was told to end.
    pub fn is_ended(&self) -> bool
        ensures { result ≡ self.now.server.ended }
    {
        self.ended
    }

    /// The server is told to end.
    pub fn end(&mut self)
        ensures kept { self.new.server ≡ with_end self.old.server }
        ensures room { self.new.room ≡ self.old.room }
    {
        self.ended = true;
    }
    /// When the server itself last made all last: at first when it began.
    pub fn kept_at(&self) -> Time
        ensures { result ≡ self.now.server.kept_at }
    {
        self.kept_at
    }

    /// The server has made all last at this time.
    pub fn note_kept(&mut self, now: Time)
        ensures kept { self.new.server ≡ with_kept_at now self.old.server }
        ensures room { self.new.room ≡ self.old.room }
    {
        self.kept_at = now;
    }
}
