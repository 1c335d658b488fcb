//! Open directories: how many there may be, whose they are, and which listings are kept.
use crate::tests::state::{Row, first_other};
use fs_model::{Listing, Name, Named};
use fuse_state::Server;
use std::alloc::{AllocError, Global};
use std::test::Fail;

// What happens to directories, or what is asked. They go by their handles, nodes by their numbers.
#[derive(Clone, Copy)]
enum Use {
    // So many times a user opens the directory of a node: the last handle.
    Opens(u32, u32, u64),
    // It is listed, and has so many names.
    Lists(u64, u32),
    Closes(u64),
    // How many names its listing has, and one more; 0 where it has none.
    Listed(u64),
    NodeAt(u64),
    // Whose directory it is.
    OwnerAt(u64),
    MayOpen(u32),
}

fn opens(server: &mut Server, uid: u32, count: u32, node: u64) -> Result<u64, AllocError> {
    let mut handle = 0;
    for _ in 0..count {
        server.prepare()?;
        handle = server.next_directory();
        server.add_directory(uid, node);
    }
    Ok(handle)
}

fn names(alloc: Global, count: u32) -> Result<Listing, AllocError> {
    let mut names = Vec::new(alloc);
    for ino in 0..count {
        let name = Name::from_slice(alloc, b"n")?;
        names.push(Named { name, ino })?;
    }
    Ok(Listing::new(names))
}

fn lists(server: &mut Server, alloc: Global, handle: u64, count: u32) -> Result<u64, AllocError> {
    server.prepare()?;
    server.set_listing(handle, names(alloc, count)?);
    Ok(0)
}

fn closes(server: &mut Server, handle: u64) -> Result<u64, AllocError> {
    server.remove_directory(handle);
    Ok(0)
}

fn listed(server: &Server, handle: u64) -> u64 {
    match server.listing_of(handle) {
        Some(listing) => (listing.names().len() as u64).saturating_add(1),
        None => 0,
    }
}

// The node, and the user; 0 where nothing is open.
fn open_at(server: &Server, handle: u64) -> (u64, u64) {
    match server.directory_of(handle) {
        Some(directory) => (directory.node, u64::from(directory.owner)),
        None => (0, 0),
    }
}

impl Row for Use {
    fn answer_of(self, server: &mut Server, alloc: Global) -> Result<u64, AllocError> {
        match self {
            Use::Opens(uid, count, node) => opens(server, uid, count, node),
            Use::Lists(handle, count) => lists(server, alloc, handle, count),
            Use::Closes(handle) => closes(server, handle),
            Use::Listed(handle) => Ok(listed(server, handle)),
            Use::NodeAt(handle) => Ok(open_at(server, handle).0),
            Use::OwnerAt(handle) => Ok(open_at(server, handle).1),
            Use::MayOpen(uid) => Ok(u64::from(server.may_open_directory(uid))),
        }
    }
}

// What directories are open.
static DIRECTORIES: [(Use, u64); 27] = [
    // Handles are given one after another, and none again.
    (Use::Opens(1000, 1, 5), 0),
    (Use::Opens(1001, 1, 6), 1),
    (Use::NodeAt(0), 5),
    (Use::NodeAt(1), 6),
    (Use::Lists(1, 1), 0),
    (Use::NodeAt(1), 6),
    (Use::OwnerAt(1), 1001),
    (Use::Closes(0), 0),
    (Use::NodeAt(0), 0),
    (Use::Lists(0, 1), 0),
    (Use::NodeAt(0), 0),
    // 128 of one user may be open, and 200 of all, but for user 0 and the first ones of others.
    (Use::Opens(1001, 126, 8), 127),
    (Use::MayOpen(1001), 1),
    (Use::Opens(1001, 1, 8), 128),
    (Use::MayOpen(1001), 0),
    (Use::MayOpen(1000), 1),
    (Use::Opens(1000, 72, 8), 200),
    (Use::MayOpen(1000), 0),
    (Use::MayOpen(1002), 1),
    (Use::MayOpen(0), 1),
    // 16 more of user 0, and 40 more that are kept for the first ones of others.
    (Use::Opens(0, 16, 8), 216),
    (Use::MayOpen(0), 0),
    (Use::MayOpen(1002), 1),
    (Use::Opens(1003, 39, 8), 255),
    (Use::MayOpen(1002), 1),
    (Use::Opens(1003, 1, 8), 256),
    (Use::MayOpen(1002), 0),
];

// Which listings are kept.
static LISTINGS: [(Use, u64); 15] = [
    // A directory that is open twice has one listing, that which was made last.
    (Use::Opens(1000, 1, 5), 0),
    (Use::Opens(1001, 1, 5), 1),
    (Use::Listed(0), 0),
    (Use::Lists(0, 2), 0),
    (Use::Listed(1), 3),
    (Use::Lists(1, 1), 0),
    (Use::Listed(0), 2),
    // Another directory that has got the number of its inode hasn't.
    (Use::Opens(1000, 1, 4_294_967_301), 2),
    (Use::Listed(2), 0),
    // Once it is closed as often, none is left.
    (Use::Closes(0), 0),
    (Use::Listed(1), 2),
    (Use::Closes(1), 0),
    (Use::Listed(1), 0),
    (Use::Opens(1000, 1, 5), 3),
    (Use::Listed(3), 0),
];

// The first other answers of a server to what is opened, and of one to what is listed.
fn others(alloc: Global) -> Result<[Option<(usize, u64)>; 2], AllocError> {
    Ok([
        first_other(alloc, &DIRECTORIES)?,
        first_other(alloc, &LISTINGS)?,
    ])
}

#[test]
fn open_directories(rt: HostRuntime) -> Result<(), Fail> {
    let seen = others(rt.alloc())?;
    assert!(rt; seen == [None; 2], "{seen:?}");
    Ok(())
}
