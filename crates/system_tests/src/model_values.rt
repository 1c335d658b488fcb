//! What goes in comes out, and kinds come back.
use fs_layout::Kind;
use fs_model::{ByteString, ContentRole, FileType, Listing, Name, NameRole, Named, PathRole};
use std::alloc::{AllocError, Global};
use std::mem;

// Whether these bytes are shown, and come back.
fn keeps_bytes<Role>(alloc: Global, bytes: &[u8]) -> Result<bool, AllocError> {
    let made: ByteString<Role> = ByteString::from_slice(alloc, bytes)?;
    let is_shown = made.bytes() == bytes;
    let back = made.into_bytes();
    let is_back = back.as_slice() == bytes;
    mem::drop(back);
    Ok(is_shown && is_back)
}

// Whether a name with an inode number is shown, and comes back.
fn keeps_a_name(alloc: Global) -> Result<bool, AllocError> {
    let listing = Listing::new(one_name(alloc)?);
    let is_shown = are_one_name(listing.names());
    let back = listing.into_names();
    let is_back = are_one_name(&back);
    mem::drop(back);
    Ok(is_shown && is_back)
}

fn one_name(alloc: Global) -> Result<Vec<Named>, AllocError> {
    let name = Name::from_slice(alloc, b"a")?;
    let mut names = Vec::new(alloc);
    names.push(Named { name, ino: 3 })?;
    Ok(names)
}

fn are_one_name(names: &[Named]) -> bool {
    match names {
        [named] => named.name.bytes() == b"a".as_slice() && named.ino == 3,
        _ => false,
    }
}

// Whether a path, a name, content, and a name with a number are shown, and come back.
fn all_kept(alloc: Global) -> Result<[bool; 4], AllocError> {
    Ok([
        keeps_bytes::<PathRole>(alloc, b"/a/b")?,
        keeps_bytes::<NameRole>(alloc, b"a b")?,
        keeps_bytes::<ContentRole>(alloc, b"\0\xff")?,
        keeps_a_name(alloc)?,
    ])
}

#[test]
fn what_goes_in_is_shown_and_comes_back(rt: HostRuntime) {
    let seen = all_kept(rt.alloc()).unwrap_or([false; 4]);
    assert!(rt; seen == [true; 4], "{seen:?}");
}

// The kind of what an inode of this kind holds, and whether access to that is decided.
fn told_kind(kind: Kind) -> (Option<Kind>, bool) {
    match FileType::of_kind(kind) {
        Some(held) => (Some(Kind::from(held)), held.access_kind().is_some()),
        None => (None, false),
    }
}

static KINDS: [(Kind, (Option<Kind>, bool)); 4] = [
    (Kind::Free, (None, false)),
    (Kind::File, (Some(Kind::File), true)),
    (Kind::Directory, (Some(Kind::Directory), true)),
    (Kind::Link, (Some(Kind::Link), false)),
];

#[test]
fn kinds_have_one_meaning(rt: HostRuntime) {
    for &(kind, wanted) in &KINDS {
        let seen = told_kind(kind);
        assert!(rt; seen == wanted, "{seen:?}");
    }
}
