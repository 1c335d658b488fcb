//! The front of a path.
ghost use Rattle.std.specs.Prelude.{◌≡◌, ◌++◌, ◌-◌, ◌∷◌, ◌≤◌, [], IfOk, length, take};
ghost use Rattle.fs_access.specs.Components.{prefix_of, added_by, components_in, rooted};

use std::alloc::{AllocError, Global};

/// The path of so many components of a path from the root on, or of all where there are no more.
pub(crate) fn prefix_of(alloc: Global, path: &[u8], count: usize) -> Result<Vec<u8>, AllocError>
    ensures front { IfOk result (λ prefix. prefix.items ≡ prefix_of path.now count) }
    ensures some { IfOk result (λ prefix. 1 ≤ length prefix.items) }
{
    let mut prefix = Vec::new(alloc);
    let mut left = count;
    for piece in path.split(|byte| *byte == b'/') {
        left = push_piece(&mut prefix, piece, left)?;
    }
    rooted(prefix)
}

// The path, or that of the root where it is empty.
fn rooted(path: Vec<u8>) -> Result<Vec<u8>, AllocError>
    ensures path { IfOk result (λ made. made.items ≡ rooted path.items) }
    ensures some { IfOk result (λ made. 1 ≤ length made.items) }
{
    if !path.is_empty() {
        return Ok(path);
    }
    let mut root = path;
    root.push(b'/')?;
    Ok(root)
}

// Adds a piece between slashes, if it is a component and one more is wanted, and says how many are wanted then.
fn push_piece(prefix: &mut Vec<u8>, piece: &[u8], left: usize) -> Result<usize, AllocError>
    ensures added { IfOk result (λ now. prefix.new.items ≡ prefix.old.items ++ added_by piece.now left) }
    ensures left { IfOk result (λ now. now ≡ left - length (components_in (piece.now ∷ []))) }
{
    if piece.is_empty() {
        return Ok(left);
    }
    if left == 0 {
        return Ok(0);
    }
    prefix.push(b'/')?;
    prefix.extend_from_slice(piece)?;
    Ok(left - 1)
}
