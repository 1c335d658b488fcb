//! Nodes that the kernel forgets at once, in a request's bytes, which they borrow.

ghost use Rattle.std.specs.Prelude.{◌≡◌, ◌<◌, length, slice_get, IsSome};
ghost use Rattle.fuse_protocol.specs.Forgets.{batch_of};

use crate::bytes::{u32_at, u64_at};
use std::marker::Model;

// So many bytes stand before the first node, and for each node.
const BEFORE: usize = 8;

const EACH: usize = 16;

/// Nodes, each with how often the kernel forgets it. Contracts see these pairs.
#[derive(Drop)]
pub struct Batch<'a> {
    count: usize,
    bytes: &'a [u8],
}

impl<'a> Model for Batch<'a> {
    ghost use Rattle.std.specs.Prelude.{ℕ, List, ◌*◌, ◌≤◌, length};
    ghost use Rattle.fuse_protocol.specs.Forgets.{forgets_in};

    ghost Value = { List (ℕ × ℕ) };

    ghost view = { λ batch. forgets_in batch.count batch.bytes.now };

    ghost invariant = { λ batch. 16 * batch.count ≤ length batch.bytes.now };
}

impl<'a> Batch<'a> {
    /// How many there are.
    pub fn len(&self) -> usize
        ensures { result ≡ length self.now }
    {
        self.count
    }

    /// One of them.
    pub fn get(&self, at: usize) -> Option<(u64, u64)>
        ensures { result ≡ slice_get self.now at }
    {
        if at >= self.count {
            return None;
        }
        let (_, rest) = self.bytes.split_at(EACH * at);
        Some((u64_at(rest, 0), u64_at(rest, 8)))
    }
}

/// As many as a body says and has.
pub(crate) fn parse_batch(body: &[u8]) -> Batch<'_>
    ensures { result ≡ batch_of body.now }
{
    if body.len() < BEFORE {
        return Batch {
            count: 0,
            bytes: body,
        };
    }
    let (_, bytes) = body.split_at(BEFORE);
    let count = (u32_at(body, 0) as usize).min(bytes.len() / EACH);
    Batch { count, bytes }
}
