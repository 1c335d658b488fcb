//! Numbers in the protocol's bytes, the lowest byte first.

ghost use Rattle.std.specs.Prelude.{◌≡◌, ◌≤◌, ◌+◌, ◌*◌, ◌++◌, length, vec_len, vec_capacity, IsOk, OnOk};
ghost use Rattle.fuse_protocol.specs.Bytes.{short_at, word_at, long_at, bytes_of_u16s, bytes_of_u32s, bytes_of_u64s};

use byteorder::{ByteOrder, LittleEndian};
use std::alloc::AllocError;

#[tactic(auto, unfolding(crate::specs::Bytes::short_at))]
pub(crate) fn u16_at(from: &[u8], at: usize) -> u16
    requires { at + 2 ≤ length from.now }
    ensures { result ≡ short_at from.now at }
{
    LittleEndian::read_u16(&from[at..])
}

#[tactic(auto, unfolding(crate::specs::Bytes::word_at))]
pub(crate) fn u32_at(from: &[u8], at: usize) -> u32
    requires { at + 4 ≤ length from.now }
    ensures { result ≡ word_at from.now at }
{
    LittleEndian::read_u32(&from[at..])
}

#[tactic(auto, unfolding(crate::specs::Bytes::long_at))]
pub(crate) fn u64_at(from: &[u8], at: usize) -> u64
    requires { at + 8 ≤ length from.now }
    ensures { result ≡ long_at from.now at }
{
    LittleEndian::read_u64(&from[at..])
}

pub(crate) fn push_u16s(to: &mut Vec<u8>, xs: &[u16]) -> Result<(), AllocError>
    ensures { OnOk result (to.new.items ≡ to.old.items ++ bytes_of_u16s xs.now) }
{
    for x in xs {
        to.extend_from_slice(&x.to_le_bytes())?;
    }
    Ok(())
}

pub(crate) fn push_u32s(to: &mut Vec<u8>, xs: &[u32]) -> Result<(), AllocError>
    ensures items { OnOk result (to.new.items ≡ to.old.items ++ bytes_of_u32s xs.now) }
    ensures len { OnOk result (vec_len to.new ≡ vec_len to.old + 4 * length xs.now) }
    ensures capacity { vec_capacity to.old ≤ vec_capacity to.new }
    ensures succeeds { vec_len to.old + 4 * length xs.now ≤ vec_capacity to.old → IsOk result }
{
    for x in xs {
        to.extend_from_slice(&x.to_le_bytes())?;
    }
    Ok(())
}

pub(crate) fn push_u64s(to: &mut Vec<u8>, xs: &[u64]) -> Result<(), AllocError>
    ensures items { OnOk result (to.new.items ≡ to.old.items ++ bytes_of_u64s xs.now) }
    ensures len { OnOk result (vec_len to.new ≡ vec_len to.old + 8 * length xs.now) }
    ensures capacity { vec_capacity to.old ≤ vec_capacity to.new }
    ensures succeeds { vec_len to.old + 8 * length xs.now ≤ vec_capacity to.old → IsOk result }
{
    for x in xs {
        to.extend_from_slice(&x.to_le_bytes())?;
    }
    Ok(())
}
