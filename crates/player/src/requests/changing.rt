//! Changes bytes of requests by chance.

use crate::requests::chance::Chance;
use std::alloc::AllocError;

// The bytes of a request's header. Its first four are the length.
const HEADER_SIZE: u64 = 40;

// So far into a request stand the numbers, and most names.
const FRONT_SIZE: u64 = 140;

// Numbers at which something ends.
static NUMBERS: [u64; 12] = [
    0,
    1,
    2,
    63,
    64,
    255,
    4096,
    131_072,
    2_147_483_648,
    4_294_967_295,
    9_223_372_036_854_775_808,
    18_446_744_073_709_551_615,
];

// Who is recorded.
static USERS: [u64; 5] = [0, 1000, 1001, 1002, 65_534];

/// Changes a request at one to three places. Mostly it stays whole.
pub fn change(chance: &mut Chance, request: &mut Vec<u8>) -> Result<(), AllocError> {
    for _ in 0..=chance.below(3) {
        change_once(chance, request)?;
    }
    if chance.is_once_in(200) {
        let length = chance.below(200);
        put(request, 0, 1, length);
    }
    Ok(())
}

fn change_once(chance: &mut Chance, request: &mut Vec<u8>) -> Result<(), AllocError> {
    let front = FRONT_SIZE.min(request.len() as u64);
    let dentry = chance.below(front).max(4);
    let value = one_of(chance, &NUMBERS);
    let kind = chance.below(10);
    if kind == 6 {
        return change_length(chance, request);
    }
    let (dentry, size, number) = any_number(chance, kind, dentry, value);
    put(request, dentry, size, number);
    Ok(())
}

// Where a number is put, in how many bytes, and which one.
fn any_number(chance: &mut Chance, kind: u64, dentry: u64, value: u64) -> (u64, usize, u64) {
    let aligned = (dentry / 4).saturating_mul(4);
    match kind {
        0 => (aligned, 4, value),
        1 => (aligned, 8, value),
        2 => (aligned, 8, any_node(chance)),
        3 => (16, 8, any_node(chance)),
        4 => any_user(chance),
        5 => (4, 4, chance.below(54)),
        _ => (dentry, 1, chance.below(256)),
    }
}

// Who asks is another user, or another group.
fn any_user(chance: &mut Chance) -> (u64, usize, u64) {
    let user = one_of(chance, &USERS);
    let dentry = chance.below(2).saturating_mul(4).saturating_add(24);
    (dentry, 4, user)
}

fn one_of(chance: &mut Chance, numbers: &[u64]) -> u64 {
    chance.pick(numbers).copied().unwrap_or(0)
}

// A node as the server makes them: the number of an inode, and how many objects had that before.
fn any_node(chance: &mut Chance) -> u64 {
    let generation = chance.below(4).saturating_mul(4_294_967_296);
    chance.below(66).saturating_add(generation)
}

// Another length, which the request says too.
fn change_length(chance: &mut Chance, request: &mut Vec<u8>) -> Result<(), AllocError> {
    let longest = (request.len() as u64).saturating_add(10);
    let length = chance.below(longest).max(HEADER_SIZE);
    request.resize(length as usize, 0)?;
    put(request, 0, 4, length);
    Ok(())
}

/// Puts the lowest bytes of a number there.
pub fn put(request: &mut [u8], dentry: u64, size: usize, number: u64) {
    let mut rest = number;
    for byte in request.iter_mut().skip(dentry as usize).take(size) {
        *byte = (rest % 256) as u8;
        rest /= 256;
    }
}

/// The number whose lowest byte comes first.
pub fn number_at(bytes: &[u8], dentry: usize, size: usize) -> u64 {
    let mut number: u64 = 0;
    let mut weight: u64 = 1;
    for byte in bytes.iter().skip(dentry).take(size) {
        number = number.wrapping_add(weight.wrapping_mul(u64::from(*byte)));
        weight = weight.wrapping_mul(256);
    }
    number
}

/// Whether the server has to end with this request: it isn't whole, or is the last one, DESTROY.
pub fn has_to_end(request: &[u8]) -> bool {
    let length = request.len() as u64;
    if length < HEADER_SIZE || number_at(request, 0, 4) != length {
        return true;
    }
    let extensions = number_at(request, 36, 2).saturating_mul(8);
    number_at(request, 4, 4) == 38 && HEADER_SIZE.saturating_add(extensions) <= length
}

/// Whether a reply is of its form: it says its length and the number of the request, and that of an error alone has no more.
pub fn is_reply_to(reply: &[u8], request: &[u8]) -> bool {
    let length = reply.len() as u64;
    let error = number_at(reply, 4, 4);
    length >= 16
        && number_at(reply, 0, 4) == length
        && number_at(reply, 8, 8) == number_at(request, 8, 8)
        && (error == 0 || error > 4_294_967_163 && length == 16)
}
