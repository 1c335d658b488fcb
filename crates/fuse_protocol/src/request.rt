//! A request of the kernel.

ghost use Rattle.std.specs.Prelude.{◌≡◌, ◌≤◌, ◌+◌, length};
ghost use Rattle.fuse_protocol.specs.Requests.{request_of, operation_in};

use crate::bytes::{u16_at, u32_at, u64_at};
use crate::operation::{Operation, parse_operation};

/// The bytes of a request's header.
pub const HEADER_SIZE: usize = 40;

/// A request: its number, which the reply repeats, the node that it is asked of, and the process that made it. Of requests that the
/// kernel makes by itself, as when a file is closed, the process is 0.
#[derive(Drop)]
pub struct Request<'a> {
    pub unique: u64,
    pub node: u64,
    pub uid: u32,
    pub gid: u32,
    pub pid: u32,
    pub operation: Operation<'a>,
}

/// Why bytes are no request.
#[derive(Clone, Copy)]
pub enum RequestFault {
    /// The bytes are fewer than a header has, or than the header says, or more. There is no reply to this.
    NotWhole,
    /// The body isn't of the form that its operation has; the number is that of the request.
    Malformed(u64),
}

/// The request that was read as these bytes, which are all that one read gave.
#[tactic(auto, unfolding(crate::specs::Requests::request_of))]
pub fn parse_request(from: &[u8]) -> Result<Request<'_>, RequestFault>
    ensures { result ≡ request_of from.now }
{
    if from.len() < HEADER_SIZE {
        return Err(RequestFault::NotWhole);
    }
    if u32_at(from, 0) as usize != from.len() {
        return Err(RequestFault::NotWhole);
    }
    let unique = u64_at(from, 8);
    let Some(operation) = operation_in(from) else {
        return Err(RequestFault::Malformed(unique));
    };
    Ok(Request {
        unique,
        node: u64_at(from, 16),
        uid: u32_at(from, 24),
        gid: u32_at(from, 28),
        pid: u32_at(from, 32),
        operation,
    })
}

// What the body between header and extensions asks for.
fn operation_in(from: &[u8]) -> Option<Operation<'_>>
    requires { HEADER_SIZE ≤ length from.now }
    ensures { result ≡ operation_in from.now }
{
    let extensions = 8 * u16_at(from, 36) as usize;
    if from.len() < HEADER_SIZE + extensions {
        return None;
    }
    let body = &from[HEADER_SIZE..from.len() - extensions];
    parse_operation(u32_at(from, 4), body)
}
