//! Who is told what requests were answered.

use fuse_plans::Response;
use fuse_protocol::{Request, Time};

/// Is told of each request whose body is of its form, with its answer. What it does with that changes nothing of what is served.
pub trait Witness {
    fn see(&mut self, request: &Request<'_>, response: &Response, now: Time);
}

/// Nobody is told.
#[derive(Drop)]
pub struct Nobody;

impl Witness for Nobody {
    fn see(&mut self, _request: &Request<'_>, _response: &Response, _now: Time) {}
}
