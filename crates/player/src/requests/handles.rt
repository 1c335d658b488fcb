//! Handles, which a kernel gives back as it was told them: a server may choose others than were recorded.

use crate::requests::changing::{number_at, put};
use std::alloc::{AllocError, Global};

// The bytes of the header of a request, and of a reply.
const REQUEST_HEADER: usize = 40;

const REPLY_HEADER: usize = 16;

// So many bytes of a reply to CREATE tell of the object.
const ENTRY_SIZE: usize = 128;

// SETATTR has a handle where it says so.
const HANDLE_IS_GIVEN: u64 = 64;

/// Which handles were told in place of those that were recorded.
#[derive(Drop)]
pub struct Handles {
    // The recorded one, and the one that was told last for it.
    told: Vec<(u64, u64)>,
}

impl Handles {
    /// None so far.
    pub fn new(alloc: Global) -> Handles {
        Handles {
            told: Vec::new(alloc),
        }
    }

    // What was told in place of a handle that was recorded.
    fn told_for(&self, recorded: u64) -> u64 {
        let last = self.told.iter().rev().find(|pair| pair.0 == recorded);
        match last {
            Some(pair) => pair.1,
            None => recorded,
        }
    }

    /// Puts what was told in place of the handle that a recorded request gives.
    pub fn give_back(&self, request: &mut [u8]) {
        if let Some(place) = place_in_request(request) {
            let recorded = number_at(request, place, 8);
            put(request, place as u64, 8, self.told_for(recorded));
        }
    }

    /// Learns which handle a reply to a request tells, and puts the recorded one in its place.
    pub fn take(
        &mut self,
        request: &[u8],
        recorded: &[u8],
        reply: &mut [u8],
    ) -> Result<(), AllocError> {
        let Some(place) = place_in_reply(request) else {
            return Ok(());
        };
        if reply.len() <= REPLY_HEADER || reply.len() != recorded.len() {
            return Ok(());
        }
        let handle = number_at(recorded, place, 8);
        self.told.push((handle, number_at(reply, place, 8)))?;
        put(reply, place as u64, 8, handle);
        Ok(())
    }
}

// Where a request has its handle: READ, WRITE, RELEASE, FSYNC, FLUSH and those of directories begin with it.
fn place_in_request(request: &[u8]) -> Option<usize> {
    match number_at(request, 4, 4) {
        15 | 16 | 18 | 20 | 25 | 28..=30 | 44 => Some(REQUEST_HEADER),
        4 if number_at(request, REQUEST_HEADER, 4) & HANDLE_IS_GIVEN != 0 => {
            Some(REQUEST_HEADER + 8)
        }
        _ => None,
    }
}

// Where the reply to a request tells a handle: to OPEN, OPENDIR and CREATE.
fn place_in_reply(request: &[u8]) -> Option<usize> {
    match number_at(request, 4, 4) {
        14 | 27 => Some(REPLY_HEADER),
        35 => Some(REPLY_HEADER + ENTRY_SIZE),
        _ => None,
    }
}
