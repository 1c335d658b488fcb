//! The first request: what is agreed on with the kernel.
ghost use Rattle.fuse_plans.specs.Serving.{begin};
ghost use Rattle.fuse_sessions.specs.Performing.{Did};

use fuse_plans::{Replied, RequestError};
use fuse_protocol::Offer;
use fuse_sessions::Session;
use fuse_steps::Machine;
use fuse_steps::agreement::{agreed, offers_acls, terms};

// The version that is spoken.
const VERSION: u32 = 7;

/// The first request.
pub(crate) fn begin<M: Machine>(session: &mut Session<M>, offer: &Offer) -> Replied
    ensures { Did M.Serves (begin offer.now) session.old session.new result }
{
    if offer.major < VERSION {
        return Err(RequestError::EPROTO);
    }
    if offer.major > VERSION {
        return Ok(terms(0, 0, 0, 0));
    }
    session.server.agree_on_acls(offers_acls(offer));
    Ok(agreed(offer, session.server.settings()))
}
