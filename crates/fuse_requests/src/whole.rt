//! Requests for the whole file system.
ghost use Rattle.std.specs.Prelude.{◌≤◌};
ghost use Rattle.fuse_plans.specs.DirectoryPlans.{sync_all};
ghost use Rattle.fuse_plans.specs.Serving.{count_space, end};
ghost use Rattle.fuse_sessions.specs.Performing.{Did};

use fs_model::Event;
use fuse_plans::{Replied, ReplyBody, RequestError};
use fuse_sessions::Session;
use fuse_steps::Machine;
use fuse_steps::asker::obtain;
use fuse_steps::replies::space_of_reply;

/// How much room there is.
pub(crate) fn count_space<M: Machine>(session: &mut Session<M>) -> Replied
    ensures did { Did M.Serves count_space session.old session.new result }
    ensures room { session.old.server.room ≤ session.new.server.room }
{
    let reply = obtain(&mut session.machine, Event::Statfs)?;
    let space = space_of_reply(&reply);
    reply.discard();
    let Some((free_sectors, free_inodes)) = space else {
        return Err(RequestError::EIO);
    };
    let settings = session.server.settings();
    Ok(ReplyBody::Space {
        sectors: settings.sectors,
        free_sectors,
        inodes: settings.inodes,
        free_inodes,
        max_name: settings.max_name,
    })
}

/// What was done before is to last.
pub(crate) fn sync_all<M: Machine>(session: &mut Session<M>) -> Replied
    ensures did { Did M.Serves sync_all session.old session.new result }
    ensures room { session.old.server.room ≤ session.new.server.room }
{
    obtain(&mut session.machine, Event::Sync)?.discard();
    Ok(ReplyBody::Nothing)
}

/// The last request.
pub(crate) fn end<M: Machine>(session: &mut Session<M>) -> Replied
    ensures did { Did M.Serves end session.old session.new result }
    ensures room { session.old.server.room ≤ session.new.server.room }
{
    session.server.end();
    sync_all(session)
}
