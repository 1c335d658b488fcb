//! Requests for the two ACLs of acl(5), which are attributes to the kernel.
ghost use Rattle.std.specs.Prelude.{◌≡◌, ◌≤◌, ℕ, Err};
ghost use Rattle.posix_acl.specs.AccessList.{minimal};
ghost use Rattle.fuse_plans.specs.AclPlans.{acl_of_node, acl_at, attribute_names, names_if, list_xattrs, tell_acl, get_xattr, acl_set, set_acl, set_xattr, remove_xattr};
ghost use Rattle.fuse_plans.specs.Works.{of_result};
ghost use Rattle.fuse_sessions.specs.Performing.{Did};

use crate::attributes::on_once;
use fs_model::{AclType, Bytes, Call};
use fuse_plans::{Asked, OtherErrno, Replied, ReplyBody, RequestError, Tried};
use fuse_sessions::Session;
use fuse_steps::Machine;
use fuse_steps::acls::{AclNames, acl_size, is_plain, sized, the_acl};
use fuse_steps::asker::{actor_in, who_asks};
use fuse_steps::changes::or_not_for_files;
use posix_acl::Acl;

// An ACL of what is there.
fn acl_of_node<M: Machine>(
    session: &mut Session<M>,
    node: u64,
    which: AclType,
) -> Tried<Option<Acl>>
    ensures did { Did M.Serves (acl_of_node node which) session.old session.new result }
    ensures kept { session.new.server ≡ session.old.server }
{
    let ino = session.the_number(node)?;
    session.acl_of(ino, which)
}

// An ACL of what a node names. A directory that was removed has none.
fn acl_at<M: Machine>(session: &mut Session<M>, node: u64, which: AclType) -> Tried<Option<Acl>>
    ensures { Did M.Serves (acl_at node which) session.old session.new result }
{
    match acl_of_node(session, node, which) {
        Ok(found) => Ok(found),
        Err(error) => {
            let _removed = session.removed_instead(node, error)?;
            Ok(None)
        }
    }
}

/// An ACL, or how many bytes it has.
pub(crate) fn get_xattr<M: Machine>(
    session: &mut Session<M>,
    asked: &Asked,
    name: &[u8],
    size: u32,
) -> Replied
    ensures { Did M.Serves (get_xattr asked.entry.now name.now size) session.old session.new result }
{
    let which = the_acl(name)?;
    let found = acl_at(session, asked.node, which)?;
    tell_acl(size, found)
}

// An ACL that is there, or how many bytes it has.
fn tell_acl(size: u32, found: Option<Acl>) -> Replied
    ensures { tell_acl size found ≡ of_result result }
{
    let Some(acl) = found else {
        return Err(RequestError::ENODATA);
    };
    let has = acl_size(&acl);
    sized(size, has, ReplyBody::Acl(acl))
}

// The names of an object's ACLs.
fn attribute_names<M: Machine>(session: &mut Session<M>, node: u64, names: AclNames) -> Tried<Bytes>
    ensures { Did M.Serves (attribute_names node) session.old session.new result }
{
    match acl_at(session, node, AclType::Access) {
        Ok(access) => {
            let default = acl_at(session, node, AclType::Default)?;
            Ok(names.told(access.is_some(), default.is_some()))
        }
        Err(error) => no_names_of_link(names, error),
    }
}

// A link has no ACLs.
fn no_names_of_link(names: AclNames, error: RequestError) -> Tried<Bytes>
    ensures { (node : ℕ) → names_if node (Err error) ≡ of_result result }
{
    match error {
        RequestError::Lacks(OtherErrno::EOPNOTSUPP) => Ok(names.told(false, false)),
        error => Err(error),
    }
}

/// The names of the ACLs that an object has, or how many bytes they have.
pub(crate) fn list_xattrs<M: Machine>(
    session: &mut Session<M>,
    asked: &Asked,
    size: u32,
    names: AclNames,
) -> Replied
    ensures { Did M.Serves (list_xattrs asked.entry.now size) session.old session.new result }
{
    let names = attribute_names(session, asked.node, names)?;
    let count = names.bytes().len();
    sized(size, count, ReplyBody::Bytes(names))
}

// The ACL that an object is to have, if any, with memory for the three entries of a mode.
#[derive(Drop)]
struct NewAcl {
    which: AclType,
    wanted: Option<Acl>,
    spare: Acl,
}

// No access ACL: the three entries of the present mode.
fn acl_set<M: Machine>(session: &mut Session<M>, ino: u32, new_acl: NewAcl) -> Tried<Option<Acl>>
    requires { new_acl.spare ≡ minimal 0 }
    ensures did { Did M.Serves (acl_set ino new_acl.which new_acl.wanted) session.old session.new result }
    ensures kept { session.new.server ≡ session.old.server }
{
    let NewAcl {
        which,
        wanted,
        spare,
    } = new_acl;
    if !is_plain(which, &wanted) {
        return Ok(wanted);
    }
    let status = session.look(ino)?;
    Ok(Some(spare.with_mode_bits(status.mode)))
}

/// Sets an ACL, or removes it.
fn set_acl<M: Machine>(session: &mut Session<M>, asked: Asked, new_acl: NewAcl) -> Replied
    requires spare { new_acl.spare ≡ minimal 0 }
    requires room { 1 ≤ session.old.server.room }
    ensures { Did M.Serves (set_acl asked new_acl.which new_acl.wanted) session.old session.new result }
{
    let ino = session.the_number(asked.node)?;
    let cred = who_asks(asked.cred)?;
    let which = new_acl.which;
    let acl = acl_set(session, ino, new_acl)?;
    let actor = actor_in(cred, ino);
    let call = Call::SetAcl(session.empty_path(), which, acl);
    or_not_for_files(on_once(session, &actor, call))?;
    session.server.change(asked.now, ino);
    Ok(ReplyBody::Nothing)
}

/// Sets the ACL that an attribute's value says.
pub(crate) fn set_xattr<M: Machine>(
    session: &mut Session<M>,
    asked: Asked,
    name: &[u8],
    value: Option<Option<Acl>>,
    spare: Acl,
) -> Replied
    requires spare { spare ≡ minimal 0 }
    requires room { 1 ≤ session.old.server.room }
    ensures { Did M.Serves (set_xattr asked name.now value) session.old session.new result }
{
    let which = the_acl(name)?;
    let Some(wanted) = value else {
        return Err(RequestError::EINVAL);
    };
    let new_acl = NewAcl {
        which,
        wanted,
        spare,
    };
    set_acl(session, asked, new_acl)
}

/// Removes an ACL.
pub(crate) fn remove_xattr<M: Machine>(
    session: &mut Session<M>,
    asked: Asked,
    name: &[u8],
    spare: Acl,
) -> Replied
    requires spare { spare ≡ minimal 0 }
    requires room { 1 ≤ session.old.server.room }
    ensures { Did M.Serves (remove_xattr asked name.now) session.old session.new result }
{
    let which = the_acl(name)?;
    let new_acl = NewAcl {
        which,
        wanted: None,
        spare,
    };
    set_acl(session, asked, new_acl)
}
