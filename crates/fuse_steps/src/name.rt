//! Names in requests, and what is told of what has one.
ghost use Rattle.std.specs.Prelude.{◌≡◌};
ghost use Rattle.fuse_plans.specs.NamePlans.{plain_name, attributes, found_body, judged_valid, looked_up_body, keeps_absent, or_keep_absent, keeps_names, unless_hidden, or_absent, only_file, only_no_replace, none_there};
ghost use Rattle.fuse_plans.specs.Works.{of_result};

use crate::times::times_in;
use fs_cred::Errno;
use fs_model::{Path, Reply, Stamps, Status};
use fuse_plans::{Attributes, OtherErrno, Replied, ReplyBody, RequestError, Tried};
use fuse_state::{Server, Settings};

/// Nobody asks for `.` or `..` by name: the kernel resolves these itself. EINVAL for them.
pub fn plain_name(name: &Path) -> Tried<()>
    ensures { plain_name name.now ≡ of_result result }
{
    let bytes = name.bytes();
    if bytes == b".".as_slice() || bytes == b"..".as_slice() {
        Err(RequestError::EINVAL)
    } else {
        Ok(())
    }
}

/// What is told of an object: what stat(2) shows, and its times: the machine's, where it has any.
pub fn attributes(server: &Server, status: Status, stamps: Option<Stamps>) -> Attributes
    ensures { result ≡ attributes server.now.server status stamps }
{
    Attributes {
        status,
        times: times_in(server, status.ino, stamps),
        valid: server.settings().keeping.attributes,
    }
}

/// What is told of an object that was found: its node too, and for how many seconds the kernel may keep the name.
pub fn found_body(
    server: &Server,
    name_valid: u64,
    status: Status,
    stamps: Option<Stamps>,
) -> ReplyBody
    ensures { result ≡ found_body name_valid status stamps server.now.server }
{
    ReplyBody::Found {
        node: server.node_of(status.ino),
        name_valid,
        shown: attributes(server, status, stamps),
    }
}

// For how many seconds the kernel may keep a name that was looked up: where it has judged.
fn judged_valid(needs_nobody: bool, settings: Settings) -> u64
    ensures { result ≡ judged_valid needs_nobody settings }
{
    if needs_nobody {
        settings.keeping.names
    } else {
        0
    }
}

/// What is told of an object that was looked up.
pub fn looked_up_body(
    server: &Server,
    needs_nobody: bool,
    status: Status,
    stamps: Option<Stamps>,
) -> ReplyBody
    ensures { result ≡ looked_up_body needs_nobody status stamps server.now.server }
{
    let name_valid = judged_valid(needs_nobody, server.settings());
    found_body(server, name_valid, status, stamps)
}

// Whether nothing has the name, and the kernel, which has judged, may keep that.
fn keeps_absent(needs_nobody: bool, settings: Settings, error: RequestError) -> bool
    ensures { result ≡ keeps_absent needs_nobody settings error }
{
    needs_nobody && (error.is_for(Errno::ENOENT) && settings.keeping.absent != 0)
}

/// Where a name was looked up in vain: the error, or that nothing has it.
pub fn or_keep_absent(settings: Settings, needs_nobody: bool, error: RequestError) -> Replied
    ensures { or_keep_absent needs_nobody settings error ≡ of_result result }
{
    if keeps_absent(needs_nobody, settings, error) {
        Ok(ReplyBody::Absent(settings.keeping.absent))
    } else {
        Err(error)
    }
}

/// Whether the kernel judges by lists, and keeps names.
pub fn keeps_names(settings: Settings) -> bool
    ensures { result ≡ keeps_names settings }
{
    settings.posix_acl && settings.keeping.names != 0
}

/// For how many seconds the kernel may keep a new name: not at all where it wasn't seen that it follows the directory's list.
pub fn unless_hidden(name_valid: u64, hides: Tried<bool>) -> u64
    ensures { result ≡ unless_hidden name_valid hides }
{
    match hides {
        Ok(hides) => { if hides { 0 } else { name_valid } }
        Err(_unseen) => 0,
    }
}

/// A directory that is gone has no names: ENOENT in place of ESTALE.
pub fn or_absent(known: Tried<u32>) -> Tried<u32>
    ensures { or_absent known ≡ of_result result }
{
    match known {
        Err(RequestError::Lacks(OtherErrno::ESTALE)) => Err(RequestError::ENOENT),
        known => known,
    }
}

// The type in a mode.
const TYPE_BITS: u32 = 0o170000;

const FILE_TYPE: u32 = 0o100000;

/// Other types than that of a file aren't made, as mknod(2) has it: EPERM. Without a type it is that of a file.
pub fn only_file(mode: u32) -> Tried<()>
    ensures { only_file mode ≡ of_result result }
{
    let file_type = mode & TYPE_BITS;
    if file_type == 0 || file_type == FILE_TYPE {
        Ok(())
    } else {
        Err(RequestError::EPERM)
    }
}

/// The one flag is that nothing may be replaced, RENAME_NOREPLACE of renameat2(2): EINVAL for any other.
pub fn only_no_replace(flags: u32) -> Tried<()>
    ensures { only_no_replace flags ≡ of_result result }
{
    if flags > 1 {
        Err(RequestError::EINVAL)
    } else {
        Ok(())
    }
}

/// The name leads nowhere: EEXIST where it leads to something. Other errors of the look at it stay.
pub fn none_there(there: Tried<Reply>) -> Tried<()>
    ensures { none_there there ≡ of_result result }
{
    match there {
        Ok(_found) => Err(RequestError::EEXIST),
        Err(error) => {
            if error.is_for(Errno::ENOENT) {
                Ok(())
            } else {
                Err(error)
            }
        }
    }
}
