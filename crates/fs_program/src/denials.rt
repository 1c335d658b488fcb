//! Denials, a line each, as far as a second has room for them.

ghost use Rattle.std.specs.Prelude.{◌≡◌, ◌++◌, IfOk, OnOk, string_bytes};
ghost use Rattle.std.specs.Option.{option_copied};
ghost use Rattle.fs_program.specs.Denials.{request_name, name_asked, name_text, inode_number, who_text, asked_text, denial_words, denial_line};

use fs_cred::{Denial, Refusal};
use fs_lines::{reply_text, word_text};
use fs_model::Reply;
use fuse_plans::{RequestError, Response};
use fuse_protocol::{Operation, Request, Time};
use fuse_serving::Witness;
use std::alloc::{AllocError, Global};
use std::io::Write;
use user_lines::UserLines;

/// Tells of each request that was denied by a rule, if there is something to write to: by a line, or by how many had none.
#[derive(Drop)]
pub(crate) struct DenialList<W> {
    alloc: Global,
    lines: Option<UserLines<W>>,
}

impl<W> DenialList<W> {
    /// Lines are written to this, or nowhere.
    pub(crate) fn new(alloc: Global, out: Option<W>) -> DenialList<W> {
        DenialList {
            alloc,
            lines: out.map(|out| UserLines::new(alloc, out)),
        }
    }
}

impl<W: Write> DenialList<W> {
    /// Tells what is still to be told, as there are no more requests. On a device that is full it can't.
    pub(crate) fn end(&mut self) {
        if let Some(lines) = &mut self.lines {
            let _ = lines.end();
        }
    }
}

impl<W: Write> Witness for DenialList<W> {
    fn see(&mut self, request: &Request<'_>, response: &Response, now: Time) {
        if let Response::Fails(RequestError::Refuses(Refusal::Denied(denial))) = response {
            if let Some(lines) = &mut self.lines {
                match denial_line(self.alloc, request, *denial, now) {
                    Ok(line) => lines.tell(now.seconds, request.uid, &line),
                    Err(_) => lines.leave_out(now.seconds, request.uid),
                }
            }
        }
    }
}

// Adds when it was denied, to which user and to which process.
fn push_who(line: &mut String, request: &Request<'_>, now: Time) -> Result<(), AllocError>
    ensures { OnOk result (string_bytes line.new ≡ string_bytes line.old ++ who_text now request.now) }
{
    let seconds = now.seconds;
    let uid = request.uid;
    let pid = request.pid;
    write!(line, "{seconds} {uid} {pid} ")
}

// Adds what was asked for, and of which object.
fn push_asked(line: &mut String, request: &Request<'_>) -> Result<(), AllocError>
    ensures { OnOk result (string_bytes line.new ≡ string_bytes line.old ++ asked_text request.now) }
{
    let asked = request_name(&request.operation);
    let number = inode_number(request);
    write!(line, "{asked} {number} ")
}

// The number of the inode that a node names: of the directory of a name, or of the object itself.
fn inode_number(request: &Request<'_>) -> u64
    ensures { result ≡ inode_number request.now }
{
    request.node % (1 << 32)
}

// Adds the name that it was asked for, as a word; without one a hyphen.
fn push_name(line: &mut String, alloc: Global, operation: &Operation<'_>) -> Result<(), AllocError>
    ensures { OnOk result (string_bytes line.new ≡ string_bytes line.old ++ name_text operation.now) }
{
    let named = name_text(alloc, operation)?;
    line.push_str(named.as_str())
}

// Adds the shell's words of the denial.
fn push_words(line: &mut String, alloc: Global, denial: Denial) -> Result<(), AllocError>
    ensures { OnOk result (string_bytes line.new ≡ string_bytes line.old ++ denial_words denial) }
{
    let words = reply_text(alloc, &Reply::Refused(Refusal::Denied(denial)))?;
    line.push_str(words.as_str())
}

// The line of a denial: when, to whom, of which request for which name; and the shell's words of it.
#[tactic(auto, using(std::proofs::Common::append_assoc))]
fn denial_line(
    alloc: Global,
    request: &Request<'_>,
    denial: Denial,
    now: Time,
) -> Result<String, AllocError>
    ensures { IfOk result (λ line. string_bytes line ≡ denial_line now request.now denial) }
{
    let mut line = String::new(alloc);
    push_who(&mut line, request, now)?;
    push_asked(&mut line, request)?;
    push_name(&mut line, alloc, &request.operation)?;
    line.push_str(" ")?;
    push_words(&mut line, alloc, denial)?;
    line.push_str("\n")?;
    Ok(line)
}

// The name that a request is about, as a word; without one a hyphen.
fn name_text(alloc: Global, operation: &Operation<'_>) -> Result<String, AllocError>
    ensures { IfOk result (λ text. string_bytes text ≡ name_text operation.now) }
{
    match name_asked(operation) {
        Some(name) => word_text(alloc, name),
        None => String::from_str(alloc, "-"),
    }
}

// The name that a request is about, of two the first.
fn name_asked<'a>(operation: &Operation<'a>) -> Option<&'a [u8]>
    ensures { option_copied result ≡ name_asked operation.now }
{
    match operation {
        Operation::Lookup(name)
        | Operation::SymLink { name, .. }
        | Operation::MkNod { name, .. }
        | Operation::MkDir { name, .. }
        | Operation::Unlink(name)
        | Operation::RmDir(name)
        | Operation::Rename { name, .. }
        | Operation::Link { new_name: name, .. }
        | Operation::Create { name, .. } => Some(name.bytes()),
        Operation::SetXAttr { name, .. } | Operation::RemoveXAttr(name) => Some(name.bytes()),
        _ => None,
    }
}

// What is asked for, as the kernel's header calls it.
fn request_name(operation: &Operation<'_>) -> &'static str
    ensures { result.now ≡ request_name operation.now }
{
    match operation {
        Operation::Lookup(_) => "LOOKUP",
        Operation::SetAttr(_) => "SETATTR",
        Operation::SymLink { .. } => "SYMLINK",
        Operation::MkNod { .. } => "MKNOD",
        Operation::MkDir { .. } => "MKDIR",
        Operation::Unlink(_) => "UNLINK",
        Operation::RmDir(_) => "RMDIR",
        Operation::Rename { .. } => "RENAME",
        Operation::Link { .. } => "LINK",
        Operation::Open(_) => "OPEN",
        Operation::SetXAttr { .. } => "SETXATTR",
        Operation::RemoveXAttr(_) => "REMOVEXATTR",
        Operation::OpenDir => "OPENDIR",
        Operation::Access(_) => "ACCESS",
        Operation::Create { .. } => "CREATE",
        _ => "OTHER",
    }
}
