//! The table of commands: each by its name, the words behind it, and what they ask for.
ghost use Rattle.std.specs.Prelude.{◌≡◌, ◌++◌, [], ℕ, List, Ok, IfOk, IsTrue, codes, option_map};
ghost use Rattle.fs_model.specs.Steps.{is_of_machine};
ghost use Rattle.fs_lines.specs.declared.line.Line.TheVariants.{Event as Asks};
ghost use Rattle.fs_lines.specs.Commands.{begins_with_digit, caps_apart, lone_commands, commands, path_commands, process_commands, row_named, command_says, words_value};
ghost use Rattle.fs_lines.specs.Words.{number_of};
ghost use Rattle.fs_lines.specs.Readings.{GivesSaid};
ghost use Rattle.fs_lines.specs.BehindPid.{descriptor_rows, name_rows, GivesCommand};

use crate::forms::{begins_with_cap, read_acl, read_caps, read_groups, read_number};
use crate::line::LineFault;
use crate::operand::{Groups, Operands};
use crate::words::Word;
use fs_cred::Cred;
use fs_model::{AclType, Bytes, Call, Event, Path};
use std::alloc::Global;

// The mode of a file that is made, where none is given.
const NEW_FILE_MODE: u16 = 0o666;

// The most bytes that a line reads: those of one move.
const MAX_READ: usize = 4096;

/// What the words of a line ask for.
#[tactic(auto, unfolding(crate::specs::Commands::words_value))]
pub fn read_event(alloc: Global, words: &[Word<'_>]) -> Result<Event, LineFault>
    ensures said { GivesSaid Asks result (words_value words.now) }
    ensures offered { IfOk result (λ e. IsTrue (is_of_machine e)) }
{
    let Some((first, rest)) = words.split_first() else {
        return Err(LineFault::WordCount);
    };
    if !begins_with_digit(first.bytes()) {
        return read_alone(alloc, first.bytes(), rest);
    }
    let Some((name, rest)) = rest.split_first() else {
        return Err(LineFault::WordCount);
    };
    read_behind_pid(alloc, first.bytes(), name.bytes(), rest)
}

fn begins_with_digit(word: &[u8]) -> bool
    ensures { result ≡ begins_with_digit word.now }
{
    matches!(word, [b'0'..=b'9', ..])
}

// What a command asks for that stands alone.
fn read_alone(alloc: Global, name: &[u8], words: &[Word<'_>]) -> Result<Event, LineFault>
    ensures said { GivesSaid Asks result (command_says (row_named lone_commands name.now) [] words.now) }
    ensures offered { IfOk result (λ e. IsTrue (is_of_machine e)) }
{
    let Ok(name) = std::str::from_utf8(name) else {
        return Err(LineFault::UnknownCommand);
    };
    let operands = Operands {
        alloc,
        pid: Ok(0),
        words,
    };
    match name {
        "spawn" => read_spawn(operands),
        "sync" => {
            operands.none()?;
            Ok(Event::Sync)
        }
        "statfs" => {
            operands.none()?;
            Ok(Event::Statfs)
        }
        _ => Err(LineFault::UnknownCommand),
    }
}

// What a command asks for that stands behind a pid.
#[tactic(auto, unfolding(crate::specs::BehindPid::descriptor_rows, crate::specs::BehindPid::name_rows))]
fn read_behind_pid(
    alloc: Global,
    pid: &[u8],
    name: &[u8],
    words: &[Word<'_>],
) -> Result<Event, LineFault>
    ensures said { GivesSaid Asks result (command_says (row_named commands name.now) pid.now words.now) }
    ensures offered { IfOk result (λ e. IsTrue (is_of_machine e)) }
{
    let Ok(name) = std::str::from_utf8(name) else {
        return Err(LineFault::UnknownCommand);
    };
    let pid = read_number(pid);
    read_path_command(name, Operands { alloc, pid, words })
}

// The commands whose first word is a path, and those below.
fn read_path_command(name: &str, operands: Operands<'_>) -> Result<Event, LineFault>
    ensures said { GivesCommand (path_commands ++ descriptor_rows) name.now operands.entry.pid operands.entry.words.now result }
    ensures offered { IfOk result (λ e. IsTrue (is_of_machine e)) }
{
    match name {
        "open" => {
            let (pid, path, flags, mode) = operands.two_or(NEW_FILE_MODE)?;
            Ok(Event::Call(pid, Call::Open(path, flags, mode)))
        }
        "stat" => operands.one_call(Call::Stat),
        "lstat" => operands.one_call(Call::Lstat),
        "access" => operands.two_call(Call::Access),
        "truncate" => operands.two_call(Call::Truncate),
        "chmod" => operands.two_call(Call::Chmod),
        "chown" => { operands.three_call(|path, owner, group| Call::Chown { path, owner, group }) }
        "getacl" => operands.two_call(Call::GetAcl),
        "setacl" => read_set_acl(operands),
        _ => read_descriptor_command(name, operands),
    }
}

// The commands whose first word is a descriptor, and those below.
#[tactic(auto, unfolding(crate::specs::BehindPid::descriptor_rows))]
fn read_descriptor_command(name: &str, operands: Operands<'_>) -> Result<Event, LineFault>
    ensures said { GivesCommand descriptor_rows name.now operands.entry.pid operands.entry.words.now result }
    ensures offered { IfOk result (λ e. IsTrue (is_of_machine e)) }
{
    match name {
        "read" => operands.two_call(|fd, len: usize| Call::Read {
            fd,
            len: len.min(MAX_READ),
        }),
        "write" => operands.two_call(Call::Write),
        "lseek" => operands.three_call(Call::Lseek),
        "close" => operands.one_call(Call::Close),
        "fstat" => operands.one_call(Call::Fstat),
        "fsync" => {
            let (pid, fd) = operands.one()?;
            Ok(Event::Fsync { pid, fd })
        }
        "ftruncate" => operands.two_call(Call::Ftruncate),
        "readdir" => operands.one_call(Call::Readdir),
        _ => read_name_command(name, operands),
    }
}

// The commands on names, and those below.
#[tactic(auto, unfolding(crate::specs::BehindPid::name_rows))]
fn read_name_command(name: &str, operands: Operands<'_>) -> Result<Event, LineFault>
    ensures said { GivesCommand name_rows name.now operands.entry.pid operands.entry.words.now result }
    ensures offered { IfOk result (λ e. IsTrue (is_of_machine e)) }
{
    match name {
        "mkdir" => operands.two_call(Call::Mkdir),
        "rmdir" => operands.one_call(Call::Rmdir),
        "link" => operands.two_call(|old, new| Call::Link { old, new }),
        "symlink" => operands.two_call(|target, path| Call::Symlink { target, path }),
        "readlink" => operands.one_call(Call::Readlink),
        "unlink" => operands.one_call(Call::Unlink),
        "rename" => operands.two_call(|old, new| Call::Rename { old, new }),
        "chdir" => operands.one_call(Call::Chdir),
        _ => read_process_command(name, operands),
    }
}

// The commands on the process itself.
fn read_process_command(name: &str, operands: Operands<'_>) -> Result<Event, LineFault>
    ensures said { GivesCommand process_commands name.now operands.entry.pid operands.entry.words.now result }
    ensures offered { IfOk result (λ e. IsTrue (is_of_machine e)) }
{
    match name {
        "umask" => operands.one_call(Call::Umask),
        "exit" => {
            let pid = operands.none()?;
            Ok(Event::Exit(pid))
        }
        _ => Err(LineFault::UnknownCommand),
    }
}

// An ACL that is set, or removed.
fn read_set_acl(operands: Operands<'_>) -> Result<Event, LineFault>
    ensures said { GivesCommand path_commands (codes "setacl") operands.entry.pid operands.entry.words.now result }
    ensures offered { IfOk result (λ e. IsTrue (is_of_machine e)) }
{
    let (pid, path, which, text): (usize, Path, AclType, Bytes) = operands.three()?;
    let acl = read_acl(operands.alloc, text.bytes())?;
    Ok(Event::Call(pid, Call::SetAcl(path, which, acl)))
}

// The credential of a new process.
fn read_spawn(operands: Operands<'_>) -> Result<Event, LineFault>
    ensures said { operands.entry.pid ≡ Ok 0
        → GivesSaid Asks result (command_says (row_named lone_commands (codes "spawn")) [] operands.entry.words.now) }
    ensures offered { IfOk result (λ e. IsTrue (is_of_machine e)) }
{
    let (words, caps) = caps_apart(operands.words);
    let (_, uid, gid, groups): (usize, u32, u32, Groups) = Operands { words, ..operands }.two_or(
        Groups::new(operands.alloc),
    )?;
    let made = match caps {
        Some(word) => {
            let caps = read_caps(word.bytes())?;
            Cred::with_caps(operands.alloc, uid, gid, groups.ids(), caps)
        }
        None => Cred::new(operands.alloc, uid, gid, groups.ids()),
    };
    match made {
        Ok(cred) => Ok(Event::Spawn(cred)),
        Err(_) => Err(LineFault::OutOfMemory),
    }
}

// The words, and apart from them that of capabilities: a fourth one, or a third that begins as such a word.
fn caps_apart<'a>(words: &'a [Word<'a>]) -> (&'a [Word<'a>], Option<&'a Word<'a>>)
    ensures { (result.0.now, option_map (λ word. word.now) result.1) ≡ caps_apart words.now }
{
    match words {
        [rest @ .., caps] if rest.len() == 3 || rest.len() == 2 && begins_with_cap(caps.bytes()) =>
            (rest, Some(caps)),
        _ => (words, None),
    }
}
