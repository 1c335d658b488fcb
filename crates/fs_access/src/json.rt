//! The answer as a JSON object, for programs.
ghost use Rattle.std.specs.Prelude.{◌++◌, OnOk};
ghost use Rattle.std.specs.List.{flat_map};
ghost use Rattle.fs_access.specs.Components.{prefix_of};
ghost use Rattle.std.specs.Io.KnownBytes.{Appends};
ghost use Rattle.fs_access.specs.Objects.{quoted, quoted_byte, user_text, groups_text, asked_members, granted_members, error_members, reason_members, component_members, denial_members, failure_members, outcome_members, object};

use crate::component::prefix_of;
use crate::question::{Answer, Question};
use fs_cred::{Cred, Denial, Errno, Rule};
use fs_lines::{hex_digit, need_text, rule_text};
use std::alloc::Global;
use std::io::{self, Write};

/// Prints what was asked and what is answered, as one object on one line.
pub(crate) fn print_object<O: Write>(
    alloc: Global,
    question: &Question<'_>,
    answer: &Answer,
    out: &mut O,
) -> io::Result<()>
    ensures { OnOk result (Appends (O.contents out.old) (O.contents out.new) (object question.now answer.now)) }
{
    print_asked(question, out)?;
    print_outcome(alloc, question, answer, out)
}

fn print_asked<O: Write>(question: &Question<'_>, out: &mut O) -> io::Result<()>
    ensures { OnOk result (Appends (O.contents out.old) (O.contents out.new) (asked_members question.now)) }
{
    write!(out, "{{\"path\":")?;
    print_quoted(question.path(), out)?;
    let letters = question.perms().letters();
    write!(out, ",\"perm\":\"{letters}\",\"user\":\"")?;
    print_user(question.cred(), out)?;
    write!(out, "\"")?;
    Ok(())
}

// The user, its group, and its further groups.
fn print_user<O: Write>(cred: &Cred, out: &mut O) -> io::Result<()>
    ensures { OnOk result (Appends (O.contents out.old) (O.contents out.new) (user_text cred.now)) }
{
    let uid = cred.uid();
    let gid = cred.gid();
    write!(out, "{uid}:{gid}")?;
    print_groups(cred.groups(), out)
}

fn print_groups<O: Write>(groups: &[u32], out: &mut O) -> io::Result<()>
    ensures { OnOk result (Appends (O.contents out.old) (O.contents out.new) (groups_text groups.now)) }
{
    for group in groups {
        write!(out, ",{group}")?;
    }
    Ok(())
}

fn print_outcome<O: Write>(
    alloc: Global,
    question: &Question<'_>,
    answer: &Answer,
    out: &mut O,
) -> io::Result<()>
    ensures { OnOk result (Appends (O.contents out.old) (O.contents out.new) (outcome_members question.now answer.now)) }
{
    match answer {
        Answer::Granted(rule) => print_granted(alloc, *rule, out),
        Answer::Denied { denial, link } => print_denial(alloc, question, *denial, *link, out),
        Answer::Failed(errno) => print_failure(*errno, out),
    }
}

fn print_failure<O: Write>(errno: Errno, out: &mut O) -> io::Result<()>
    ensures { OnOk result (Appends (O.contents out.old) (O.contents out.new) (failure_members errno)) }
{
    print_error(errno, out)?;
    writeln!(out, "}}")?;
    Ok(())
}

fn print_denial<O: Write>(
    alloc: Global,
    question: &Question<'_>,
    denial: Denial,
    link: Option<usize>,
    out: &mut O,
) -> io::Result<()>
    ensures { OnOk result (Appends (O.contents out.old) (O.contents out.new) (denial_members question.now denial link)) }
{
    print_error(denial.errno, out)?;
    print_reason(alloc, denial, out)?;
    print_component(alloc, question, denial.step, link, out)?;
    writeln!(out, "}}")?;
    Ok(())
}

fn print_granted<O: Write>(alloc: Global, rule: Rule, out: &mut O) -> io::Result<()>
    ensures { OnOk result (Appends (O.contents out.old) (O.contents out.new) (granted_members rule)) }
{
    let rule = rule_text(alloc, rule)?;
    writeln!(out, ",\"granted\":true,\"rule\":\"{rule}\"}}")
}

fn print_error<O: Write>(errno: Errno, out: &mut O) -> io::Result<()>
    ensures { OnOk result (Appends (O.contents out.old) (O.contents out.new) (error_members errno)) }
{
    let name = errno.name();
    let number = errno.number();
    write!(
        out,
        ",\"granted\":false,\"error\":\"{name}\",\"errno\":{number}"
    )
}

// Where it was refused, what was needed, and by which rule.
fn print_reason<O: Write>(alloc: Global, denial: Denial, out: &mut O) -> io::Result<()>
    ensures { OnOk result (Appends (O.contents out.old) (O.contents out.new) (reason_members denial)) }
{
    let step = denial.step;
    let need = need_text(alloc, denial.need)?;
    let rule = rule_text(alloc, denial.rule)?;
    write!(
        out,
        ",\"step\":{step},\"need\":\"{need}\",\"rule\":\"{rule}\""
    )
}

// The component that refused, or the symbolic link through which the walk went.
fn print_component<O: Write>(
    alloc: Global,
    question: &Question<'_>,
    step: usize,
    link: Option<usize>,
    out: &mut O,
) -> io::Result<()>
    ensures { OnOk result (Appends (O.contents out.old) (O.contents out.new) (component_members question.now step link)) }
{
    match link {
        None => print_prefix(alloc, question, ",\"component\":", step, out),
        Some(count) => print_prefix(alloc, question, ",\"link\":", count, out),
    }
}

// So many components of the path, as a string behind its name.
fn print_prefix<O: Write>(
    alloc: Global,
    question: &Question<'_>,
    name: &str,
    count: usize,
    out: &mut O,
) -> io::Result<()>
    ensures { OnOk result (Appends (O.contents out.old) (O.contents out.new) (name.now ++ quoted (prefix_of question.now.path count))) }
{
    let prefix = prefix_of(alloc, question.path(), count)?;
    write!(out, "{name}")?;
    print_quoted(&prefix, out)?;
    Ok(())
}

// Bytes of a text, as a JSON string.
fn print_quoted<O: Write>(bytes: &[u8], out: &mut O) -> io::Result<()>
    ensures { OnOk result (Appends (O.contents out.old) (O.contents out.new) (quoted bytes.now)) }
{
    write!(out, "\"")?;
    print_bytes(bytes, out)?;
    write!(out, "\"")?;
    Ok(())
}

fn print_bytes<O: Write>(bytes: &[u8], out: &mut O) -> io::Result<()>
    ensures { OnOk result (Appends (O.contents out.old) (O.contents out.new) (flat_map quoted_byte bytes.now)) }
{
    for byte in bytes {
        print_byte(*byte, out)?;
    }
    Ok(())
}

fn print_byte<O: Write>(byte: u8, out: &mut O) -> io::Result<()>
    ensures { OnOk result (Appends (O.contents out.old) (O.contents out.new) (quoted_byte byte)) }
{
    if byte == b'"' || byte == b'\\' {
        return out.write_all(&[b'\\', byte]);
    }
    if byte < b' ' {
        return out.write_all(&[
            b'\\',
            b'u',
            b'0',
            b'0',
            hex_digit(byte / 16),
            hex_digit(byte % 16),
        ]);
    }
    out.write_all(&[byte])
}
