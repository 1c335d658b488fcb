//! Tells the answer, in a sentence or as JSON.
ghost use Rattle.std.specs.Prelude.{◌≡◌, ◌++◌, OnOk, IfOk, codes, string_bytes};
ghost use Rattle.std.specs.Io.KnownBytes.{Appends};
ghost use Rattle.fs_lines.specs.Texts.{word_text, rule_text};
ghost use Rattle.fs_access.specs.Components.{prefix_of};
ghost use Rattle.fs_access.specs.Sentences.{keeper_text, needed_text, place_text, failure_text, granted_text, denied_text, failed_text, sentence, told_text};

use crate::component::prefix_of;
use crate::json::print_object;
use crate::question::{Answer, Question};
use fs_cred::{Denial, Errno, Need, Rule};
use fs_lines::{need_text, rule_text, word_text};
use std::alloc::{AllocError, Global};
use std::io::{self, Write};

/// Prints the answer on one line: a sentence, or a JSON object.
pub fn print_answer<O: Write>(
    alloc: Global,
    question: &Question<'_>,
    answer: &Answer,
    json: bool,
    out: &mut O,
) -> io::Result<()>
    ensures { OnOk result (Appends (O.contents out.old) (O.contents out.new) (told_text json question.now answer.now)) }
{
    if json {
        print_object(alloc, question, answer, out)
    } else {
        print_sentence(alloc, question, answer, out)
    }
}

fn print_sentence<O: Write>(
    alloc: Global,
    question: &Question<'_>,
    answer: &Answer,
    out: &mut O,
) -> io::Result<()>
    ensures { OnOk result (Appends (O.contents out.old) (O.contents out.new) (sentence question.now answer.now)) }
{
    match answer {
        Answer::Granted(rule) => print_granted(alloc, question, *rule, out),
        Answer::Denied { denial, link } => print_denied(alloc, question, *denial, *link, out),
        Answer::Failed(errno) => print_failed(alloc, question, *errno, out),
    }
}

fn print_granted<O: Write>(
    alloc: Global,
    question: &Question<'_>,
    rule: Rule,
    out: &mut O,
) -> io::Result<()>
    ensures { OnOk result (Appends (O.contents out.old) (O.contents out.new) (granted_text question.now rule)) }
{
    let letters = question.perms().letters();
    let path = word_text(alloc, question.path())?;
    let keeper = keeper_text(alloc, rule)?;
    writeln!(out, "granted: {letters} on {path}, by {keeper}")
}

fn print_denied<O: Write>(
    alloc: Global,
    question: &Question<'_>,
    denial: Denial,
    link: Option<usize>,
    out: &mut O,
) -> io::Result<()>
    ensures { OnOk result (Appends (O.contents out.old) (O.contents out.new) (denied_text question.now denial link)) }
{
    let place = place_text(alloc, question, denial.step, link)?;
    let needed = needed_text(alloc, denial.need)?;
    let keeper = keeper_text(alloc, denial.rule)?;
    writeln!(
        out,
        "denied: {place} needs {needed}, and {keeper} doesn't grant it"
    )
}

fn print_failed<O: Write>(
    alloc: Global,
    question: &Question<'_>,
    errno: Errno,
    out: &mut O,
) -> io::Result<()>
    ensures { OnOk result (Appends (O.contents out.old) (O.contents out.new) (failed_text question.now errno)) }
{
    let path = word_text(alloc, question.path())?;
    let failure = failure_text(alloc, errno)?;
    writeln!(out, "denied: {path}{failure}")
}

// The component that refused, by its path; behind a symbolic link that, and how far the walk was.
fn place_text(
    alloc: Global,
    question: &Question<'_>,
    step: usize,
    link: Option<usize>,
) -> Result<String, AllocError>
    ensures { IfOk result (λ text. string_bytes text ≡ place_text question.now step link) }
{
    let Some(count) = link else {
        return prefix_text(alloc, question, step);
    };
    let link = prefix_text(alloc, question, count)?;
    format!(in alloc; "what the symbolic link {link} leads to, {step} lookups from the root,")
}

// So many components of the path, as a word.
fn prefix_text(alloc: Global, question: &Question<'_>, count: usize) -> Result<String, AllocError>
    ensures { IfOk result (λ text. string_bytes text ≡ word_text (prefix_of question.now.path count)) }
{
    let prefix = prefix_of(alloc, question.path(), count)?;
    word_text(alloc, &prefix)
}

// What was needed.
fn needed_text(alloc: Global, need: Need) -> Result<String, AllocError>
    ensures { IfOk result (λ text. string_bytes text ≡ needed_text need) }
{
    match need {
        Need::Perm(want) => String::from_str(alloc, want.letters()),
        other => need_text(alloc, other),
    }
}

// Whose word the rule is.
fn keeper_text(alloc: Global, rule: Rule) -> Result<String, AllocError>
    ensures { IfOk result (λ text. string_bytes text ≡ keeper_text rule) }
{
    match rule {
        Rule::Owner => String::from_str(alloc, "its owner's entry"),
        Rule::NamedUser(id) => format!(in alloc; "its entry for user {id}"),
        Rule::OwningGroup => String::from_str(alloc, "its owning group's entry"),
        Rule::NamedGroup(id) => format!(in alloc; "its entry for group {id}"),
        Rule::Mask => String::from_str(alloc, "its mask"),
        Rule::Other => String::from_str(alloc, "its entry for others"),
        Rule::NoExecuteBit => String::from_str(alloc, "a file without execute bits"),
        other => named_rule(alloc, other),
    }
}

// A rule that is no entry, by its name.
fn named_rule(alloc: Global, rule: Rule) -> Result<String, AllocError>
    ensures { IfOk result (λ text. string_bytes text ≡ codes "the rule " ++ rule_text rule) }
{
    let name = rule_text(alloc, rule)?;
    format!(in alloc; "the rule {name}")
}

// Why the path can't be walked, or leads nowhere.
fn failure_text(alloc: Global, errno: Errno) -> Result<String, AllocError>
    ensures { IfOk result (λ text. string_bytes text ≡ failure_text errno) }
{
    match errno {
        Errno::ENOENT => String::from_str(alloc, " isn't there"),
        Errno::EINVAL => String::from_str(alloc, " has a zero byte"),
        Errno::ENOTDIR => String::from_str(alloc, " asks for a directory where none is"),
        Errno::ENAMETOOLONG => String::from_str(alloc, " is too long, or a name in it is"),
        Errno::ELOOP => String::from_str(alloc, " leads through more than 40 symbolic links"),
        other => {
            let name = other.name();
            format!(in alloc; " can't be walked: {name}")
        }
    }
}
