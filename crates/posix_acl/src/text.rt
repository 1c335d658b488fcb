//! The text form of a list.
ghost use Rattle.std.specs.Prelude.{◌≡◌, List, ◌≢◌, ◌++◌, OnOk, IfOk, IfErr, string_bytes};
ghost use Rattle.posix_acl.specs.declared.fault.AclFault.TheVariants.{OutOfMemory};
ghost use Rattle.std.specs.Fmt.{decimal};
ghost use Rattle.posix_acl.specs.declared.entry.Entry.{Entry};
ghost use Rattle.posix_acl.specs.AccessList.{AccessList, IsAcl};
ghost use Rattle.posix_acl.specs.Text.{IsText, SaysList, ReadsBack, SaysFault, written_text, word_of, entry_text, long_text, short_text};

use crate::acl::Acl;
use crate::entry::{Entry, Tag};
use crate::fault::AclFault;
use crate::reading::read_text;
use std::alloc::{AllocError, Global};

/// How entries stand in a text.
#[derive(Clone, Copy)]
pub enum TextForm {
    /// An entry a line.
    Long,
    /// Entries with commas between them.
    Short,
}

impl Acl {
    ghost use Rattle.posix_acl.specs.declared.text.TextForm.{TextForm};

    /// The list that a text says, in either form or a mixture: entries between newlines or commas,
    /// comments from `#` to the end of a line, spaces and tabs around entries.
    pub fn parse_text(alloc: Global, text: &[u8]) -> Result<Acl, AclFault>
        ensures ok { IfOk result (SaysList text.now) }
        ensures err { IfErr result (λ fault. fault ≢ OutOfMemory → SaysFault text.now fault) }

        // A text is read in one way, and the text that is written of a list gives the list back.
        ensures one { (es fs : List Entry) → IsText text.now es → IsText text.now fs → es ≡ fs }
        ensures back { (a : AccessList) (form : TextForm) → IsAcl a → text.now ≡ written_text form a → ReadsBack a result }
    {
        parse(alloc, text)
    }

    /// The text of the list: entries in canonical order, ids in decimal.
    pub fn write_text(&self, form: TextForm) -> Result<String, AclFault>
        ensures ok { IfOk result (λ text. string_bytes text ≡ written_text form self.now) }
        ensures err { IfErr result (λ fault. fault ≡ OutOfMemory) }
    {
        let text = match form {
            TextForm::Long => write_long(self.allocator(), self.entries())?,
            TextForm::Short => write_short(self.allocator(), self.entries())?,
        };
        Ok(text)
    }
}

fn parse(alloc: Global, text: &[u8]) -> Result<Acl, AclFault>
    ensures ok { IfOk result (SaysList text.now) }
    ensures err { IfErr result (λ fault. fault ≢ OutOfMemory → SaysFault text.now fault) }
{
    let entries = read_text(alloc, text)?;
    Acl::from_entries(alloc, &entries)
}

fn write_long(alloc: Global, entries: &[Entry]) -> Result<String, AllocError>
    ensures { IfOk result (λ text. string_bytes text ≡ long_text entries.now) }
{
    let mut text = String::new(alloc);
    for entry in entries {
        push_entry(&mut text, *entry)?;
        text.push('\n')?;
    }
    Ok(text)
}

fn write_short(alloc: Global, entries: &[Entry]) -> Result<String, AllocError>
    ensures { IfOk result (λ text. string_bytes text ≡ short_text entries.now) }
{
    let mut text = String::new(alloc);
    if let Some((first, others)) = entries.split_first() {
        push_entry(&mut text, *first)?;
        for entry in others {
            text.push(',')?;
            push_entry(&mut text, *entry)?;
        }
    }
    Ok(text)
}

fn push_entry(text: &mut String, entry: Entry) -> Result<(), AllocError>
    ensures { OnOk result (string_bytes text.new ≡ string_bytes text.old ++ entry_text entry) }
{
    text.push_str(word(entry.tag))?;
    text.push(':')?;
    if entry.tag.is_named() {
        push_id(text, entry.id)?;
    }
    text.push(':')?;
    text.push_str(entry.perms.letters())
}

fn word(tag: Tag) -> &'static str
    ensures { result.now ≡ word_of tag }
{
    match tag {
        Tag::UserObj | Tag::User => "user",
        Tag::GroupObj | Tag::Group => "group",
        Tag::Mask => "mask",
        Tag::Other => "other",
    }
}

fn push_id(text: &mut String, id: u32) -> Result<(), AllocError>
    ensures { OnOk result (string_bytes text.new ≡ string_bytes text.old ++ decimal id) }
{
    write!(text, "{id}")
}
