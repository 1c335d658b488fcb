//! The access check, after acl(5), "ACCESS CHECK ALGORITHM".
ghost use Rattle.std.specs.Prelude.{◌≡◌, ◌||◌, true, false};
ghost use Rattle.posix_acl.specs.AccessList.{IsAcl};
ghost use Rattle.fs_cred.specs.Decisions.{Decides, has_execute_bit, may_read_search, node_of_mode, read_search};
ghost use Rattle.fs_cred.specs.Scans.{group_rule};
ghost use Rattle.fs_cred.specs.Verdicts.{by_capability, by_entry, by_groups, by_named_user, first_of_groups, past_mask, perms_named, verdict, verdict_of};

use crate::caps::Caps;
use crate::cred::Cred;
use crate::node::{Node, NodeKind};
use crate::permissions::{NOTHING, holds};
use crate::rule::{Rule, Verdict};
use posix_acl::{Acl, Entry, Perms, Tag};

/// Whether this caller may do all of `want` to this node, and which rule says so. The first case that applies
/// decides: `DAC_OVERRIDE`; `DAC_READ_SEARCH`, if it is good for all of `want`; the owner, a named user, the groups that the
/// caller is in, and everyone else.
#[tactic(auto, unfolding(crate::specs::Verdicts::verdict))]
pub fn decide(cred: &Cred, node: &Node, want: Perms) -> Verdict
    ensures decides { Decides cred.now node.now want result.yes result.rule }
    ensures computed { result ≡ verdict cred.now node.now want }
{
    if let Some(verdict) = by_capability(cred, node.kind, has_execute_bit(&node.acl), want) {
        verdict
    } else if cred.uid() == node.owner {
        by_entry(node.acl.owner(), want, Rule::Owner)
    } else if let Some(perms) = named_user(&node.acl, cred.uid()) {
        by_named_user(node, want, cred.uid(), perms)
    } else {
        by_groups(cred, node, want)
    }
}

/// Decides as `decide` about a node whose ACL is no more than the bits of a mode. Such an ACL is its three base entries, and has neither
/// names nor a mask: nothing of it has to be in memory.
#[tactic(auto, unfolding(crate::specs::Verdicts::verdict))]
pub fn decide_by_mode(
    cred: &Cred,
    kind: NodeKind,
    owner: u32,
    group: u32,
    mode: u16,
    want: Perms,
) -> Verdict
    ensures decides { Decides cred.now (node_of_mode kind owner group mode) want result.yes result.rule }
    ensures computed { result ≡ verdict cred.now (node_of_mode kind owner group mode) want }
{
    let of_owner = Perms::from_digit(mode / 64);
    let of_group = Perms::from_digit(mode / 8);
    let of_others = Perms::from_digit(mode);
    let executable = any_executes(of_owner, of_group, of_others);
    if let Some(verdict) = by_capability(cred, kind, executable, want) {
        verdict
    } else if cred.uid() == owner {
        by_entry(of_owner, want, Rule::Owner)
    } else if cred.is_member(group) {
        by_entry(of_group, want, Rule::OwningGroup)
    } else {
        by_entry(of_others, want, Rule::Other)
    }
}

// What a capability decides of a node that has an execute bit, or none. Who has DAC_OVERRIDE may do everything, but not
// execute a regular file that has no execute bit.
fn by_capability(cred: &Cred, kind: NodeKind, executable: bool, want: Perms) -> Option<Verdict>
    ensures { result ≡ by_capability cred.now kind executable want }
{
    if cred.is_capable(Caps::DAC_OVERRIDE) {
        if want.execute && matches!(kind, NodeKind::File) && !executable {
            Some(refused(Rule::NoExecuteBit))
        } else {
            Some(granted(Rule::Capability(Caps::DAC_OVERRIDE)))
        }
    } else if may_read_search(cred, kind, want) {
        Some(granted(Rule::Capability(Caps::DAC_READ_SEARCH)))
    } else {
        None
    }
}

// Who has DAC_READ_SEARCH may read a file, and read and search a directory. It is not asked for a part of what is wanted.
fn may_read_search(cred: &Cred, kind: NodeKind, want: Perms) -> bool
    ensures { result ≡ may_read_search cred.now kind want }
{
    cred.is_capable(Caps::DAC_READ_SEARCH) && holds(read_search(kind), want)
}

fn read_search(kind: NodeKind) -> Perms
    ensures { result ≡ read_search kind }
{
    Perms {
        read: true,
        write: false,
        execute: matches!(kind, NodeKind::Directory),
    }
}

// An entry that the mask has no say in: the owner's, and that of others.
fn by_entry(perms: Perms, want: Perms, rule: Rule) -> Verdict
    ensures { result ≡ by_entry perms want rule }
{
    Verdict {
        yes: holds(perms, want),
        rule,
    }
}

// The user's own entry decides, with the mask.
fn by_named_user(node: &Node, want: Perms, user: u32, perms: Perms) -> Verdict
    ensures { result ≡ by_named_user node.now want user perms }
{
    let rule = Rule::NamedUser(user);
    if holds(perms, want) {
        past_mask(&node.acl, want, rule)
    } else {
        refused(rule)
    }
}

// The first entry of the caller's groups that holds all of `want` decides, with the mask. Where none does, the first
// of them refuses, and where there is none the entry of others decides.
fn by_groups(cred: &Cred, node: &Node, want: Perms) -> Verdict
    ensures { result ≡ by_groups cred.now node.now want }
{
    if let Some(rule) = first_of_groups(cred, node, want) {
        past_mask(&node.acl, want, rule)
    } else if let Some(rule) = first_of_groups(cred, node, NOTHING) {
        refused(rule)
    } else {
        by_entry(node.acl.other(), want, Rule::Other)
    }
}

// An entry holds all of `want`, and now the mask has to.
fn past_mask(acl: &Acl, want: Perms, rule: Rule) -> Verdict
    ensures { result ≡ past_mask acl.now want rule }
{
    match acl.mask() {
        Some(mask) if !holds(mask, want) => refused(Rule::Mask),
        _ => granted(rule),
    }
}

fn granted(rule: Rule) -> Verdict
    ensures { result ≡ verdict_of true rule }
{
    Verdict { yes: true, rule }
}

fn refused(rule: Rule) -> Verdict
    ensures { result ≡ verdict_of false rule }
{
    Verdict { yes: false, rule }
}

// Whether any of the file's three execute bits is set.
fn has_execute_bit(acl: &Acl) -> bool
    ensures { result ≡ has_execute_bit acl.now }
{
    any_executes(acl.owner(), acl.group_class(), acl.other())
}

fn any_executes(owner: Perms, group: Perms, other: Perms) -> bool
    ensures { result ≡ (owner.execute || group.execute || other.execute) }
{
    owner.execute || group.execute || other.execute
}

// What the entry of this user gives, if there is one.
fn named_user(acl: &Acl, user: u32) -> Option<Perms>
    ensures found { result ≡ perms_named user acl.now.users }
    ensures valid { IsAcl acl.now }
{
    for entry in acl.entries() {
        if entry.tag.is(Tag::User) && entry.id == user {
            return Some(entry.perms);
        }
    }
    None
}

// The first entry of the caller's groups that holds all of `want`.
fn first_of_groups(cred: &Cred, node: &Node, want: Perms) -> Option<Rule>
    ensures { result ≡ first_of_groups cred.now node.now want }
{
    for entry in node.acl.entries() {
        let rule = group_rule(cred, node.group, *entry);
        if rule.is_some() && holds(entry.perms, want) {
            return rule;
        }
    }
    None
}

// The rule by which an entry of the caller's groups is named.
fn group_rule(cred: &Cred, owning_group: u32, entry: Entry) -> Option<Rule>
    ensures { result ≡ group_rule cred.now owning_group entry }
{
    match entry.tag {
        Tag::GroupObj if cred.is_member(owning_group) => Some(Rule::OwningGroup),
        Tag::Group if cred.is_member(entry.id) => Some(Rule::NamedGroup(entry.id)),
        _ => None,
    }
}
