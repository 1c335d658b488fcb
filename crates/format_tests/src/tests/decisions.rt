//! Worked rows of the access check, and each of its answers beside what the manual says.
use bitflags::Flags;
use fs_cred::{Caps, Cred, CredFault, Node, NodeKind, Rule, Verdict, decide, decide_by_mode};
use posix_acl::{Acl, AclFault, Entry, Perms, Tag};
use std::alloc::Global;
use std::test::Fail;

const NONE: u16 = 0;

const X: u16 = 1;

const W: u16 = 2;

const R: u16 = 4;

fn ask(cred: &Cred, node: &Node, want: u16) -> Verdict {
    decide(cred, node, Perms::from_digit(want))
}

const OPEN_BUT_TO_THE_OWNER: &str = "u::---,g::rwx,o::rwx";

const OPEN_TO_THE_OWNER: &str = "u::rw-,u:1000:---,g::---,m::---,o::---";

const TWO_GROUPS: &str = "u::rw-,g::---,g:5:r--,g:6:-w-,m::rwx,o::---";

const MASKED: &str = "u::rw-,u:1001:rw-,g::r--,m::r--,o::---";

const UNMASKED: &str = "u::rw-,u:1001:rw-,g::r--,m::rw-,o::---";

const CLOSED: &str = "u::---,u:1001:---,g::---,g:5:---,m::---,o::---";

// The ACL of a file of user 1000 and group 100, who asks with which groups, for what, and what answers it.
type Decision = (&'static str, u32, u32, &'static [u32], u16, bool, Rule);

static DECISIONS: [Decision; 15] = [
    (OPEN_BUT_TO_THE_OWNER, 1000, 100, &[], R, false, Rule::Owner),
    (OPEN_BUT_TO_THE_OWNER, 1001, 101, &[], R, true, Rule::Other),
    (OPEN_TO_THE_OWNER, 1000, 100, &[], R + W, true, Rule::Owner),
    (TWO_GROUPS, 1002, 5, &[6], R + W, false, Rule::NamedGroup(5)),
    (TWO_GROUPS, 1002, 5, &[6], W, true, Rule::NamedGroup(6)),
    (TWO_GROUPS, 1002, 6, &[7, 100], X, false, Rule::OwningGroup),
    (MASKED, 1001, 101, &[], W, false, Rule::Mask),
    (MASKED, 1001, 101, &[], X, false, Rule::NamedUser(1001)),
    (UNMASKED, 1001, 101, &[], W, true, Rule::NamedUser(1001)),
    (
        CLOSED,
        0,
        0,
        &[],
        NONE,
        true,
        Rule::Capability(Caps::DAC_OVERRIDE),
    ),
    (CLOSED, 1000, 100, &[], NONE, true, Rule::Owner),
    (CLOSED, 1001, 100, &[], NONE, true, Rule::NamedUser(1001)),
    (CLOSED, 1002, 100, &[], NONE, true, Rule::OwningGroup),
    (CLOSED, 1002, 5, &[], NONE, true, Rule::NamedGroup(5)),
    (CLOSED, 1002, 102, &[], NONE, true, Rule::Other),
];

fn file(alloc: Global, acl: &str) -> Result<Node, AclFault> {
    Ok(Node {
        kind: NodeKind::File,
        owner: 1000,
        group: 100,
        acl: Acl::parse_text(alloc, acl.as_bytes())?,
    })
}

fn asked(
    alloc: Global,
    acl: &str,
    uid: u32,
    gid: u32,
    groups: &[u32],
    want: u16,
) -> Option<Verdict> {
    let node = file(alloc, acl).ok()?;
    let cred = Cred::new(alloc, uid, gid, groups).ok()?;
    Some(ask(&cred, &node, want))
}

fn is_decided(alloc: Global, row: &Decision) -> bool {
    let &(acl, uid, gid, groups, want, yes, rule) = row;
    asked(alloc, acl, uid, gid, groups, want) == Some(Verdict { yes, rule })
}

// The first row that is answered otherwise.
fn other_decision(alloc: Global) -> Option<usize> {
    for i in 0..DECISIONS.len() {
        if !is_decided(alloc, &DECISIONS[i]) {
            return Some(i);
        }
    }
    None
}

#[test]
fn an_entry_decides(rt: HostRuntime) {
    let wrong = other_decision(rt.alloc());
    assert!(rt; wrong == None, "{wrong:?}");
}

// What user 7, who has these capabilities, may do to a file or directory of user 0 that has this mode: by the list that the
// mode is, and by the mode itself.
fn asked_by_capable(
    alloc: Global,
    caps: Caps,
    kind: NodeKind,
    mode: u16,
    want: u16,
) -> Option<[Verdict; 2]> {
    let cred = Cred::with_caps(alloc, 7, 7, &[], caps).ok()?;
    let acl = Acl::from_mode(alloc, mode).ok()?;
    let node = Node {
        kind,
        owner: 0,
        group: 0,
        acl,
    };
    let by_mode = decide_by_mode(&cred, kind, 0, 0, mode, Perms::from_digit(want));
    Some([ask(&cred, &node, want), by_mode])
}

// The capabilities DAC_OVERRIDE, DAC_READ_SEARCH and FOWNER as numbers.
const PASSES: u32 = 2;

const READS: u32 = 4;

const OWNS: u32 = 8;

const BY_PASSING: Rule = Rule::Capability(Caps::DAC_OVERRIDE);

const BY_READING: Rule = Rule::Capability(Caps::DAC_READ_SEARCH);

// The capabilities, what is asked for of what kind and mode, and what answers it.
type Capable = (u32, NodeKind, u16, u16, bool, Rule);

static CAPABLE: [Capable; 17] = [
    (PASSES, NodeKind::File, 0o644, X, false, Rule::NoExecuteBit),
    (PASSES, NodeKind::File, 0o001, X, true, BY_PASSING),
    (PASSES, NodeKind::File, 0o010, R + X, true, BY_PASSING),
    (PASSES, NodeKind::File, 0o100, X, true, BY_PASSING),
    (PASSES, NodeKind::File, 0o000, R + W, true, BY_PASSING),
    (PASSES, NodeKind::Directory, 0o000, X, true, BY_PASSING),
    (PASSES + READS, NodeKind::File, 0o000, R, true, BY_PASSING),
    (
        PASSES + READS,
        NodeKind::File,
        0o000,
        R + X,
        false,
        Rule::NoExecuteBit,
    ),
    (READS, NodeKind::File, 0o600, R, true, BY_READING),
    (READS, NodeKind::File, 0o600, NONE, true, BY_READING),
    (READS, NodeKind::File, 0o662, R + W, false, Rule::Other),
    (READS, NodeKind::File, 0o001, X, true, Rule::Other),
    (READS, NodeKind::File, 0o001, R + X, false, Rule::Other),
    (READS, NodeKind::Directory, 0o000, R + X, true, BY_READING),
    (READS, NodeKind::Directory, 0o773, W + X, true, Rule::Other),
    (READS, NodeKind::Directory, 0o770, W, false, Rule::Other),
    (OWNS, NodeKind::File, 0o660, R, false, Rule::Other),
];

fn is_decided_for_capable(alloc: Global, row: &Capable) -> bool {
    let &(caps, kind, mode, want, yes, rule) = row;
    let seen = asked_by_capable(alloc, Caps::from_bits_retain(caps), kind, mode, want);
    seen == Some([Verdict { yes, rule }; 2])
}

fn other_for_capable(alloc: Global) -> Option<usize> {
    for i in 0..CAPABLE.len() {
        if !is_decided_for_capable(alloc, &CAPABLE[i]) {
            return Some(i);
        }
    }
    None
}

#[test]
fn capabilities_decide_first(rt: HostRuntime) {
    let wrong = other_for_capable(rt.alloc());
    assert!(rt; wrong == None, "{wrong:?}");
}

fn yes(rule: Rule) -> Verdict {
    Verdict { yes: true, rule }
}

fn no(rule: Rule) -> Verdict {
    Verdict { yes: false, rule }
}

// A list by octal digits: the base entries, the mask, users 1 and 2, groups 1 and 2.
#[derive(Clone, Copy)]
struct Digits {
    owner: u16,
    group: u16,
    other: u16,
    mask: Option<u16>,
    users: [Option<u16>; 2],
    groups: [Option<u16>; 2],
}

impl Digits {
    // At most one user and one group are named.
    fn is_short(&self) -> bool {
        self.users[1].is_none() && self.groups[1].is_none()
    }
}

fn digit(choice: u32) -> u16 {
    match choice % 4 {
        0 => 0,
        1 => R,
        2 => W + X,
        _ => R + W + X,
    }
}

fn digit_or_none(choice: u32) -> Option<u16> {
    match choice % 5 {
        0 => None,
        some => Some(digit(some)),
    }
}

const LISTS: u32 = 4 * 4 * 4 * 5 * 5 * 5 * 5 * 5;

fn list(number: u32) -> Digits {
    let named = number / 64;
    Digits {
        owner: digit(number),
        group: digit(number / 4),
        other: digit(number / 16),
        mask: digit_or_none(named),
        users: [digit_or_none(named / 5), digit_or_none(named / 25)],
        groups: [digit_or_none(named / 125), digit_or_none(named / 625)],
    }
}

fn entry(tag: Tag, id: u32, digit: u16) -> Entry {
    Entry {
        tag,
        id,
        perms: Perms::from_digit(digit),
    }
}

// Adds the entries of a list.
fn add_entries(entries: &mut Vec<Entry>, list: &Digits) -> Result<(), AclFault> {
    for (tag, id, digit) in [
        (Tag::Other, 0, Some(list.other)),
        (Tag::GroupObj, 0, Some(list.group)),
        (Tag::UserObj, 0, Some(list.owner)),
        (Tag::Mask, 0, list.mask),
        (Tag::User, 2, list.users[1]),
        (Tag::User, 1, list.users[0]),
        (Tag::Group, 2, list.groups[1]),
        (Tag::Group, 1, list.groups[0]),
    ] {
        if let Some(digit) = digit {
            entries.push(entry(tag, id, digit))?;
        }
    }
    Ok(())
}

fn acl(alloc: Global, list: &Digits) -> Result<Acl, AclFault> {
    let mut entries = Vec::with_capacity(alloc, 8)?;
    add_entries(&mut entries, list)?;
    Acl::from_entries(alloc, &entries)
}

fn contains(digit: u16, want: u16) -> bool {
    digit & want == want
}

// What an entry gives that also needs the mask.
fn with_mask(digit: u16, mask: Option<u16>, want: u16, rule: Rule) -> Verdict {
    if !contains(digit, want) {
        no(rule)
    } else if contains(mask.unwrap_or(7), want) {
        yes(rule)
    } else {
        no(Rule::Mask)
    }
}

// Who asks, with which of the groups 3, 1 and 2 among the own ones, and which capabilities as a number.
#[derive(Clone, Copy)]
struct Asker {
    uid: u32,
    groups: [bool; 3],
    caps: u32,
}

// First the capabilities. DAC_OVERRIDE grants, but not x on a file without any x. DAC_READ_SEARCH grants what is within r on
// a file, and within r and x on a directory. Otherwise the list decides all that is wanted.
fn by_the_manual(list: &Digits, kind: NodeKind, asker: Asker, want: u16) -> Verdict {
    let is_file = matches!(kind, NodeKind::File);
    let bits = list.owner | list.mask.unwrap_or(list.group) | list.other;
    let readable = if is_file { R } else { R + X };
    if asker.caps & 2 != 0 && is_file && contains(want, X) && !contains(bits, X) {
        no(Rule::NoExecuteBit)
    } else if asker.caps & 2 != 0 {
        yes(Rule::Capability(Caps::DAC_OVERRIDE))
    } else if asker.caps & 4 != 0 && contains(readable, want) {
        yes(Rule::Capability(Caps::DAC_READ_SEARCH))
    } else {
        by_the_list(list, asker, want)
    }
}

// What an entry gives that decides alone.
fn whole(digit: u16, want: u16, rule: Rule) -> Verdict {
    Verdict {
        yes: contains(digit, want),
        rule,
    }
}

// The algorithm of acl(5), one paragraph after another.
fn by_the_list(list: &Digits, asker: Asker, want: u16) -> Verdict {
    match (asker.uid, list.users) {
        (3, _) => whole(list.owner, want, Rule::Owner),
        (1, [Some(digit), _]) => with_mask(digit, list.mask, want, Rule::NamedUser(1)),
        (2, [_, Some(digit)]) => with_mask(digit, list.mask, want, Rule::NamedUser(2)),
        _ => by_groups(list, asker, want),
    }
}

fn by_groups(list: &Digits, asker: Asker, want: u16) -> Verdict {
    let mut first = None;
    for (member, digit, rule) in [
        (asker.groups[0], Some(list.group), Rule::OwningGroup),
        (asker.groups[1], list.groups[0], Rule::NamedGroup(1)),
        (asker.groups[2], list.groups[1], Rule::NamedGroup(2)),
    ] {
        let (true, Some(digit)) = (member, digit) else {
            continue;
        };
        if contains(digit, want) {
            return with_mask(digit, list.mask, want, rule);
        }
        first = first.or(Some(rule));
    }
    match first {
        Some(rule) => no(rule),
        None => whole(list.other, want, Rule::Other),
    }
}

// Users with their groups, and whether 3, 1 and 2 are among these: the owner and five others, of whom one has uid 0.
type User = (u32, u32, &'static [u32], [bool; 3]);

static USERS: [User; 6] = [
    (0, 0, &[], [false, false, false]),
    (3, 3, &[], [true, false, false]),
    (1, 1, &[2, 3], [true, true, true]),
    (2, 2, &[], [false, false, true]),
    (4, 3, &[9, 1], [true, true, false]),
    (5, 1, &[], [false, true, false]),
];

// Adds each of these users with each set of capabilities.
fn add_askers(alloc: Global, askers: &mut Vec<(Cred, Asker)>) -> Result<(), Fail> {
    for &user in &USERS {
        for caps in 0..32 {
            askers.push(with_caps(alloc, user, caps)?)?;
        }
    }
    Ok(())
}

fn with_caps(alloc: Global, user: User, caps: u32) -> Result<(Cred, Asker), CredFault> {
    let (uid, gid, more, groups) = user;
    let cred = Cred::with_caps(alloc, uid, gid, more, Caps::from_bits_retain(caps))?;
    Ok((cred, Asker { uid, groups, caps }))
}

// Whether the answer about this file or directory is the manual's, by the list and, where it is no more than a mode, by that.
fn is_right(list: &Digits, node: &Node, cred: &Cred, asker: Asker, want: u16) -> bool {
    let right = by_the_manual(list, node.kind, asker, want);
    let by_mode = if node.acl.is_extended() {
        right
    } else {
        let mode = node.acl.mode_bits();
        decide_by_mode(
            cred,
            node.kind,
            node.owner,
            node.group,
            mode,
            Perms::from_digit(want),
        )
    };
    ask(cred, node, want) == right && by_mode == right
}

// How many answers about this file or directory agree, over every set of permissions. Where two users or groups are named only
// those without capabilities ask.
fn agreeing_on(list: &Digits, node: &Node, askers: &[(Cred, Asker)]) -> u32 {
    let mut agreeing = 0u32;
    for (cred, asker) in askers {
        if list.is_short() || asker.caps == 0 {
            for want in 0..8 {
                if is_right(list, node, cred, *asker, want) {
                    agreeing = agreeing.wrapping_add(1);
                }
            }
        }
    }
    agreeing
}

// How many answers agree about a node with the list of this number. A list with a name and no mask is none.
fn agreeing_on_list(
    alloc: Global,
    number: u32,
    kind: NodeKind,
    askers: &[(Cred, Asker)],
) -> Result<u32, AclFault> {
    let list = list(number);
    match acl(alloc, &list) {
        Ok(acl) => {
            let node = Node {
                kind,
                owner: 3,
                group: 3,
                acl,
            };
            Ok(agreeing_on(&list, &node, askers))
        }
        Err(AclFault::NoMask) => Ok(0),
        Err(fault) => Err(fault),
    }
}

// How many answers agree over every list, of a file and of a directory.
fn agreeing_of(alloc: Global, askers: &[(Cred, Asker)]) -> Result<u32, AclFault> {
    let mut agreeing = 0u32;
    for number in 0..LISTS {
        for kind in [NodeKind::File, NodeKind::Directory] {
            let more = agreeing_on_list(alloc, number, kind, askers)?;
            agreeing = agreeing.wrapping_add(more);
        }
    }
    Ok(agreeing)
}

fn agreeing(alloc: Global) -> Result<u32, Fail> {
    let mut askers = Vec::new(alloc);
    add_askers(alloc, &mut askers)?;
    Ok(agreeing_of(alloc, &askers)?)
}

// Of the lists that have a mask where they have names, 6,464 name at most one user and one group, and 153,600 more than that.
// As `rt test` builds it this takes seconds; `rt try --test`, which optimizes nothing, stops it at its limit.
#[test]
fn decides_as_the_manual_says(rt: HostRuntime) -> Result<(), Fail> {
    let seen = agreeing(rt.alloc())?;
    assert!(rt; seen == (6_464 * 32 + 153_600) * 2 * 6 * 8, "{seen}");
    Ok(())
}
