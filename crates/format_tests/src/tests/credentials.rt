//! Credentials, and worked rows of the rules of ownership.
use bitflags::Flags;
use fs_cred::{
    Caps, Cred, CredFault, MAX_PROCESS_GROUPS, keeps_set_group_id, may_chgrp, may_chown, may_own,
    one_answer, owns_or_may_chown, sticky_allows,
};
use std::alloc::Global;

// What so many groups of a process are.
fn process_fault(alloc: Global, count: usize) -> Result<Option<CredFault>, CredFault> {
    let groups = vec![in alloc; 9; count]?;
    Ok(Cred::of_process(alloc, 7, 8, &groups, Caps::empty()).err())
}

fn both() -> Caps {
    Caps::CHOWN.union(Caps::FSETID)
}

// The parts of a credential, and whether it is in three groups and has three sets of capabilities.
type Parts = ((u32, u32, usize, u32), [bool; 6]);

fn parts_of(cred: &Cred) -> Parts {
    let parts = (
        cred.uid(),
        cred.gid(),
        cred.groups().len(),
        cred.caps().bits(),
    );
    let tests = [
        cred.is_member(u32::MAX),
        cred.is_member(9),
        cred.is_member(7),
        cred.is_capable(both()),
        cred.is_capable(Caps::FSETID),
        cred.is_capable(Caps::FSETID.union(Caps::FOWNER)),
    ];
    (parts, tests)
}

// Those of a copy of a credential with 16 more groups.
fn parts_of_copy(alloc: Global) -> Result<Parts, CredFault> {
    let cred = Cred::with_caps(alloc, 7, u32::MAX, &[9; 16], both())?;
    Ok(parts_of(&cred.try_clone(alloc)?))
}

// What 17 groups are, and the most and one more of a process.
fn faults(alloc: Global) -> Result<[Option<CredFault>; 3], CredFault> {
    Ok([
        Cred::with_caps(alloc, 7, 8, &[9; 17], both()).err(),
        process_fault(alloc, MAX_PROCESS_GROUPS)?,
        process_fault(alloc, MAX_PROCESS_GROUPS + 1)?,
    ])
}

#[test]
fn credentials_have_groups_and_capabilities(rt: HostRuntime) {
    let seen = (parts_of_copy(rt.alloc()), faults(rt.alloc()));
    let parts = (
        (7, u32::MAX, 16, 17),
        [true, true, false, true, true, false],
    );
    let many = Some(CredFault::TooManyGroups);
    assert!(rt; seen == (Ok(parts), Ok([many, None, many])), "{seen:?}");
}

// Whether a caller may own what is user 1000's and group 100's, ask for another owner, give it to user 0 and to group 0, remove
// it from user 0's sticky directory, and set S_ISGID.
fn rights(cred: &Cred) -> [bool; 6] {
    [
        may_own(cred, 1000).is_ok(),
        owns_or_may_chown(cred, 1000).is_ok(),
        may_chown(cred, 1000, 0).is_ok(),
        may_chgrp(cred, 100, 0).is_ok(),
        sticky_allows(cred, true, 0, 1000).is_ok(),
        keeps_set_group_id(cred, 100),
    ]
}

// A user in these groups, who has these capabilities, and what the user may of that.
static RIGHTS: [(u32, &[u32], u32, [bool; 6]); 10] = [
    (1001, &[], 0, [false, false, false, false, false, false]),
    (0, &[], 0, [false, false, false, false, true, false]),
    (0, &[], 31, [true, true, true, true, true, true]),
    (1000, &[], 0, [true, true, false, false, true, false]),
    (1000, &[0, 100], 0, [true, true, false, true, true, true]),
    (1001, &[], 1, [false, true, true, true, false, false]),
    (1001, &[], 2, [false, false, false, false, false, false]),
    (1001, &[], 4, [false, false, false, false, false, false]),
    (1001, &[], 8, [true, false, false, false, true, false]),
    (1001, &[], 16, [false, false, false, false, false, true]),
];

fn rights_of(alloc: Global, uid: u32, groups: &[u32], caps: u32) -> Result<[bool; 6], CredFault> {
    let cred = Cred::with_caps(alloc, uid, 101, groups, Caps::from_bits_retain(caps))?;
    Ok(rights(&cred))
}

// The first user who may do something else.
fn other_rights(alloc: Global) -> Option<usize> {
    for i in 0..RIGHTS.len() {
        let row = RIGHTS[i];
        if rights_of(alloc, row.0, row.1, row.2) != Ok(row.3) {
            return Some(i);
        }
    }
    None
}

#[test]
fn a_capability_passes_its_questions(rt: HostRuntime) {
    one_answer();
    let wrong = other_rights(rt.alloc());
    assert!(rt; wrong == None, "{wrong:?}");
}
