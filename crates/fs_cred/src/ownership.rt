//! What an owner may do, after chmod(), chown() and unlink() of POSIX.1-2017, and who has a capability for it.
ghost use Rattle.std.specs.Prelude.{IsOk, IsTrue, ◌↔◌, ◌≡◌};
ghost use Rattle.std.specs.Result.{IsOkUnless};
ghost use Rattle.fs_cred.specs.Ownership.{KeepsSetGroupId, MayChgrp, MayChown, MayOwn, OwnsOrMayChown, StickyAllows, allowed_if, keeps_set_group_id, may_chgrp, may_chown, may_own, counts_as_owner, owns_or_may_chown, sticky_allows};
ghost use Rattle.fs_cred.specs.declared.rule.Rule.TheVariants.{NotMember, NotOwner, NoCapability, Sticky};

use crate::caps::Caps;
use crate::cred::Cred;
use crate::rule::Rule;

/// Whether the caller may change the mode or the ACL of an object with this owner: the owner, or one who has `FOWNER`. If not,
/// `NotOwner` refuses.
pub fn may_own(cred: &Cred, owner: u32) -> Result<(), Rule>
    ensures allowed { IsOk result ↔ MayOwn cred.now owner }
    ensures refused { IsOkUnless result NotOwner }
    ensures computed { result ≡ may_own cred.now owner }
{
    allowed_if(counts_as_owner(cred, owner), Rule::NotOwner)
}

/// Whether the caller may ask for another owner or group of an object with this owner: what chown() asks before it asks
/// `may_chown` and `may_chgrp`. The owner may, and one who has `CHOWN`. If not, `NotOwner` refuses.
pub fn owns_or_may_chown(cred: &Cred, owner: u32) -> Result<(), Rule>
    ensures allowed { IsOk result ↔ OwnsOrMayChown cred.now owner }
    ensures refused { IsOkUnless result NotOwner }
    ensures computed { result ≡ owns_or_may_chown cred.now owner }
{
    allowed_if(
        cred.uid() == owner || cred.is_capable(Caps::CHOWN),
        Rule::NotOwner,
    )
}

/// Whether the caller may give an object with this owner the new one: who has `CHOWN`, and anyone the present one. If not,
/// `NoCapability` refuses.
pub fn may_chown(cred: &Cred, owner: u32, new_owner: u32) -> Result<(), Rule>
    ensures allowed { IsOk result ↔ MayChown cred.now owner new_owner }
    ensures refused { IsOkUnless result NoCapability }
    ensures computed { result ≡ may_chown cred.now owner new_owner }
{
    allowed_if(
        cred.is_capable(Caps::CHOWN) || new_owner == owner,
        Rule::NoCapability,
    )
}

/// Whether the caller may give an object with this group the new one: who has `CHOWN`, and anyone the present one or one of
/// the own groups. If not, `NotMember` refuses.
pub fn may_chgrp(cred: &Cred, group: u32, new_group: u32) -> Result<(), Rule>
    ensures allowed { IsOk result ↔ MayChgrp cred.now group new_group }
    ensures refused { IsOkUnless result NotMember }
    ensures computed { result ≡ may_chgrp cred.now group new_group }
{
    allowed_if(
        cred.is_capable(Caps::CHOWN) || new_group == group || cred.is_member(new_group),
        Rule::NotMember,
    )
}

/// Whether the directory lets the caller remove or rename an object in it, permission to write aside: a sticky one lets those
/// who may own it or the object. If not, `Sticky` refuses.
pub fn sticky_allows(
    cred: &Cred,
    sticky: bool,
    directory_owner: u32,
    owner: u32,
) -> Result<(), Rule>
    ensures allowed { IsOk result ↔ StickyAllows cred.now sticky directory_owner owner }
    ensures refused { IsOkUnless result Sticky }
    ensures computed { result ≡ sticky_allows cred.now sticky directory_owner owner }
{
    allowed_if(
        !sticky || counts_as_owner(cred, owner) || counts_as_owner(cred, directory_owner),
        Rule::Sticky,
    )
}

/// Whether a directory with this group keeps the set-group-ID bit of a mode that the caller gives it: where the caller is in
/// the group, or has `FSETID`. If not, the bit stays off, and nobody is told.
pub fn keeps_set_group_id(cred: &Cred, group: u32) -> bool
    ensures rule { IsTrue result ↔ KeepsSetGroupId cred.now group }
    ensures computed { result ≡ keeps_set_group_id cred.now group }
{
    cred.is_capable(Caps::FSETID) || cred.is_member(group)
}

// Whether the caller counts as the owner: is it, or has FOWNER.
fn counts_as_owner(cred: &Cred, owner: u32) -> bool
    ensures { result ≡ counts_as_owner cred.now owner }
{
    cred.is_capable(Caps::FOWNER) || cred.uid() == owner
}

fn allowed_if(test: bool, rule: Rule) -> Result<(), Rule>
    ensures { result ≡ allowed_if test rule }
{
    if test { Ok(()) } else { Err(rule) }
}
