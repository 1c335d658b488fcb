//! Rules and verdicts.
use crate::caps::Caps;

/// What a decision rests on: the entry or the case that grants or refuses.
#[derive(Clone, Copy, PartialEq, Eq)]
pub enum Rule {
    /// The owner's entry.
    Owner,
    /// The entry of the user with this id.
    NamedUser(u32),
    /// The entry of the owning group.
    OwningGroup,
    /// The entry of the group with this id.
    NamedGroup(u32),
    /// The mask, where the entry itself would grant.
    Mask,
    /// The entry of others.
    Other,
    /// The caller has this capability.
    Capability(Caps),
    /// Not even with `DAC_OVERRIDE` does one execute a regular file that has no execute bit.
    NoExecuteBit,
    /// The caller isn't the owner, and has no capability that stands for it.
    NotOwner,
    /// To give an object to another owner takes a capability.
    NoCapability,
    /// The caller is not in the group that the file is to have.
    NotMember,
    /// The directory has its sticky bit set, and the caller counts as the owner of neither it nor the object.
    Sticky,
}

/// An answer, and the rule that gives it.
#[derive(Clone, Copy, PartialEq, Eq)]
pub struct Verdict {
    /// Whether all that was wanted is granted.
    pub yes: bool,
    /// What grants or refuses it.
    pub rule: Rule,
}
