//! The laws of the definitions, as contracts.
ghost use Rattle.fs_cred.specs.Laws.{HasAnAnswer, HasOneAnswer, VerdictDecides, DecisionsNeedNamedGroups, OwnershipNeedsNamedGroups, JustTheseCount};

/// Whoever wants whatever of whatever file or directory, there is exactly one answer with its rule.
pub fn one_answer()
    ensures some { HasAnAnswer }
    ensures one { HasOneAnswer }
    ensures computed { VerdictDecides }
{}

/// Of a caller's groups only those count that the object at hand names: its own group, and those of its list; for chown(2) the group
/// that is to be given, and for chmod(2) of a directory its group. So a caller with more groups than a credential has may be stood
/// for by one with just these of them.
pub fn named_groups_count()
    ensures decided { DecisionsNeedNamedGroups }
    ensures owned { OwnershipNeedsNamedGroups }
    ensures just { JustTheseCount }
{}
