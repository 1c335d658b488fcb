//! Laws of what a server keeps, each proved by a function that does nothing: its contract is the law.
ghost use Rattle.fuse_state.specs.Laws.{NodesLeadBack, StaleNodesLeadNowhere, NewNodesLedNowhere, OtherNodesStay, NewServersKeepShares, OneMoreKeepsShares, OneFewerKeepsShares, FurtherUsersMayHold, RootMayHold};

/// The node of an object leads to its number.
///
/// Once a new object has the number, the node of the one before leads nowhere. The node of the new one led nowhere before. Each
/// other number has the node that it had.
pub fn nodes_lead_to_objects()
    ensures back { NodesLeadBack }
    ensures stale { StaleNodesLeadNowhere }
    ensures fresh { NewNodesLedNowhere }
    ensures others { OtherNodesStay }
{}

/// As long as each user takes only what it may, others find some: that is the rule by which open directories are shared.
///
/// The first of each further user is kept, while not too many users hold some; and a part for user 0, however much of the rest it
/// holds. What is kept is never taken by others. That is so of a server that begins, and stays so where one more is held by who
/// may, and where one is held no more.
pub fn shares_are_kept()
    ensures begin { NewServersKeepShares }
    ensures more { OneMoreKeepsShares }
    ensures fewer { OneFewerKeepsShares }
    ensures further { FurtherUsersMayHold }
    ensures root { RootMayHold }
{}
