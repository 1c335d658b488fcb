//! Credentials, and who may do what by which rule: the access check of acl(5), and the rules of ownership of
//! POSIX.1-2017.
#![tactic(auto)]

mod access;
mod caps;
mod cred;
mod errno;
mod laws;
mod node;
mod ownership;
mod permissions;
mod refusal;
mod rule;

pub use access::{decide, decide_by_mode};
pub use caps::Caps;
pub use cred::{Cred, CredFault, MAX_GROUPS, MAX_PROCESS_GROUPS};
pub use errno::Errno;
pub use laws::{named_groups_count, one_answer};
pub use node::{Node, NodeKind};
pub use ownership::{
    keeps_set_group_id, may_chgrp, may_chown, may_own, owns_or_may_chown, sticky_allows,
};
pub use refusal::{Denial, Need, Refusal};
pub use rule::{Rule, Verdict};
