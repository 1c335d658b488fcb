//! Access control lists of POSIX.1e draft 17, as acl(5) describes them, with their text form.
#![tactic(auto)]

mod acl;
mod entry;
mod fault;
mod reading;
mod text;
mod validity;

pub use acl::Acl;
pub use entry::{Entry, EntryNumbers, Perms, Tag};
pub use fault::AclFault;
pub use reading::starts_plainly;
pub use text::TextForm;
pub use validity::MAX_ENTRIES;
