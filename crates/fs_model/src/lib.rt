//! The abstract file system: what calls ask for, answer and change, with no disk.
//!
//! The definitions stand in `specs/`. They speak of POSIX.1-2017, path_resolution(7), acl(5) and our own rules.
#![tactic(auto)]

mod bytes;
mod call;
mod event;
mod laws;
mod listing;
mod reply;
mod touch;
mod walk;

pub use bytes::{ByteString, Bytes, ContentRole, Name, NameRole, Path, PathRole};
pub use call::{AclType, Call, Flags, Whence};
pub use event::{Actor, Event, EventReply, HandleCall, RestartFault};
pub use laws::{
    a_finding_is_the_first, a_new_disk_stands_for_an_empty_root, a_sync_leaves_one_tree,
    actors_call_as_processes, an_image_stands_for_one_tree, an_image_stands_in_another_version,
    call_is_in_range, decision_is_unique, finds_are_there, first_refusal_is_least,
    fitting_states_drop_nothing, free_sectors_are_within_bounds, handle_call_is_in_range,
    handles_stay, kinds_agree, no_demand_is_an_io_error, numbers_are_counts, one_node_changes,
    pruning_keeps_trees, reading_keeps_the_tree, rewriting_keeps_names, rules_say_what_stands,
    same_process_stays, some_image_stands_for_a_tree, standing_rests_on_what_is_used,
    steps_keep_states, unreadable_bytes_do_not_show, unreadable_bytes_do_not_show_outside,
};
pub use listing::{Listing, Named};
pub use reply::{FileType, Reply, Stamps, Status};
pub use touch::Touch;
pub use walk::{Form, Found, Last};
