//! What a server of a kernel's requests asks of a file system: a plan for each request of FUSE, and what holds of all plans.
//!
//! The definitions stand in `specs/`. A plan is a tree of events and replies; `fuse_sessions` performs it.
#![tactic(auto)]

mod laws;
mod mode;
mod reply;
mod request;
mod request_error;

pub use laws::{
    failures_change_nothing, judged_lookups_are_granted, listings_go_on,
    names_are_kept_where_judged, opened_is_the_object, requests_behave,
    requests_change_what_they_say, shares_are_found, steps_change_what_is_said,
    times_are_set_by_right, told_nodes_lead_to_objects, unreadable_bytes_do_not_show_in_answers,
    users_need_no_groups, what_is_asked_may_be, what_is_due_is_kept_first,
    who_asks_counts_only_where_needed,
};
pub use mode::Mode;
pub use reply::{Attributes, Replied, ReplyBody, Response, attr_of, looked_up_entry};
pub use request::{Asked, WhoCounts, needs_caller};
pub use request_error::{OtherErrno, RequestError, Tried};
