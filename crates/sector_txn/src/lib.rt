//! A map of sectors, whose changes of one call are kept whole or not at all.
//!
//! A [`Store`] stands on a journal. [`Store::begin`] gives a [`Txn`], in which a call reads and puts sectors by the
//! trait [`Sectors`]; [`Txn::keep`] makes its changes part of the store, and [`Txn::drop_delta`] takes them back.
//! [`Store::flush`] says that what was kept lasts.
//!
//! Calls share commits: what was kept waits in memory for a flush, or until the changes of a call don't fit beside it. A
//! sector that was put is read from there, and another one that was read lately from a cache; no contract shows that.
//!
//! A call may leave hints for later ones, numbers under keys. They outlive it, kept or dropped, but not the store; nobody
//! trusts them.
#![tactic(auto)]

mod cached;
mod clean;
mod commit;
mod hints;
mod sectors;
mod store;
mod waiting;

pub use sectors::Sectors;
pub use store::{Store, Txn};
