//! A redo journal: a batch of sectors is written whole or not at all, whenever the disk is stopped.
//!
//! A commit goes through three states. [`Journal::log`] writes the batch into a log area, [`Logged::seal`] writes the
//! commit sector, which names the area and the batch's sectors, and [`Sealed::install`] writes these.
//!
//! Where the log has one area, installing also takes the commit away, and each step ends with a sync, so that no step's
//! writes are on the disk before the last step's are. Where it has two, commits use them in turn, and a sealed commit stays
//! until the next one: its sectors are written without a sync, since that of the next log comes before the next seal.
//! [`Journal::settle`] takes the last commit away.
#![tactic(auto)]

mod batch;
mod beside;
mod commit;
mod journal;
mod open;
mod reads;
mod steps;

pub use batch::{Batch, MOST_SECTORS};
pub use beside::{absorb_beside, commit_beside};
pub use journal::{Broken, Journal, Logged, Sealed};
pub use open::OpenFault;
pub use reads::read_commit;
