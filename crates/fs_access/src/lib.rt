//! Who may do what at a path, and why: it is asked of a file system, and told in a sentence or as JSON.
//!
//! What is asked are the events of a process, so that the answer is one that the file system gives.
#![tactic(auto)]

mod asking;
mod component;
mod fault;
mod json;
mod question;
mod telling;
mod untouched;

pub use asking::ask;
pub use fault::AccessFault;
pub use question::{Answer, Question};
pub use telling::print_answer;
pub use untouched::Untouched;
