//! Lines: what a line of a script asks a file system for, and the text of what is answered.
//!
//! `specs/` says which lines there are and what each says, and which text a reply has.
#![tactic(auto)]

mod command;
mod forms;
mod laws;
mod line;
mod operand;
mod parse;
mod places;
mod text;
mod words;

pub use forms::{caps_named, read_id, read_ids, read_perms};
pub use laws::a_line_says_one_thing;
pub use line::{Line, LineFault, MAX_LINE};
pub use parse::parse_line;
pub use places::len_before;
pub use text::{fault_text, hex_digit, need_text, reply_text, rule_text, word_text};
