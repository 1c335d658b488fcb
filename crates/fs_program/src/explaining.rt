//! What is said of a finding, for whoever has to act on it.

ghost use Rattle.std.specs.Prelude.{◌≡◌, ◌≤◌, OnOk};
ghost use Rattle.std.specs.Io.KnownBytes.{Appends};
ghost use Rattle.fs_program.specs.Explanations.{subjects, demands, of_rule, explanation_text};

use fs_check::Finding;
use std::io::{self, Write};

// What the number of a finding counts.
fn subject(rule: u8) -> &'static str
    requires { (1 ≤ rule) × (rule ≤ 14) }
    ensures { result.now ≡ of_rule subjects rule }
{
    match rule {
        3 => "inode bit",
        7 => "block bit",
        1 | 2 | 6 => "sector",
        _ => "inode",
    }
}

// What the rule asks, and that it isn't so.
fn demand(rule: u8) -> &'static str
    requires { (1 ≤ rule) × (rule ≤ 14) }
    ensures { result.now ≡ of_rule demands rule }
{
    match rule {
        1 => {
            "a superblock has to stand here, of a known version, with the image's own number of sectors and numbers in range; none does, so nothing else is found"
        }
        2 => {
            "a commit has to stand here, idle or with distinct targets behind the log and within the image; none does, so what was being written is not known"
        }
        3 => {
            "it has to be set for inodes 0 and 1, for those past the last one, and else where the inode is in use; it is the other way round"
        }
        4 => {
            "its kind, mode, size and unused bytes have to be as the layout's version allows, with inode 0 free and inode 1 a directory; they are not"
        }
        5 => "each of its sectors has to lie in the data area; one lies elsewhere",
        6 => { "one inode may own it, for one thing; two own it, or one does for two things" }
        7 => {
            "it has to be set where the sector is owned, below the data or past the end, and else clear; it is the other way round"
        }
        8 => {
            "past its size there may be no block and no byte but zeros, a hole in files alone, and no zero byte in a link's target; this does not hold"
        }
        9 => {
            "its lists have to be valid, in order and as its mode says, none on a link and default ones on directories alone; one is not"
        }
        10 => {
            "each slot of this directory has to hold a name and the number of an inode in use other than the root; one does not"
        }
        11 => "no name may stand twice in this directory; one does",
        12 => {
            "its count of names has to be the number of slots that name it, and within the limit; it is not"
        }
        13 => {
            "its parent has to be the directory that names it, the root's the root, and 0 where it is no directory; it is not"
        }
        _ => { "going up from this directory by parents has to reach the root; it does not" }
    }
}

/// Prints what the rule of a finding asks, in one sentence.
pub(crate) fn print_explanation<O: Write>(finding: Finding, out: &mut O) -> io::Result<()>
    requires { (1 ≤ finding.rule) × (finding.rule ≤ 14) }
    ensures { OnOk result (Appends (O.contents out.old) (O.contents out.new) (explanation_text finding)) }
{
    let subject = subject(finding.rule);
    let demand = demand(finding.rule);
    let at = finding.at;
    writeln!(
        out,
        "{subject} {at}: {demand}; nothing is repaired: take the image from a backup"
    )
}
