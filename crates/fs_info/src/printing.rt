//! What a disk says of itself, printed.

ghost use Rattle.std.specs.Prelude.{◌≡◌, OnOk, codes};
ghost use Rattle.std.specs.Io.KnownBytes.{Appends};
ghost use Rattle.fs_info.specs.InfoTexts.{size_fields, free_fields, limit_fields, state_fields, info_lines, lines_text, members_of, yes_text, truth_text, json_text, info_text};

use crate::info::Info;
use std::io::{self, Write};

const SECTOR_BYTES: u64 = 512;

/// Prints what a disk says of itself, a line each, or as a JSON object.
pub fn print_info<O: Write>(info: &Info, json: bool, out: &mut O) -> io::Result<()>
    ensures { OnOk result (Appends (O.contents out.old) (O.contents out.new) (info_text json info.now)) }
{
    if json {
        print_json(info, out)
    } else {
        print_lines(info, out)
    }
}

// ---- for people, a line each

fn print_lines<O: Write>(info: &Info, out: &mut O) -> io::Result<()>
    ensures { OnOk result (Appends (O.contents out.old) (O.contents out.new) (lines_text info.now)) }
{
    print_size_lines(info, out)?;
    print_free_lines(info, out)?;
    print_limit_lines(info, out)?;
    print_state_lines(info, out)
}

fn print_size_lines<O: Write>(info: &Info, out: &mut O) -> io::Result<()>
    ensures { OnOk result (Appends (O.contents out.old) (O.contents out.new) (info_lines (size_fields info.now))) }
{
    write!(
        out,
        "version {}\nsectors {}\nbytes {}\ninodes {}\n",
        info.geometry.version.number(),
        info.geometry.sectors,
        SECTOR_BYTES * info.geometry.sectors as u64,
        info.geometry.inodes
    )
}

fn print_free_lines<O: Write>(info: &Info, out: &mut O) -> io::Result<()>
    ensures { OnOk result (Appends (O.contents out.old) (O.contents out.new) (info_lines (free_fields info.now))) }
{
    write!(
        out,
        "free_sectors {}\nfree_inodes {}\n",
        info.free_sectors, info.free_inodes
    )
}

fn print_limit_lines<O: Write>(info: &Info, out: &mut O) -> io::Result<()>
    ensures { OnOk result (Appends (O.contents out.old) (O.contents out.new) (info_lines (limit_fields info.now))) }
{
    write!(
        out,
        "max_name {}\nmax_directory_names {}\nmax_links {}\nmax_file_size {}\n",
        info.geometry.version.max_name(),
        info.geometry.version.max_names(),
        info.geometry.version.max_inode_names(),
        info.geometry.version.max_file_size()
    )
}

fn print_state_lines<O: Write>(info: &Info, out: &mut O) -> io::Result<()>
    ensures { OnOk result (Appends (O.contents out.old) (O.contents out.new) (info_lines (state_fields info.now))) }
{
    write!(
        out,
        "keeps_times {}\npending {}\n",
        yes_or_no(info.geometry.version.keeps_times()),
        yes_or_no(info.pending)
    )
}

// ---- for programs, one object

fn print_json<O: Write>(info: &Info, out: &mut O) -> io::Result<()>
    ensures { OnOk result (Appends (O.contents out.old) (O.contents out.new) (json_text info.now)) }
{
    print_size_members(info, out)?;
    print_free_members(info, out)?;
    print_limit_members(info, out)?;
    print_state_members(info, out)?;
    writeln!(out, "}}")?;
    Ok(())
}

fn print_size_members<O: Write>(info: &Info, out: &mut O) -> io::Result<()>
    ensures { OnOk result (Appends (O.contents out.old) (O.contents out.new) (members_of (codes "{") (size_fields info.now))) }
{
    write!(
        out,
        "{{\"version\":{},\"sectors\":{},\"bytes\":{},\"inodes\":{}",
        info.geometry.version.number(),
        info.geometry.sectors,
        SECTOR_BYTES * info.geometry.sectors as u64,
        info.geometry.inodes
    )
}

fn print_free_members<O: Write>(info: &Info, out: &mut O) -> io::Result<()>
    ensures { OnOk result (Appends (O.contents out.old) (O.contents out.new) (members_of (codes ",") (free_fields info.now))) }
{
    write!(
        out,
        ",\"free_sectors\":{},\"free_inodes\":{}",
        info.free_sectors, info.free_inodes
    )
}

fn print_limit_members<O: Write>(info: &Info, out: &mut O) -> io::Result<()>
    ensures { OnOk result (Appends (O.contents out.old) (O.contents out.new) (members_of (codes ",") (limit_fields info.now))) }
{
    write!(
        out,
        ",\"max_name\":{},\"max_directory_names\":{},\"max_links\":{},\"max_file_size\":{}",
        info.geometry.version.max_name(),
        info.geometry.version.max_names(),
        info.geometry.version.max_inode_names(),
        info.geometry.version.max_file_size()
    )
}

fn print_state_members<O: Write>(info: &Info, out: &mut O) -> io::Result<()>
    ensures { OnOk result (Appends (O.contents out.old) (O.contents out.new) (members_of (codes ",") (state_fields info.now))) }
{
    write!(
        out,
        ",\"keeps_times\":{},\"pending\":{}",
        true_or_false(info.geometry.version.keeps_times()),
        true_or_false(info.pending)
    )
}

/// The word for whether something is so.
pub fn yes_or_no(yes: bool) -> &'static str
    ensures { result.now ≡ yes_text yes }
{
    if yes { "yes" } else { "no" }
}

fn true_or_false(truth: bool) -> &'static str
    ensures { result.now ≡ truth_text truth }
{
    if truth { "true" } else { "false" }
}
