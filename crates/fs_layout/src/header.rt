//! The header of the log: the first sectors of a log area, which have those targets of a commit that the commit sector has no
//! room for; and where the areas lie.

ghost use Rattle.std.specs.Prelude.{◌≡◌, ◌≤◌};
ghost use Rattle.fs_layout.specs.Header.{area_start, header_of, log_end, max_targets, other_area};
ghost use Rattle.fs_layout.specs.declared.header.TheConstants.{MAX_HEADER};

use crate::commit::{HEADER_TARGETS, MAX_TARGETS};
use crate::geometry::FIRST_LOG_SECTOR;
use crate::superblock::Super;

/// The first sector behind the log of a disk without a header: no target of a commit lies before it.
pub const LEAST_LOG_END: u32 = 128;

/// The most sectors of a header. What is reserved for a commit grows with how many a disk has.
pub const MAX_HEADER: u32 = 63;

/// The most targets of a commit whose header has so many sectors.
pub fn max_targets(header: u32) -> usize
    requires { header ≤ MAX_HEADER }
    ensures { result ≡ max_targets header }
{
    MAX_TARGETS + HEADER_TARGETS * (header as usize)
}

/// The first sector behind the log, where the header has so many sectors.
pub fn log_end(header: u32) -> u32
    requires { header ≤ MAX_HEADER }
    ensures { result ≡ log_end header }
{
    if header == 0 {
        return LEAST_LOG_END;
    }
    LEAST_LOG_END + 129 * header + 126 + 129 * header
}

/// The first sector of a log area, where the header has so many sectors.
pub fn area_start(header: u32, area: u32) -> u32
    requires { header ≤ MAX_HEADER }
    ensures { result ≡ area_start header area }
{
    if area == 0 || header == 0 {
        return FIRST_LOG_SECTOR;
    }
    FIRST_LOG_SECTOR + 126 + 129 * header
}

/// The log area for the commit after one in this area: the other one, where there are two.
pub fn other_area(header: u32, area: u32) -> u32
    requires { area ≤ 1 }
    ensures { result ≡ other_area header area }
{
    if header == 0 {
        return 0;
    }
    1 - area
}

/// How many sectors the header of a disk has whose sector 0 has this content.
///
/// Where that is no superblock, there is none: what it says of a journal is then read as in the layouts without a header.
#[tactic(auto, unfolding(crate::specs::Header::header_of))]
pub fn header_of(content: &[u8; 512]) -> u32
    ensures value { result ≡ header_of content.now }
    ensures most { result ≤ MAX_HEADER }
{
    match Super::read_from(content, 0) {
        Ok(v) if v.header <= MAX_HEADER => v.header,
        _ => 0,
    }
}
