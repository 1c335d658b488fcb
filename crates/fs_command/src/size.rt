//! The size of a new disk, as a word has it.
ghost use Rattle.std.specs.Prelude.{◌≡◌, IfSome, IfNone};
ghost use Rattle.fs_command.specs.Sizes.{IsSize, IsNoSize, IsOnlySplit, SplitsInto, usual_inodes};

// How many bytes one of each unit is.
const KIBIBYTE: u64 = 1024;

const MEBIBYTE: u64 = 1024 * KIBIBYTE;

const GIBIBYTE: u64 = 1024 * MEBIBYTE;

// The least and the most bytes of a new disk.
const LEAST_BYTES: u64 = 512 * KIBIBYTE;

const MOST_BYTES: u64 = 8 * GIBIBYTE;

const SECTOR_BYTES: u64 = 512;

/// How many sectors a disk of that size has. A size out of range, or no number, is none.
pub(crate) fn sectors_of_size(text: &str) -> Option<u32>
    ensures given { IfSome result (IsSize text.now) }
    ensures none { IfNone result (IsNoSize text.now) }
{
    let (digits, unit) = parts(text);
    let Ok(number) = digits.parse::<u64>() else {
        return None;
    };
    let Some(bytes) = number.checked_mul(unit) else {
        return None;
    };
    if bytes < LEAST_BYTES {
        return None;
    }
    if bytes > MOST_BYTES {
        return None;
    }
    Some((bytes / SECTOR_BYTES) as u32)
}

// The digits of a size, and how many bytes one of its unit is.
fn parts(text: &str) -> (&str, u64)
    ensures split { SplitsInto text.now result.0.now result.1 }
    ensures only { IsOnlySplit text.now result.0.now result.1 }
{
    if let Some(digits) = text.strip_suffix('K') {
        return (digits, KIBIBYTE);
    }
    if let Some(digits) = text.strip_suffix('M') {
        return (digits, MEBIBYTE);
    }
    if let Some(digits) = text.strip_suffix('G') {
        return (digits, GIBIBYTE);
    }
    (text, 1)
}

/// How many inodes a disk has where the words don't say.
pub(crate) fn usual_inodes(sectors: u32) -> u32
    ensures { result ≡ usual_inodes sectors }
{
    sectors / 32 / 4 * 4
}
