//! Where bytes stand in a text.
ghost use Rattle.std.specs.Prelude.{◌≡◌, ◌≤◌, ◌==◌, length};
ghost use Rattle.std.specs.List.{position_or_len, prefix_len};
ghost use Rattle.fs_lines.specs.Lines.{is_space};

use memchr::memchr;

/// How many bytes stand before the first `byte`: all of them, where there is none.
pub fn len_before(byte: u8, text: &[u8]) -> usize
    ensures count { result ≡ position_or_len (λ b. b == byte) text.now }
    ensures within { result ≤ length text.now }
{
    memchr(byte, text).unwrap_or(text.len())
}

/// How many spaces a line begins with.
pub fn spaces_before(line: &[u8]) -> usize
    ensures count { result ≡ prefix_len is_space line.now }
    ensures within { result ≤ length line.now }
{
    line.iter().take_while(|byte| **byte == b' ').count()
}
