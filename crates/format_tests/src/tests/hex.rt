//! Bytes of messages as hexadecimal digits.

ghost use Rattle.std.specs.Prelude.{◌≤◌, ◌<◌};

// Bytes of a message, with zeros behind them, and how many it has.
pub(crate) type Bytes = ([u8; 160], usize);

// The bytes that a text of hexadecimal digits spells.
pub(crate) fn bytes_of(text: &str) -> Bytes
    ensures { result.1 ≤ 160 }
{
    let digits = text.as_bytes();
    let count = (digits.len() / 2).min(160);
    let mut bytes = [0; 160];
    for i in 0..count {
        bytes[i] = 16 * digit(digits[2 * i]) + digit(digits[2 * i + 1]);
    }
    (bytes, count)
}

fn digit(byte: u8) -> u8
    ensures { result < 16 }
{
    match byte {
        b'0'..=b'9' => byte - b'0',
        b'a'..=b'f' => byte - b'a' + 10,
        _ => 0,
    }
}
