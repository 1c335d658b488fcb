//! Words of lines: what they say, and the forms that commands ask for.
ghost use Rattle.std.specs.Prelude.{◌≡◌, ◌<◌, [], ◌∷◌, true, false, length, slice_index, IfOk, IfErr, MatchOption, Err};
ghost use Rattle.fs_lines.specs.declared.line.LineFault.TheVariants.{BadEscape};
ghost use Rattle.fs_lines.specs.Lines.{is_hex_digit, hex_value, is_plain, unescaped, word_bytes, words_of, each, with_byte};
ghost use Rattle.fs_lines.specs.Readings.{Gives};

use crate::line::LineFault;
use crate::places::{len_before, spaces_before};
use memchr::memchr2;
use std::alloc::Global;
use std::borrow::CowSlice;
use std::marker::Model;

// A list gets room for so many words at once: no command has more, a pid and its name among them.
const MOST_WORDS: usize = 5;

/// A word of a line, as the bytes that it says.
#[derive(Drop)]
pub struct Word<'a> {
    // Only those of a word with escapes stand elsewhere than in the line.
    said: CowSlice<'a, u8>,
}

impl<'a> Model for Word<'a> {
    ghost use Rattle.std.specs.Prelude.{ℕ, List};
    ghost use Rattle.std.specs.Cow.{cow_slice_items};

    ghost Value = { List ℕ };

    ghost view = { λ word. cow_slice_items word.said };
}

impl<'a> Word<'a> {
    /// The bytes that it says.
    pub fn bytes(&self) -> &[u8]
        ensures { result.now ≡ self.now }
    {
        self.said.as_slice()
    }

    // The word that stands so in a line.
    #[tactic(auto, unfolding(crate::specs::Lines::word_bytes))]
    fn read(alloc: Global, text: &'a [u8]) -> Result<Word<'a>, LineFault>
        ensures { Gives (λ word. word) result (word_bytes text.now) }
    {
        if text == b"\"\"".as_slice() {
            return Ok(Word {
                said: CowSlice::Borrowed(&[]),
            });
        }
        if memchr2(b'\\', b'"', text).is_none() {
            return Ok(Word {
                said: CowSlice::Borrowed(text),
            });
        }
        Ok(Word {
            said: CowSlice::Owned(unescaped(alloc, text)?),
        })
    }
}

/// The words of a line.
pub fn read_words(alloc: Global, line: &[u8]) -> Result<Vec<Word<'_>>, LineFault>
    ensures { Gives (λ words. words.items) result (each word_bytes (words_of line.now)) }
{
    let mut words = Vec::with_capacity(alloc, MOST_WORDS)?;
    let mut rest = line;
    while let Some((word, after)) = first_word(rest) {
        words.push(Word::read(alloc, word)?)?;
        rest = after;
    }
    Ok(words)
}

// The first word of a line, and what stands behind it.
fn first_word(line: &[u8]) -> Option<(&[u8], &[u8])>
    ensures { MatchOption result (words_of line.now ≡ []) (λ x.
        (length x.1.now < length line.now) × (words_of line.now ≡ x.0.now ∷ words_of x.1.now)) }
{
    let (_, begun) = line.split_at(spaces_before(line));
    if begun.is_empty() {
        return None;
    }
    Some(begun.split_at(len_before(b' ', begun)))
}

// The bytes that a text with escapes says.
fn unescaped(alloc: Global, text: &[u8]) -> Result<Vec<u8>, LineFault>
    ensures { Gives (λ bytes. bytes.items) result (unescaped text.now) }
{
    let mut bytes = Vec::with_capacity(alloc, text.len())?;
    let mut rest = text;
    while let Some(at) = memchr2(b'\\', b'"', rest) {
        let (plain, escape) = rest.split_at(at);
        bytes.extend_from_slice(plain)?;
        let (byte, after) = first_escape(escape)?;
        bytes.push(byte)?;
        rest = after;
    }
    bytes.extend_from_slice(rest)?;
    Ok(bytes)
}

// The byte that the escape at the front of a text says, and the text behind it.
fn first_escape(text: &[u8]) -> Result<(u8, &[u8]), LineFault>
    requires { is_plain (slice_index text.now 0) ≡ false }
    ensures ok { IfOk result (λ x.
        (length x.1.now < length text.now) × (unescaped text.now ≡ with_byte x.0 (unescaped x.1.now))) }
    ensures err { IfErr result (λ fault. (fault ≡ BadEscape) × (unescaped text.now ≡ Err BadEscape)) }
{
    match text {
        [b'\\', high, low, after @ ..] if is_hex_digit(*high) && is_hex_digit(*low) => {
            let byte = 16 * hex_value(*high) + hex_value(*low);
            Ok((byte, after))
        }
        _ => Err(LineFault::BadEscape),
    }
}

fn is_hex_digit(byte: u8) -> bool
    ensures { result ≡ is_hex_digit byte }
{
    matches!(byte, b'0'..=b'9' | b'a'..=b'f')
}

fn hex_value(digit: u8) -> u8
    requires { is_hex_digit digit ≡ true }
    ensures value { result ≡ hex_value digit }
    ensures below { result < 16 }
{
    if digit < b'a' {
        digit - b'0'
    } else {
        digit - (b'a' - 10)
    }
}
