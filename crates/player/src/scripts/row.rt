//! What a row of a file stands for: rows that are made several times, and what stands between braces.

use std::alloc::AllocError;

/// What names in braces stand for.
#[derive(Clone, Copy)]
pub struct Fill<'a> {
    /// A name and its number. With a `+` behind it the name stands for the next one.
    pub outer: (&'a str, u64),
    /// Another one.
    pub inner: (&'a str, u64),
}

/// Adds the rows that a row makes.
pub fn push_row(text: &mut String, fill: &Fill<'_>, row: &str) -> Result<(), AllocError> {
    match repeated(row) {
        Some((count, pattern)) => push_repeated(text, pattern, count),
        None => push_filled(text, fill, row),
    }
}

// How many rows a row makes, and what stands in them.
fn repeated(row: &str) -> Option<(u32, &str)> {
    let (count, pattern) = row.split_once("* ")?;
    Some((count.parse::<u32>().ok()?, pattern))
}

fn push_repeated(text: &mut String, pattern: &str, count: u32) -> Result<(), AllocError> {
    for number in 1..=count {
        push_numbered(text, pattern, number)?;
    }
    Ok(())
}

// Adds a pattern with this number, and the next one, in it.
fn push_numbered(text: &mut String, pattern: &str, number: u32) -> Result<(), AllocError> {
    for letter in pattern.chars() {
        push_letter(text, letter, number)?;
    }
    text.push('\n')
}

// Adds what a letter of a pattern stands for.
fn push_letter(text: &mut String, letter: char, number: u32) -> Result<(), AllocError> {
    let next = u64::from(number) + 1;
    match letter {
        '#' => write!(text, "{number}"),
        '+' => write!(text, "{next}"),
        _ => text.push(letter),
    }
}

// Adds a row with what its braces stand for.
fn push_filled(text: &mut String, fill: &Fill<'_>, row: &str) -> Result<(), AllocError> {
    for (i, piece) in row.split('{').enumerate() {
        push_piece(text, fill, i > 0, piece)?;
    }
    text.push('\n')
}

// Adds a piece of a row, which may stand behind a brace.
fn push_piece(
    text: &mut String,
    fill: &Fill<'_>,
    is_behind: bool,
    piece: &str,
) -> Result<(), AllocError> {
    match piece.split_once('}') {
        Some((inside, after)) if is_behind => {
            push_inside(text, fill, inside)?;
            text.push_str(after)
        }
        _ => {
            let brace = if is_behind { "{" } else { "" };
            write!(text, "{brace}{piece}")
        }
    }
}

fn push_inside(text: &mut String, fill: &Fill<'_>, inside: &str) -> Result<(), AllocError> {
    match fill.number_of(inside) {
        Some(number) => write!(text, "{number}"),
        None => push_other(text, inside),
    }
}

impl Fill<'_> {
    // The number that a name stands for.
    fn number_of(&self, name: &str) -> Option<u64> {
        number_by(self.outer, name).or(number_by(self.inner, name))
    }
}

// The number that stands for its own name, and the next one, which stands for that name with a `+`.
fn number_by(named: (&str, u64), name: &str) -> Option<u64> {
    let (own, number) = named;
    if name == own {
        Some(number)
    } else if name.strip_suffix('+') == Some(own) {
        Some(number.saturating_add(1))
    } else {
        None
    }
}

// Adds what is no name: a piece so many times, or the text as it stands.
fn push_other(text: &mut String, inside: &str) -> Result<(), AllocError> {
    match times(inside) {
        Some((piece, count)) => push_times(text, piece, count),
        None => write!(text, "{{{inside}}}"),
    }
}

// A piece of text, and how often it stands there.
fn times(inside: &str) -> Option<(&str, u32)> {
    let (piece, count) = inside.rsplit_once('*')?;
    Some((piece, count.parse::<u32>().ok()?))
}

fn push_times(text: &mut String, piece: &str, count: u32) -> Result<(), AllocError> {
    for _ in 0..count {
        text.push_str(piece)?;
    }
    Ok(())
}
