//! Parts of a request's bytes, which they borrow.

ghost use Rattle.std.specs.Prelude.{◌≡◌, ◌<◌, ◌+◌, length, position, false, IfSome};
ghost use Rattle.std.specs.List.{list_any};
ghost use Rattle.std.specs.Option.{option_copied};
ghost use Rattle.fuse_protocol.specs.Names.{IsFileName, is_nul, text_of, name_from};

use std::marker::Model;

/// Bytes of which nothing is asked: what is written, the target of a link, an attribute's name or its value.
#[derive(Drop)]
pub struct Piece<'a> {
    bytes: &'a [u8],
}

impl<'a> Model for Piece<'a> {
    ghost use Rattle.std.specs.Prelude.{ℕ, List};

    ghost Value = { List ℕ };

    ghost view = { λ piece. piece.bytes.now };
}

impl<'a> Piece<'a> {
    /// A piece of these bytes.
    pub fn new(bytes: &'a [u8]) -> Piece<'a>
        ensures { result ≡ bytes.now }
    {
        Piece { bytes }
    }

    /// The bytes.
    pub fn bytes(&self) -> &'a [u8]
        ensures { result.now ≡ self.now }
    {
        self.bytes
    }
}

/// The name of a file in its directory: any bytes but NUL and `/`, of any length. `.` and `..` are names too.
#[derive(Drop)]
pub struct Name<'a> {
    bytes: &'a [u8],
}

impl<'a> Model for Name<'a> {
    ghost use Rattle.std.specs.Prelude.{ℕ, List};
    ghost use Rattle.fuse_protocol.specs.Names.{IsFileName};

    ghost Value = { List ℕ };

    ghost view = { λ name. name.bytes.now };

    ghost invariant = { λ name. IsFileName name.bytes.now };
}

impl<'a> Name<'a> {
    /// The bytes.
    pub fn bytes(&self) -> &'a [u8]
        ensures value { result.now ≡ self.now }
        ensures is_name { IsFileName self.now }
    {
        self.bytes
    }
}

// Where the first NUL is.
fn first_nul(bytes: &[u8]) -> Option<usize>
    ensures { result ≡ position is_nul bytes.now }
{
    bytes.iter().position(|b| *b == 0)
}

// The bytes before the first NUL from `at` on.
fn text_at(from: &[u8], at: usize) -> Option<&[u8]>
    ensures text { option_copied result ≡ text_of from.now at }
    ensures no_nul { IfSome result (λ text. list_any is_nul text.now ≡ false) }
    ensures within { IfSome result (λ text. at + length text.now < length from.now) }
{
    if from.len() < at {
        return None;
    }
    let (_, rest) = from.split_at(at);
    let end = first_nul(rest)?;
    Some(&rest[..end])
}

/// The piece from `at` on that ends in NUL.
pub(crate) fn piece_at(from: &[u8], at: usize) -> Option<Piece<'_>>
    ensures text { result ≡ text_of from.now at }
    ensures within { IfSome result (λ text. at + length text < length from.now) }
{
    let bytes = text_at(from, at)?;
    Some(Piece { bytes })
}

/// The name from `at` on that ends in NUL.
pub(crate) fn name_at(from: &[u8], at: usize) -> Option<Name<'_>>
    ensures name { result ≡ name_from from.now at }
    ensures within { IfSome result (λ name. at + length name < length from.now) }
{
    let bytes = text_at(from, at)?;
    if bytes.contains(&b'/') {
        return None;
    }
    Some(Name { bytes })
}
