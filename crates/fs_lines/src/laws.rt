//! A law on lines: the contract of a function that does nothing.
ghost use Rattle.fs_lines.specs.Laws.{LinesSayOneThing};

/// A line says one thing, also where the text of an ACL is asked what ACL it makes.
pub fn a_line_says_one_thing()
    ensures { LinesSayOneThing }
{}
