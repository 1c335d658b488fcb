//! The lines of one second.

ghost use Rattle.std.specs.Prelude.{◌≡◌, ◌==◌, OnOk, OnErr, IfOk, string_bytes, ◌++◌};
ghost use Rattle.std.specs.List.{position};
ghost use Rattle.user_lines.specs.Seconds.{new_second, line_count, has_room_for, with_line, leaving_out, left_out_of, left_out_of_others, left_out_text};

use std::alloc::{AllocError, Global};
use std::marker::Model;

// The most lines of one user.
const MOST_OF_ONE: usize = 20;

// The most lines of all users.
const MOST_OF_ALL: usize = 500;

/// A line of a second, by its user. At a user's first one it is counted how many more were left out.
#[derive(Clone, Copy)]
pub(crate) struct ToldLine {
    user: u32,
    left_out: u64,
}

/// A second: the lines that it has, and how many were left out of users who have none.
#[derive(Drop)]
pub(crate) struct Second {
    number: u64,
    lines: Vec<ToldLine>,
    others: u64,
}

impl Model for Second {
    ghost use Rattle.user_lines.specs.Seconds.{Telling};

    ghost Value = { Telling };

    ghost view = { λ s. record { number = s.number; lines = s.lines.items; others = s.others } };
}

impl Second {
    /// One without a line, and with none left out.
    pub(crate) fn new(alloc: Global, number: u64) -> Second
        ensures { result ≡ new_second number }
    {
        Second {
            number,
            lines: Vec::new(alloc),
            others: 0,
        }
    }

    pub(crate) fn number(&self) -> u64
        ensures { result ≡ self.now.number }
    {
        self.number
    }

    /// Begins another second.
    pub(crate) fn begin(&mut self, number: u64)
        ensures { self.new ≡ new_second number }
    {
        self.number = number;
        self.lines.clear();
        self.others = 0;
    }

    /// Whether it has room for one more line of this user.
    pub(crate) fn has_room_for(&self, user: u32) -> bool
        ensures { result ≡ has_room_for self.now user }
    {
        self.lines.len() < MOST_OF_ALL && line_count(&self.lines, user) < MOST_OF_ONE
    }

    /// Has one more line of this user.
    pub(crate) fn add_line(&mut self, user: u32) -> Result<(), AllocError>
        ensures added { OnOk result (self.new ≡ with_line self.old user) }
        ensures refused { OnErr result (self.new ≡ self.old) }
    {
        self.lines.push(ToldLine { user, left_out: 0 })?;
        Ok(())
    }

    /// Counts a line of this user that is left out.
    pub(crate) fn leave_out(&mut self, user: u32)
        ensures { self.new ≡ leaving_out self.old user }
    {
        match first_of(&self.lines, user) {
            Some(at) => self.lines[at].left_out = self.lines[at].left_out.saturating_add(1),
            None => self.others = self.others.saturating_add(1),
        }
    }

    /// How many were left out: a line for each user of whom some were, and one for all users who have no line.
    pub(crate) fn left_out_text(&self, alloc: Global) -> Result<String, AllocError>
        ensures { IfOk result (λ text. string_bytes text ≡ left_out_text self.now) }
    {
        let mut text = String::new(alloc);
        for line in &self.lines {
            push_left_out(&mut text, self.number, line)?;
        }
        push_left_out_of_others(&mut text, self.number, self.others)?;
        Ok(text)
    }
}

fn line_count(lines: &[ToldLine], user: u32) -> usize
    ensures { result ≡ line_count lines.now user }
{
    lines.iter().filter(|line| line.user == user).count()
}

// A user's first line.
fn first_of(lines: &[ToldLine], user: u32) -> Option<usize>
    ensures { result ≡ position (λ line. line.user == user) lines.now }
{
    lines.iter().position(|line| line.user == user)
}

// Adds how many more of a line's user were left out, if any were.
fn push_left_out(text: &mut String, number: u64, line: &ToldLine) -> Result<(), AllocError>
    ensures { OnOk result (string_bytes text.new ≡ string_bytes text.old ++ left_out_of number line.now) }
{
    let ToldLine { user, left_out } = *line;
    if left_out == 0 {
        return Ok(());
    }
    writeln!(text, "{number} {user} - - - - {left_out} more")
}

// Adds how many were left out of users who have no line, if any were.
fn push_left_out_of_others(text: &mut String, number: u64, others: u64) -> Result<(), AllocError>
    ensures { OnOk result (string_bytes text.new ≡ string_bytes text.old ++ left_out_of_others number others) }
{
    if others == 0 {
        return Ok(());
    }
    writeln!(text, "{number} - - - - - {others} more")
}
