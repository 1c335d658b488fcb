//! The words behind a command, by the values that they say.
ghost use Rattle.std.specs.Prelude.{◌≡◌, [], ℕ, List, Ok, Err, IfOk, IfErr, IsTrue, Result, ok_or};
ghost use Rattle.std.specs.List.{slice_get};
ghost use Rattle.fs_lines.specs.declared.line.LineFault.{LineFault as Fault};
ghost use Rattle.fs_lines.specs.declared.line.LineFault.TheVariants.{WordCount};
ghost use Rattle.fs_lines.specs.Commands.{said_at, said_of_or, none_said, one_said, two_said, three_said, two_or_said};
ghost use Rattle.fs_model.specs.Steps.{is_of_machine};
ghost use Rattle.fs_lines.specs.declared.line.Line.TheVariants.{Event as Asks};
ghost use Rattle.fs_lines.specs.BehindPid.{one_call, two_call, three_call};
ghost use Rattle.fs_lines.specs.Readings.{Gives, GivesSaid};

use crate::forms::{
    read_acl_type, read_flags, read_groups, read_id, read_kept_id, read_mode, read_number,
    read_offset, read_perms, read_whence,
};
use crate::line::LineFault;
use crate::words::Word;
use fs_model::{AclType, ByteString, Call, Event, Flags, Whence};
use posix_acl::Perms;
use std::alloc::Global;
use std::marker::Model;

/// A value that a word says.
pub trait Operand: Drop {
    ghost said: { List ℕ → Result Self Fault };

    /// The value of a word.
    fn read(alloc: Global, word: &[u8]) -> Result<Self, LineFault>
        ensures { Gives (λ value. value) result (said word.now) };
}

impl<Role> Operand for ByteString<Role> {
    ghost use Rattle.fs_lines.specs.Commands.{said_by, bytes};

    ghost said = { said_by bytes };

    fn read(alloc: Global, word: &[u8]) -> Result<ByteString<Role>, LineFault> {
        Ok(ByteString::from_slice(alloc, word)?)
    }
}

impl Operand for usize {
    ghost use Rattle.fs_lines.specs.Commands.{said_by, number};

    ghost said = { said_by number };

    fn read(_alloc: Global, word: &[u8]) -> Result<usize, LineFault> {
        read_number(word)
    }
}

impl Operand for u64 {
    ghost use Rattle.fs_lines.specs.Commands.{said_by, number};

    ghost said = { said_by number };

    fn read(_alloc: Global, word: &[u8]) -> Result<u64, LineFault> {
        Ok(read_number(word)? as u64)
    }
}

impl Operand for i64 {
    ghost use Rattle.fs_lines.specs.Commands.{said_by, offset};

    ghost said = { said_by offset };

    fn read(_alloc: Global, word: &[u8]) -> Result<i64, LineFault> {
        read_offset(word)
    }
}

/// The id of a user or a group.
impl Operand for u32 {
    ghost use Rattle.fs_lines.specs.Commands.{said_by, id};

    ghost said = { said_by id };

    fn read(_alloc: Global, word: &[u8]) -> Result<u32, LineFault> {
        read_id(word)
    }
}

/// A mode.
impl Operand for u16 {
    ghost use Rattle.fs_lines.specs.Commands.{said_by, mode};

    ghost said = { said_by mode };

    fn read(_alloc: Global, word: &[u8]) -> Result<u16, LineFault> {
        read_mode(word)
    }
}

/// An id, or none where the old one is kept.
impl Operand for Option<u32> {
    ghost use Rattle.fs_lines.specs.Commands.{said_by, kept_id};

    ghost said = { said_by kept_id };

    fn read(_alloc: Global, word: &[u8]) -> Result<Option<u32>, LineFault> {
        read_kept_id(word)
    }
}

impl Operand for Perms {
    ghost use Rattle.fs_lines.specs.Commands.{said_by, perms};

    ghost said = { said_by perms };

    fn read(_alloc: Global, word: &[u8]) -> Result<Perms, LineFault> {
        read_perms(word)
    }
}

impl Operand for Flags {
    ghost use Rattle.fs_lines.specs.Commands.{said_by, flags};

    ghost said = { said_by flags };

    fn read(_alloc: Global, word: &[u8]) -> Result<Flags, LineFault> {
        read_flags(word)
    }
}

impl Operand for AclType {
    ghost use Rattle.fs_lines.specs.Commands.{said_by, acl_type};

    ghost said = { said_by acl_type };

    fn read(_alloc: Global, word: &[u8]) -> Result<AclType, LineFault> {
        read_acl_type(word)
    }
}

impl Operand for Whence {
    ghost use Rattle.fs_lines.specs.Commands.{said_by, whence};

    ghost said = { said_by whence };

    fn read(_alloc: Global, word: &[u8]) -> Result<Whence, LineFault> {
        read_whence(word)
    }
}

/// Supplementary groups.
#[derive(Drop)]
pub struct Groups(Vec<u32>);

impl Model for Groups {
    ghost use Rattle.std.specs.Prelude.{ℕ, List};

    ghost Value = { List ℕ };

    ghost view = { λ groups. groups.0.items };
}

impl Groups {
    /// No group.
    pub fn new(alloc: Global) -> Groups
        ensures { result ≡ [] }
    {
        Groups(Vec::new(alloc))
    }

    /// The ids of the groups.
    pub fn ids(&self) -> &[u32]
        ensures { result.now ≡ self.now }
    {
        self.0.as_slice()
    }
}

impl Operand for Groups {
    ghost use Rattle.fs_lines.specs.Commands.{said_by, groups};

    ghost said = { said_by groups };

    fn read(alloc: Global, word: &[u8]) -> Result<Groups, LineFault> {
        Ok(Groups(read_groups(alloc, word)?))
    }
}

/// The words behind a command, and the pid before it.
#[derive(Clone, Copy)]
pub struct Operands<'a> {
    pub alloc: Global,
    pub pid: Result<usize, LineFault>,
    pub words: &'a [Word<'a>],
}

// The value of the word with this index.
fn operand_at<A: Operand>(alloc: Global, words: &[Word<'_>], index: usize) -> Result<A, LineFault>
    ensures { Gives (λ value. value) result (said_at A.said words.now index) }
{
    match words.get(index) {
        Some(word) => A::read(alloc, word.bytes()),
        None => Err(LineFault::WordCount),
    }
}

// The value of the word with this index, or `missing` where there is no such word.
fn operand_at_or<A: Operand>(
    alloc: Global,
    words: &[Word<'_>],
    index: usize,
    missing: A,
) -> Result<A, LineFault>
    ensures { Gives (λ value. value) result (said_of_or A.said missing (slice_get words.now index)) }
{
    match words.get(index) {
        Some(word) => A::read(alloc, word.bytes()),
        None => Ok(missing),
    }
}

impl Operands<'_> {
    /// The pid, where there is no word.
    pub fn none(self) -> Result<usize, LineFault>
        ensures { result ≡ none_said self.entry.pid self.entry.words.now }
    {
        if !self.words.is_empty() {
            return Err(LineFault::WordCount);
        }
        self.pid
    }

    /// The pid and a word.
    pub fn one<A: Operand>(self) -> Result<(usize, A), LineFault>
        ensures { Gives (λ x. x) result (one_said A.said self.entry.pid self.entry.words.now) }
    {
        if self.words.len() != 1 {
            return Err(LineFault::WordCount);
        }
        let pid = self.pid?;
        Ok((pid, operand_at(self.alloc, self.words, 0)?))
    }

    /// The call that a word makes.
    pub fn one_call<A: Operand, F: FnOnce(A) -> Call>(self, call: F) -> Result<Event, LineFault>
        requires { F.IsAlwaysCallable call }
        ensures said { (says : A → Call) → ((a : A) (made : Call) → F.post call a made → made ≡ says a)
            → GivesSaid Asks result (one_call A.said says self.entry.pid self.entry.words.now) }
        ensures offered { IfOk result (λ e. IsTrue (is_of_machine e)) }
    {
        match self.one() {
            Ok((pid, first)) => Ok(Event::Call(pid, call(first))),
            Err(fault) => Err(fault),
        }
    }

    /// The pid and two words.
    pub fn two<A: Operand, B: Operand>(self) -> Result<(usize, A, B), LineFault>
        ensures { Gives (λ x. x) result (two_said A.said B.said self.entry.pid self.entry.words.now) }
    {
        if self.words.len() != 2 {
            return Err(LineFault::WordCount);
        }
        let pid = self.pid?;
        let first = operand_at(self.alloc, self.words, 0)?;
        let second = operand_at(self.alloc, self.words, 1)?;
        Ok((pid, first, second))
    }

    /// The call that two words make.
    pub fn two_call<A: Operand, B: Operand, F: FnOnce(A, B) -> Call>(
        self,
        call: F,
    ) -> Result<Event, LineFault>
        requires { F.IsAlwaysCallable call }
        ensures said { (says : A → B → Call) → ((a : A) (b : B) (made : Call) → F.post call a b made → made ≡ says a b)
            → GivesSaid Asks result (two_call A.said B.said says self.entry.pid self.entry.words.now) }
        ensures offered { IfOk result (λ e. IsTrue (is_of_machine e)) }
    {
        match self.two() {
            Ok((pid, first, second)) => Ok(Event::Call(pid, call(first, second))),
            Err(fault) => Err(fault),
        }
    }

    /// The pid and three words.
    pub fn three<A: Operand, B: Operand, C: Operand>(self) -> Result<(usize, A, B, C), LineFault>
        ensures { Gives (λ x. x) result (three_said A.said B.said C.said self.entry.pid self.entry.words.now) }
    {
        if self.words.len() != 3 {
            return Err(LineFault::WordCount);
        }
        let pid = self.pid?;
        let first = operand_at(self.alloc, self.words, 0)?;
        let second = operand_at(self.alloc, self.words, 1)?;
        let third = operand_at(self.alloc, self.words, 2)?;
        Ok((pid, first, second, third))
    }

    /// The call that three words make.
    pub fn three_call<A: Operand, B: Operand, C: Operand, F: FnOnce(A, B, C) -> Call>(
        self,
        call: F,
    ) -> Result<Event, LineFault>
        requires { F.IsAlwaysCallable call }
        ensures said { (says : A → B → C → Call) → ((a : A) (b : B) (c : C) (made : Call) → F.post call a b c made → made ≡ says a b c)
            → GivesSaid Asks result (three_call A.said B.said C.said says self.entry.pid self.entry.words.now) }
        ensures offered { IfOk result (λ e. IsTrue (is_of_machine e)) }
    {
        match self.three() {
            Ok((pid, first, second, third)) => Ok(Event::Call(pid, call(first, second, third))),
            Err(fault) => Err(fault),
        }
    }

    /// The pid and three words, the last of which may be left out.
    pub fn two_or<A: Operand, B: Operand, C: Operand>(
        self,
        missing: C,
    ) -> Result<(usize, A, B, C), LineFault>
        ensures { Gives (λ x. x) result (two_or_said A.said B.said C.said missing self.entry.pid self.entry.words.now) }
    {
        if self.words.len() < 2 || self.words.len() > 3 {
            return Err(LineFault::WordCount);
        }
        let pid = self.pid?;
        let first = operand_at(self.alloc, self.words, 0)?;
        let second = operand_at(self.alloc, self.words, 1)?;
        let third = operand_at_or(self.alloc, self.words, 2, missing)?;
        Ok((pid, first, second, third))
    }
}
