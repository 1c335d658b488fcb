//! Entries of an access control list: tags, permissions, and their numbers.
ghost use Rattle.std.specs.Prelude.{◌≡◌, ◌<◌};
ghost use Rattle.posix_acl.specs.Order.{same_name};
ghost use Rattle.posix_acl.specs.Entries.{tag_number, is_tag, is_named, perms_of, digit_of, meet, plain};

/// Whom an entry is about. The variants stand in canonical order, and their numbers are those
/// under which Linux stores them.
#[derive(Clone, Copy)]
pub enum Tag {
    /// The owner of the file.
    UserObj = 1,
    /// The user with the entry's id.
    User = 2,
    /// The owning group.
    GroupObj = 4,
    /// The group with the entry's id.
    Group = 8,
    /// The most that named entries and the owning group can give.
    Mask = 16,
    /// Everyone else.
    Other = 32,
}

impl Tag {
    ghost use Rattle.std.specs.Prelude.{◌≡◌, IfSome, Some};
    ghost use Rattle.posix_acl.specs.Entries.{tag_number, is_tag, is_named};
    ghost use Rattle.posix_acl.specs.declared.entry.Tag.{Tag};

    /// The number under which the tag is stored.
    pub fn number(self) -> u8
        ensures { result ≡ tag_number self }
    {
        self as u8
    }

    /// The tag that is stored under the number, where one is.
    pub fn from_number(number: u16) -> Option<Tag>
        ensures found { IfSome result (λ tag. tag_number tag ≡ number) }
        ensures only { (tag : Tag) → tag_number tag ≡ number → result ≡ Some tag }
    {
        let tag = match number {
            1 => Tag::UserObj,
            2 => Tag::User,
            4 => Tag::GroupObj,
            8 => Tag::Group,
            16 => Tag::Mask,
            32 => Tag::Other,
            _ => return None,
        };
        Some(tag)
    }

    /// Whether an id qualifies the tag.
    pub fn is_named(self) -> bool
        ensures { result ≡ is_named self }
    {
        matches!(self, Tag::User | Tag::Group)
    }

    /// Whether the two tags are one.
    pub fn is(self, tag: Tag) -> bool
        ensures { result ≡ is_tag self tag }
    {
        self.number() == tag.number()
    }
}

/// What an entry lets its class do; on a directory `execute` is search.
#[derive(Clone, Copy, PartialEq, Eq)]
pub struct Perms {
    pub read: bool,
    pub write: bool,
    pub execute: bool,
}

impl Perms {
    ghost use Rattle.std.specs.Prelude.{◌≡◌, IfSome, Some};
    ghost use Rattle.posix_acl.specs.Text.{perms_text};
    ghost use Rattle.posix_acl.specs.declared.entry.Perms.{Perms};

    /// The permissions of the lowest octal digit of mode bits.
    pub fn from_digit(digit: u16) -> Perms
        ensures { result ≡ perms_of digit }
    {
        Perms {
            read: digit / 4 % 2 == 1,
            write: digit / 2 % 2 == 1,
            execute: digit % 2 == 1,
        }
    }

    /// The octal digit: 4 for read, 2 for write, 1 for execute.
    pub fn digit(self) -> u16
        ensures value { result ≡ digit_of self }
        ensures below { result < 8 }
    {
        u16::from(self.read) * 4 + u16::from(self.write) * 2 + u16::from(self.execute)
    }

    /// `r`, `w` and `x`, or `-` in place of each.
    pub fn letters(self) -> &'static str
        ensures { result.now ≡ perms_text self }
    {
        match (self.read, self.write, self.execute) {
            (true, true, true) => "rwx",
            (true, true, false) => "rw-",
            (true, false, true) => "r-x",
            (true, false, false) => "r--",
            (false, true, true) => "-wx",
            (false, true, false) => "-w-",
            (false, false, true) => "--x",
            (false, false, false) => "---",
        }
    }

    /// The permissions of which these are the letters.
    pub fn from_letters(letters: &[u8]) -> Option<Perms>
        ensures found { IfSome result (λ p. perms_text p ≡ letters.now) }
        ensures only { (p : Perms) → perms_text p ≡ letters.now → result ≡ Some p }
    {
        match letters {
            [r @ (b'r' | b'-'), w @ (b'w' | b'-'), x @ (b'x' | b'-')] => Some(Perms {
                read: *r == b'r',
                write: *w == b'w',
                execute: *x == b'x',
            }),
            _ => None,
        }
    }

    /// What both allow.
    pub fn and(self, other: Perms) -> Perms
        ensures { result ≡ meet self other }
    {
        Perms {
            read: self.read && other.read,
            write: self.write && other.write,
            execute: self.execute && other.execute,
        }
    }
}

/// One entry of an access control list. The id counts only where the tag is `User` or `Group`.
#[derive(Clone, Copy)]
pub struct Entry {
    pub tag: Tag,
    pub id: u32,
    pub perms: Perms,
}

/// An entry as it is stored. Numbers that no entry has are possible too.
#[derive(Clone, Copy, PartialEq, Eq)]
pub struct EntryNumbers {
    /// That of the tag.
    pub tag: u16,
    /// The permissions as an octal digit.
    pub perms: u16,
    /// The user or the group; 0 where the tag takes none.
    pub id: u32,
}

impl Entry {
    ghost use Rattle.std.specs.Prelude.{◌≡◌, IfSome, Some};
    ghost use Rattle.posix_acl.specs.Order.{same_name};
    ghost use Rattle.posix_acl.specs.Entries.{plain, numbers_of};
    ghost use Rattle.posix_acl.specs.declared.entry.Entry.{Entry};

    /// The numbers as which the entry is stored.
    pub fn numbers(self) -> EntryNumbers
        ensures { result ≡ numbers_of self }
    {
        EntryNumbers {
            tag: u16::from(self.tag.number()),
            perms: self.perms.digit(),
            id: self.id,
        }
    }

    /// The entry that is stored as these numbers, where one is.
    pub fn from_numbers(numbers: EntryNumbers) -> Option<Entry>
        ensures found { IfSome result (λ e. numbers_of e ≡ numbers) }
        ensures only { (e : Entry) → numbers_of e ≡ numbers → result ≡ Some e }
    {
        let tag = Tag::from_number(numbers.tag)?;
        if numbers.perms > 7 {
            return None;
        }
        Some(Entry {
            tag,
            id: numbers.id,
            perms: Perms::from_digit(numbers.perms),
        })
    }

    /// The entry with the id 0 where the tag takes none.
    pub fn plain(self) -> Entry
        ensures { result ≡ plain self }
    {
        Entry {
            tag: self.tag,
            id: if self.tag.is_named() { self.id } else { 0 },
            perms: self.perms,
        }
    }

    /// Whether both name the same user, or the same group.
    pub fn has_name_of(self, other: Entry) -> bool
        ensures { result ≡ same_name self other }
    {
        self.tag.is_named() && self.tag.is(other.tag) && self.id == other.id
    }
}
