//! What is written: how many lines, and how many were left out. The clauses say it of any lines; here are the numbers.

use crate::UserLines;
use std::alloc::{AllocError, Global};
use std::io::{self, ErrorKind, Write};
use std::{mem, str};

// In a second, of so many users from the first one on, so many lines each.
type Crowd = (u64, u32, u32, u32);

// What is told, how many lines of it are written, and what tells how many weren't.
type Row = (&'static [Crowd], usize, &'static str);

static CROWDS: [Row; 9] = [
    (&[(7, 1000, 1, 20)], 20, ""),
    (&[(7, 1000, 1, 21)], 20, "7 1000 - - - - 1 more\n"),
    (&[(7, 1000, 25, 20)], 500, ""),
    (
        &[(7, 1000, 25, 20), (7, 2000, 1, 1)],
        500,
        "7 - - - - - 1 more\n",
    ),
    (&[(7, 1, 501, 1)], 500, "7 - - - - - 1 more\n"),
    // A user with a line is told by itself, whichever limit there was.
    (
        &[(7, 1000, 25, 20), (7, 1024, 1, 3), (7, 2000, 2, 1)],
        500,
        "7 1024 - - - - 3 more\n7 - - - - - 2 more\n",
    ),
    // Each second has its own.
    (
        &[(7, 1000, 1, 21), (8, 1000, 1, 22)],
        40,
        "7 1000 - - - - 1 more\n8 1000 - - - - 2 more\n",
    ),
    // A clock that is set back begins one too, also one that has been.
    (
        &[(8, 1000, 1, 21), (7, 1000, 1, 20)],
        40,
        "8 1000 - - - - 1 more\n",
    ),
    (
        &[(8, 1000, 1, 20), (7, 1000, 1, 1), (8, 1000, 1, 21)],
        41,
        "8 1000 - - - - 1 more\n",
    ),
];

fn tell_crowd<W: Write>(list: &mut UserLines<W>, line: &String, crowd: Crowd) {
    let (second, first, users, each) = crowd;
    for number in 0..users {
        for _ in 0..each {
            list.tell(second, first.saturating_add(number), line);
        }
    }
}

// The file for these crowds.
fn written(alloc: Global, crowds: &[Crowd]) -> io::Result<String> {
    let line = String::from_str(alloc, "*\n")?;
    let mut file = Vec::new(alloc);
    let mut list = UserLines::new(alloc, &mut file);
    for crowd in crowds {
        tell_crowd(&mut list, &line, *crowd);
    }
    list.end()?;
    mem::drop(list);
    text_of(alloc, &file)
}

fn text_of(alloc: Global, bytes: &[u8]) -> io::Result<String> {
    match str::from_utf8(bytes) {
        Ok(text) => Ok(String::from_str(alloc, text)?),
        Err(_) => Err(io::Error::from(ErrorKind::InvalidData)),
    }
}

// How many lines were written, and the other ones.
fn counted(alloc: Global, file: &str) -> Result<(usize, String), AllocError> {
    let mut others = String::new(alloc);
    for line in file.lines() {
        if line != "*" {
            others.push_str(line)?;
            others.push_str("\n")?;
        }
    }
    Ok((file.lines().filter(|line| *line == "*").count(), others))
}

#[test]
fn limits_lines(rt: HostRuntime) -> io::Result<()> {
    for (crowds, count, more) in CROWDS {
        let file = written(rt.alloc(), crowds)?;
        let seen = counted(rt.alloc(), file.as_str())?;
        let wanted = (count, String::from_str(rt.alloc(), more)?);
        assert!(rt; seen == wanted, "{more}");
    }
    Ok(())
}

// ---- a device that is full for a while

// Takes at most so many bytes of each write, none where that is 0, and behind these writes all.
#[derive(Drop)]
struct Device<'a> {
    takes: &'static [usize],
    file: &'a mut Vec<u8>,
}

impl Write for Device<'_> {
    fn write(&mut self, bytes: &[u8]) -> io::Result<usize> {
        let count = match self.takes {
            [] => bytes.len(),
            [first, rest @ ..] => {
                self.takes = rest;
                bytes.len().min(*first)
            }
        };
        if count == 0 {
            return Err(io::Error::from(ErrorKind::StorageFull));
        }
        self.file.extend_from_slice(&bytes[..count])?;
        Ok(count)
    }

    fn flush(&mut self) -> io::Result<()> {
        Ok(())
    }
}

// What a device takes of each write, the seconds of one user's lines, and the file.
static DEVICES: [(&[usize], &[u64], &str); 3] = [
    // Part of the second line is there.
    (
        &[2, 1, 0, 0],
        &[7, 7, 7, 7],
        "*\n*\n*\n7 1000 - - - - 2 more\n",
    ),
    // The second doesn't end before it can be told what it has left out.
    (&[2, 0, 0], &[7, 7, 8, 9], "*\n\n7 1000 - - - - 2 more\n*\n"),
    // The line of a user that wasn't written takes room too.
    (&[0, 0], &[7, 8, 9], "\n7 1000 - - - - 2 more\n*\n"),
];

fn written_on(alloc: Global, takes: &'static [usize], seconds: &[u64]) -> io::Result<String> {
    let line = String::from_str(alloc, "*\n")?;
    let mut file = Vec::new(alloc);
    let mut list = UserLines::new(
        alloc,
        Device {
            takes,
            file: &mut file,
        },
    );
    for second in seconds {
        list.tell(*second, 1000, &line);
    }
    list.end()?;
    mem::drop(list);
    text_of(alloc, &file)
}

#[test]
fn counts_what_cannot_be_written(rt: HostRuntime) -> io::Result<()> {
    for (takes, seconds, wanted) in DEVICES {
        let file = written_on(rt.alloc(), takes, seconds)?;
        assert!(rt; file.as_str() == wanted, "{wanted}");
    }
    Ok(())
}
