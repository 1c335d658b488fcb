//! Says who may do what at a path of a disk's file system.

ghost use Rattle.std.specs.Prelude.{◌≡◌, Ok};
ghost use Rattle.fs_access.specs.Sentences.{told_text};
ghost use Rattle.fs_program.specs.Answering.{AccessEnds, AnswersSo, MountedAnswers, answer_status};
ghost use Rattle.fs_program.specs.Streams.{writing};
ghost use Rattle.fs_program.specs.Tellings.{Tells};

use crate::copying::Copying;
use crate::disks::written;
use crate::failure::Failure;
use fs_access::{AccessFault, Answer, Question, ask, print_answer};
use fs_command::Status;
use fs_shell::Watched;
use fs_system::Fs;
use sector_disk::Disk;
use std::alloc::Global;
use std::io::Write;

/// Mounts a disk, asks its file system, and prints the answer. The disk is let go of as it is then: it is one in memory.
pub(crate) fn answer_on_disk<D: Disk + Drop, O: Write>(
    alloc: Global,
    disk: D,
    question: &Question<'_>,
    json: bool,
    out: &mut Watched<O>,
) -> Result<Status, Failure>
    ensures { AccessEnds D.state disk question.now json (writing O.contents out.old out.new) result }
{
    match Fs::mount(alloc, disk) {
        Ok(fs) => answer_mounted(alloc, fs, question, json, out),
        Err((fault, _)) => Err(Failure::Mount(fault)),
    }
}

fn answer_mounted<D: Disk + Drop, O: Write>(
    alloc: Global,
    fs: Fs<D>,
    question: &Question<'_>,
    json: bool,
    out: &mut Watched<O>,
) -> Result<Status, Failure>
    ensures { MountedAnswers D.state fs question.now json (writing O.contents out.old out.new) result }
{
    match ask_mounted(alloc, fs, question) {
        Ok(answer) => Ok(tell_answer(alloc, question, &answer, json, out)),
        Err(fault) => Err(Failure::Access(fault)),
    }
}

fn ask_mounted<D: Disk + Drop>(
    alloc: Global,
    fs: Fs<D>,
    question: &Question<'_>,
) -> Result<Answer, AccessFault>
    ensures { AnswersSo D.state fs question.now result }
{
    let mut machine = Copying::new(fs);
    ask(alloc, &mut machine, question)
}

// The status of an answer, which is printed.
fn tell_answer<O: Write>(
    alloc: Global,
    question: &Question<'_>,
    answer: &Answer,
    json: bool,
    out: &mut Watched<O>,
) -> Status
    ensures { Tells (writing O.contents out.old out.new) (told_text json question.now answer.now) (answer_status answer.now) (Ok result) }
{
    let printed = print_answer(alloc, question, answer, json, out);
    written(printed, status_of(answer))
}

fn status_of(answer: &Answer) -> Status
    ensures { result ≡ answer_status answer.now }
{
    if answer.is_granted() {
        Status::Done
    } else {
        Status::Faulty
    }
}
