//! What is answered to a line, and how it is written.
ghost use Rattle.std.specs.Prelude.{◌≡◌, ◌⊎◌, ◌++◌, ◌∷◌, [], Err, IfErr, OnOk, string_bytes};
ghost use Rattle.std.specs.Io.KnownBytes.{Appends};
ghost use Rattle.fs_shell.specs.declared.fault.RunFault.TheVariants.{WriteFault, OutOfMemory};
ghost use Rattle.fs_shell.specs.Runs.{answer_text};
ghost use Rattle.fs_shell.specs.Watching.{FailsWhere};

use crate::fault::RunFault;
use crate::runner::Watched;
use fs_lines::{LineFault, fault_text, reply_text};
use fs_model::Reply;
use std::alloc::Global;
use std::io::Write;

/// What is answered to a line.
#[derive(Drop)]
pub enum Answer {
    /// Nothing was asked.
    Nothing,
    /// The file system's reply.
    Reply(Reply),
    /// The line wasn't performed.
    Fault(LineFault),
}

/// How many lines a script had.
#[derive(Clone, Copy, Debug, PartialEq, Eq)]
pub struct Count {
    /// All lines, blank ones and comments too.
    pub lines: usize,
    /// The lines that were answered with a fault.
    pub faults: usize,
}

impl Answer {
    ghost use Rattle.fs_shell.specs.Runs.{faults_counted};

    /// 1 where the line had a fault, and else 0.
    pub fn faults(&self) -> usize
        ensures { result ≡ faults_counted self.now }
    {
        match self {
            Answer::Nothing | Answer::Reply(_) => 0,
            Answer::Fault(_) => 1,
        }
    }
}

/// Writes an answer, if there is one, on a line of its own.
pub fn write_answer<W: Write>(
    alloc: Global,
    writer: &mut Watched<W>,
    answer: Answer,
) -> Result<(), RunFault>
    ensures written { OnOk result (Appends (W.contents writer.old.inner) (W.contents writer.new.inner) (answer_text answer)) }
    ensures failed { FailsWhere writer.old.failed writer.new.failed (result ≡ Err WriteFault) }
    ensures fault { IfErr result (λ fault. (fault ≡ WriteFault) ⊎ (fault ≡ OutOfMemory)) }
{
    match answer {
        Answer::Nothing => Ok(()),
        Answer::Reply(reply) => {
            let text = reply_text(alloc, &reply);
            reply.discard();
            write_line(writer, text?)
        }
        Answer::Fault(fault) => write_line(writer, fault_text(alloc, fault)?),
    }
}

fn write_line<W: Write>(writer: &mut Watched<W>, text: String) -> Result<(), RunFault>
    ensures written { OnOk result (Appends (W.contents writer.old.inner) (W.contents writer.new.inner) (string_bytes text ++ 10 ∷ [])) }
    ensures failed { FailsWhere writer.old.failed writer.new.failed (result ≡ Err WriteFault) }
    ensures fault { IfErr result (λ fault. (fault ≡ WriteFault) ⊎ (fault ≡ OutOfMemory)) }
{
    let mut text = text;
    text.push('\n')?;
    match writer.write_all(text.as_bytes()) {
        Ok(()) => Ok(()),
        Err(_) => Err(RunFault::WriteFault),
    }
}
