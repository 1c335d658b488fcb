//! The program `inofs`: makes, runs and checks file systems in images. `docs/inofs.1` says how it is called and what it prints.
//!
//! Its tests are of what its words ask for, of what it does for them on files of this machine, and of the line of each failure.
//! `bench/program` has more rows, on the program that was built.
#![tactic(auto)]

#[cfg(test)]
mod asking;
#[cfg(test)]
mod jobs;
#[cfg(test)]
mod report;
#[cfg(test)]
mod words;

use fs_command::Status;
use fs_program::{ProcFiles, Watched, perform};
use std::process::ExitCode;
use std::{env, io};

fn main(rt: HostRuntime) -> ExitCode {
    let words = match command_line(&rt) {
        Ok(words) => words,
        Err(error) => {
            let _ = eprintln!(rt; "error: {error}");
            return ExitCode::from(Status::BadWords.code());
        }
    };
    let status = perform(
        &rt,
        &words,
        ProcFiles::new(&rt),
        &mut Watched::new(rt.stdin()),
        &mut Watched::new(rt.stdout()),
        &mut rt.stderr(),
    );
    ExitCode::from(status)
}

// The words of the command line, the program's name first.
fn command_line(rt: &HostRuntime) -> io::Result<Vec<String>> {
    Ok(env::args(rt)?.collect(rt.alloc())?)
}
