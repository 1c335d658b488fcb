//! The program `player`, which is for tests alone: plays what stands in files, each time on a new file system in memory, and tells
//! whether it is answered as it has to be.
//!
//! It takes its words in their order:
//!
//! - `script:NAME`: the scripts of a file. It tells of each whether it is answered as its rows say; `scripts/script.rt` says what
//!   stands in such a file.
//! - `recording:NAME`: requests of Linux that were recorded. It tells how many there are, or which were replied otherwise than
//!   recorded; `requests/recording.rt` says what stands in such a file.
//! - `random:COUNT:SEED`: so many requests at random, made of the recordings that were named before.
//!
//! `data/` has the files.
#![tactic(auto)]

mod disks;
mod requests;
mod scripts;
mod values;

use crate::requests::recording::Recording;
use crate::requests::sessions::play_sessions;
use anyhow::bail;
use std::{env, fs, mem};

fn main(rt: HostRuntime) -> anyhow::Result<()> {
    let words: Vec<String> = env::args(&rt)?.collect(rt.alloc())?;
    let mut recordings = Vec::new(rt.alloc());
    let played = play_all(&rt, &mut recordings, &words);
    mem::drop(recordings);
    mem::drop(words);
    played
}

fn play_all(
    rt: &HostRuntime,
    recordings: &mut Vec<Recording>,
    words: &[String],
) -> anyhow::Result<()> {
    for word in words.iter().skip(1) {
        play(rt, recordings, word.as_str())?;
    }
    Ok(())
}

fn play(rt: &HostRuntime, recordings: &mut Vec<Recording>, word: &str) -> anyhow::Result<()> {
    match word.split_once(':') {
        Some(("script", name)) => play_scripts(rt, name),
        Some(("recording", name)) => {
            recordings.push(played(rt, name)?)?;
            Ok(())
        }
        Some(("random", words)) => play_sessions(rt, recordings, words),
        _ => bail!("{word}"),
    }
}

fn play_scripts(rt: &HostRuntime, name: &str) -> anyhow::Result<()> {
    let text = fs::read_to_string(rt, name)?;
    scripts::play(rt, name, text.as_str())
}

// The recording of a file, once it is played.
fn played(rt: &HostRuntime, name: &str) -> anyhow::Result<Recording> {
    let text = fs::read_to_string(rt, name)?;
    requests::play(rt, name, text.as_str())
}
