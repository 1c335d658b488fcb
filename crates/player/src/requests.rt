//! Requests of the kernel: those of recordings, and random ones made of them.

mod chance;
mod changing;
mod handles;
mod leaving;
mod playing;
pub mod recording;
mod replaying;
pub mod sessions;

use crate::values::value_after;
use recording::Recording;
use replaying::replay;
use std::mem;

/// Plays a recording on a new file system, and tells how many requests there are in it, or which were replied otherwise than
/// recorded.
pub fn play(rt: &HostRuntime, name: &str, text: &str) -> anyhow::Result<Recording> {
    let recording = Recording::read(rt.alloc(), text)?;
    value_after(tell(rt, name, &recording), recording)
}

fn tell(rt: &HostRuntime, name: &str, recording: &Recording) -> anyhow::Result<()> {
    let told = replay(rt.alloc(), name, recording)?;
    let printed = print!(rt; "{told}");
    mem::drop(told);
    Ok(printed?)
}
