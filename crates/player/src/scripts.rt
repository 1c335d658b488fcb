//! Scripts with the replies that they have to get.

mod row;
mod script;
mod served;
mod stopped;
mod trial;

use script::Script;
use std::mem;
use trial::outcome;

/// Plays each script of a file on a new file system, and tells how it is answered.
pub fn play(rt: &HostRuntime, name: &str, text: &str) -> anyhow::Result<()> {
    let mut parts = text.split("\n== ");
    let head = parts.next().unwrap_or("");
    for part in parts {
        play_script(rt, name, head, part)?;
    }
    Ok(())
}

fn play_script(rt: &HostRuntime, name: &str, head: &str, part: &str) -> anyhow::Result<()> {
    let script = Script::read(rt.alloc(), head, part)?;
    let title = script.title;
    let outcome = outcome(rt.alloc(), &script);
    mem::drop(script);
    let outcome = outcome?;
    println!(rt; "{name}: {title}: {outcome}")?;
    Ok(())
}
