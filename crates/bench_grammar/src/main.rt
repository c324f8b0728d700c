//! Reads a file as a text of the grammar, and prints what came of it: what `bench/grammar` times.
#![tactic(auto)]

mod reading;

use std::{env, fs, io};

fn main(rt: HostRuntime) -> io::Result<()> {
    let mut words = env::args(&rt)?;
    let _program = words.next();
    if let (Some(task), Some(path)) = (words.next(), words.next()) {
        let bytes = fs::read(&rt, path.as_str())?;
        let told = reading::told(rt.alloc(), task.as_str(), bytes.as_slice())?;
        println!(rt; "{told}")?;
    }
    Ok(())
}
