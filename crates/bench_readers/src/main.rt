//! Reads a file as the lower crates do, and prints what was found: what `bench/regions` and `bench/sections` time.
#![tactic(auto)]

mod lookups;
mod reading;

use std::{env, fs, io};

fn main(rt: HostRuntime) -> io::Result<()> {
    let mut words = env::args(&rt)?;
    let _program = words.next();
    if let (Some(task), Some(path)) = (words.next(), words.next()) {
        let bytes = fs::read(&rt, path.as_str())?;
        let told = reading::told(rt.alloc(), task.as_str(), bytes.as_slice())?;
        println!(rt; "{told}")?;
    }
    Ok(())
}
