//! Builds a class table of made rows, and prints what came of it: what `bench/classes` times.
#![tactic(auto)]

mod building;
mod made;

use std::{env, io};

fn main(rt: HostRuntime) -> io::Result<()> {
    let mut words = env::args(&rt)?;
    let _program = words.next();
    if let (Some(task), Some(shape), Some(count)) = (words.next(), words.next(), words.next()) {
        let told = building::told(rt.alloc(), task.as_str(), shape.as_str(), count.as_str())?;
        println!(rt; "{told}")?;
    }
    Ok(())
}
