//! The program `ilspy`: `run_process` over the process's words, the system's files and standard output.
#![tactic(auto)]

use dc_outside::OpenGate;
use ilspy_cli::{process_words, run_process};
use ilspy_outside::{DirShelf, OutSink, SystemDisk};
use std::io;
use std::process::ExitCode;

fn main(rt: HostRuntime) -> ExitCode {
    let words = process_words(&rt);
    let mut shelf = DirShelf::of(SystemDisk::of(&rt));
    let mut out = OutSink::of(io::writer(&rt));
    run_process(&rt, rt.alloc(), &words, &mut shelf, &mut out, &OpenGate)
}
