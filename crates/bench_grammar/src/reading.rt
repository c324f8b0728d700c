// What comes of a text.

ghost use Rattle.std.specs.Prelude.{◌≤◌, ◌^◌, length};

use class_references::{CORE, references};
use cs_lex::text_of;
use cs_read::read;
use dc_base::Or;
use std::alloc::{AllocError, Global};

/// A line on what came of a file.
pub fn told(alloc: Global, task: &str, bytes: &[u8]) -> Result<String, AllocError> {
    if bytes.len() > 0x8000_0000 {
        return String::from_str(alloc, "too long");
    }
    match text_of(bytes) {
        Ok(text) => told_of_text(alloc, task, text),
        Err(fault) => format!(in alloc; "{fault}"),
    }
}

fn told_of_text(alloc: Global, task: &str, text: &str) -> Result<String, AllocError>
    requires { length text.now ≤ 2 ^ 31 }
{
    match task {
        "references" => told_of_references(alloc, text),
        "read" => told_of_read(alloc, text),
        _ => String::from_str(alloc, "a task is references or read"),
    }
}

fn told_of_references(alloc: Global, text: &str) -> Result<String, AllocError>
    requires { length text.now ≤ 2 ^ 31 }
{
    let name = if text == CORE { "the core: " } else { "" };
    match references(alloc, text) {
        Ok(table) => format!(in alloc;
            "{name}{} types, {} members",
            table.types(),
            table.members()
        ),
        Err(Or::Fault(fault)) => format!(in alloc; "{fault}"),
        Err(Or::NoMemory) => String::from_str(alloc, "no memory"),
    }
}

fn told_of_read(alloc: Global, text: &str) -> Result<String, AllocError>
    requires { length text.now ≤ 2 ^ 31 }
{
    match read(alloc, text) {
        Ok(unit) => format!(in alloc; "{} namespaces and types", unit.spaces.len()),
        Err(Or::Fault(fault)) => format!(in alloc; "{fault}"),
        Err(Or::NoMemory) => String::from_str(alloc, "no memory"),
    }
}
