// What is found in a file.

ghost use Rattle.std.specs.Prelude.{◌≤◌, ◌^◌, length};

use crate::lookups::{indexed, scanned};
use cil_body::{body_has_ranges, decode};
use cil_regions::regions;
use dc_base::Or;
use pe_image::Image;
use std::alloc::{AllocError, Global};

/// The most bytes that a file may have.
const LIMIT: usize = 16_777_216;

/// A line on what the task finds in these bytes.
pub fn told(alloc: Global, task: &str, bytes: &[u8]) -> Result<String, AllocError> {
    if bytes.len() > LIMIT {
        return String::from_str(alloc, "the file is too long");
    }
    match task {
        "regions" => told_of_body(alloc, bytes),
        "scan" => told_of_image(alloc, bytes, false),
        "index" => told_of_image(alloc, bytes, true),
        _ => String::from_str(alloc, "a task is regions, scan or index"),
    }
}

// How many regions a body has, or why they make no tree.
fn told_of_body(alloc: Global, bytes: &[u8]) -> Result<String, AllocError>
    requires { length bytes.now ≤ 2 ^ 24 }
{
    let Ok(body) = decode(alloc, bytes, u32::MAX) else {
        return String::from_str(alloc, "no body");
    };
    body_has_ranges();
    match regions(alloc, &body) {
        Ok(tree) => format!(in alloc; "{} regions", tree.nodes.items().len()),
        Err(Or::Fault(fault)) => format!(in alloc; "{fault}"),
        Err(Or::NoMemory) => String::from_str(alloc, "no memory"),
    }
}

// What many addresses of an image have, by its index or without one.
fn told_of_image(alloc: Global, bytes: &[u8], by_index: bool) -> Result<String, AllocError>
    requires { length bytes.now ≤ 2 ^ 24 }
{
    let Ok(image) = Image::of(bytes) else {
        return String::from_str(alloc, "no image");
    };
    let found = if by_index {
        let Ok(index) = image.index(alloc) else {
            return String::from_str(alloc, "no memory");
        };
        indexed(&index)
    } else {
        scanned(&image)
    };
    format!(in alloc; "{} ranges with {} bytes", found.ranges, found.bytes)
}
