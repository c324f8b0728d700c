//! The image of an assembly (ECMA-335 II.25): a PE file whose sections are loaded at addresses, with the CLI header
//! that names the metadata. Whoever has an address asks here for the bytes at it, and is handed a slice of the file.
//!
//! ```text
//! file   | .. 3C: place of "PE" | "PE" 0 0 | COFF header | optional header | section headers | .. raw bytes ..
//!                                                          data directory 14: address of the CLI header
//! memory | .. a section at its address: `size` raw bytes of the file from `start` on ..
//! ```
//!
//! [`Image::of`] reads the headers alone, and takes no memory. [`Image::at`] and [`Image::rest`] go over the section headers
//! at each call; whoever looks up many addresses keeps an [`ImageIndex`], which answers the same.
#![tactic(auto)]

mod blocks;
mod cli;
mod fault;
mod headers;
mod image;
mod index;
mod laws;
mod number;
mod sections;
#[cfg(test)]
mod tests;

pub use fault::{ImageCause, ImageFault};
pub use image::Image;
pub use index::ImageIndex;
pub use laws::{one_reading, ranges_are_within};
