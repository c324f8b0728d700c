//! The outside of the decompiler, as three traits: a program reads files from a [`Shelf`], writes bytes to a [`Sink`], and its
//! workers pass a [`Gate`].
//!
//! Shelf and sink keep a count of their failed calls: a call answers `Failed` only where it raised that count, so whoever hands
//! a failure on can say where it came from. [`MemShelf`], [`MemSink`] and [`FreeSink`] are outsides in memory whose every
//! answer is known beforehand, want of memory aside.
#![tactic(auto)]

mod free_sink;
mod gate;
mod log;
mod mem_shelf;
mod mem_sink;
mod script;
mod shelf;
mod sink;

pub use free_sink::FreeSink;
pub use gate::{Gate, OpenGate};
pub use log::{ShelfLog, SinkLog};
pub use mem_shelf::MemShelf;
pub use mem_sink::MemSink;
pub use shelf::{Shelf, TakeFault};
pub use sink::{Failed, Sink};
