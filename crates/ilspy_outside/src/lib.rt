//! The files and the output of the system, as a shelf and a sink.
//!
//! [`DirShelf`] reads the files of a [`Disk`], and [`OutSink`] writes to a writer. Both are proved for every disk and writer:
//! where those tell their bytes, a shelf gives just the bytes of the named file, and a writer holds just what the sink says
//! that it took. [`SystemDisk`] is the system's: the kit says of its files no more than how many bytes a read gave.
#![tactic(auto)]

mod dir_shelf;
mod disk;
mod front;
mod out_sink;

pub use dir_shelf::DirShelf;
pub use disk::{Disk, SystemDisk};
pub use out_sink::OutSink;
