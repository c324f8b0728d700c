//! Metadata: its root, heaps and tables (ECMA-335 II.22, II.24). `Metadata::of` finds the streams and the place of each
//! table once and walks no row; what it hands out are slices of the bytes that it was made of, and nothing takes memory.
//!
//! ```text
//! root ─ stream headers ─ #~: fields, row counts, table ─ table ─ ..  each row: its cells, side by side
//!                       ─ #Strings, #US, #Blob: items that begin at an index
//! ```
//!
//! Places count bytes from the root's first one. The tables with their columns stand in `TABLES`, the coded indices with
//! their tables in `Coded::targets`. A row comes as a type that names its columns, a `TableRow`: those types are in the
//! crate `cli_tables`.
#![tactic(auto)]

mod coded_index;
mod coded_tokens;
mod fault;
mod heaps;
mod laws;
mod layout;
mod metadata;
mod reading;
mod root;
mod row;
mod tables;
mod widths;

pub use coded_index::{Coded, Targets};
pub use coded_tokens::{CodedIndex, coded};
pub use dc_base::compressed;
pub use fault::{MetaCause, MetaFault};
pub use laws::{one_reading, rows_are_whole, tables_are_the_standards};
pub use metadata::Metadata;
pub use row::TableRow;
pub use tables::{Column, MOST_COLUMNS, TABLE_NUMBERS, TABLES, Table};

#[cfg(test)]
mod tests;
