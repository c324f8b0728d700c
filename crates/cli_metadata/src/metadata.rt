// Metadata as a whole.

ghost use Rattle.std.specs.Prelude.{◌≡◌, ◌≤◌, ◌<◌, ◌^◌, length, take, drop, IfOk, IfErr};
ghost use Rattle.cli_metadata.specs.Standing.{IsWithin, IsStanding};
ghost use Rattle.cli_metadata.specs.Read.{metadata_of};
ghost use Rattle.cli_metadata.specs.Wrong.{IsWrong};
ghost use Rattle.cli_metadata.specs.Metadata.{heap_of, rows_of, row_of, IsString, IsNoString, IsItem, IsNoItem, IsUserString, IsNoUserString, IsFaultAt};

use crate::layout::{Placed, tables_of};
use crate::reading::{front, rest};
use crate::root::{Stream, streams_of};
use crate::row::{cells_of, row_start};
use crate::{MetaFault, TABLE_NUMBERS, TABLES, Table, TableRow, heaps};
use std::marker::Model;

/// The metadata of a file: what its rows and heaps hold are slices of the bytes that it was made of. Contracts see the
/// heaps, and where each table stands.
#[derive(Debug, Drop)]
pub struct Metadata<'a> {
    strings: &'a [u8],
    user_strings: &'a [u8],
    blobs: &'a [u8],
    stream: &'a [u8],
    tables: [Placed; TABLE_NUMBERS],
}

impl<'a> Model for Metadata<'a> {
    ghost use Rattle.std.specs.Prelude.{length};
    ghost use Rattle.cli_metadata.specs.Metadata.{Contents};
    ghost use Rattle.cli_metadata.specs.Standing.{ArePlaced};

    ghost Value = { Contents };

    ghost view = { λ m. record {
      strings = m.strings.now;
      user_strings = m.user_strings.now;
      blobs = m.blobs.now;
      stream = m.stream.now;
      tables = m.tables;
    } };

    ghost invariant = { λ m. ArePlaced (length m.stream.now) m.tables };
}

impl<'a> Metadata<'a> {
    /// Reads the metadata that begins with these bytes: its root, its streams, and where its tables stand. No row is read.
    /// What is wrong comes in the order of the causes, and of one cause the least place. Takes no memory.
    pub fn of(bytes: &'a [u8]) -> Result<Metadata<'a>, MetaFault>
        requires { length bytes.now < 2 ^ 32 }
        ensures read { IfOk result (IsStanding bytes.now) }
        ensures fault { IfErr result (λ fault. IsWrong bytes.now fault.place fault.cause) }
    {
        Metadata::read(bytes)
    }

    // The same, step by step.
    #[tactic(auto, unfolding(crate::specs::Read::metadata_with))]
    fn read(bytes: &'a [u8]) -> Result<Metadata<'a>, MetaFault>
        requires { length bytes.now < 2 ^ 32 }
        ensures { result ≡ metadata_of bytes.now }
    {
        let streams = streams_of(bytes)?;
        let stream = front(
            bytes,
            streams.tables.from as usize + streams.tables.size as usize,
        );
        let tables = tables_of(&TABLES, stream, streams.tables.from as usize)?;
        Ok(Metadata {
            strings: heap_of(bytes, streams.strings),
            user_strings: heap_of(bytes, streams.user_strings),
            blobs: heap_of(bytes, streams.blobs),
            stream,
            tables,
        })
    }

    /// The number of rows of a table.
    pub fn rows(&self, table: Table) -> u32
        ensures { result ≡ rows_of self.now table }
    {
        self.tables[usize::from(table.number())].rows
    }

    /// A row, in constant time. Rows count from 1.
    pub fn row<R: TableRow>(&self, n: u32) -> R
        requires low { 1 ≤ n }
        requires high { n ≤ rows_of self.now R.TABLE }
        ensures { result ≡ R.of_cells (row_of self.now R.TABLE n) }
    {
        let placed = self.tables[usize::from(R::TABLE.number())];
        let start = row_start(&placed, n, self.stream.len());
        R::of(&cells_of(&placed.widths, rest(self.stream, start)))
    }

    /// The text that begins at a place of the heap of strings.
    pub fn string(&self, i: u32) -> Result<&'a str, MetaFault>
        ensures found { IfOk result (λ text. IsString self.now.strings i text.now) }
        ensures fault { IfErr result (IsFaultAt (IsNoString self.now.strings i) i) }
    {
        heaps::string(self.strings, i)
    }

    /// The item that begins at a place of the heap of blobs.
    pub fn blob(&self, i: u32) -> Result<&'a [u8], MetaFault>
        ensures found { IfOk result (λ item. IsItem self.now.blobs i item.now) }
        ensures fault { IfErr result (IsFaultAt (IsNoItem self.now.blobs i) i) }
    {
        heaps::item(self.blobs, i)
    }

    /// The UTF-16 units of the user string that begins at a place of its heap, two bytes each, the low one first.
    pub fn user_string(&self, i: u32) -> Result<&'a [u8], MetaFault>
        ensures found { IfOk result (λ text. IsUserString self.now.user_strings i text.now) }
        ensures fault { IfErr result (IsFaultAt (IsNoUserString self.now.user_strings i) i) }
    {
        heaps::user_string(self.user_strings, i)
    }
}

// The bytes of a stream, which is empty where it is missing.
fn heap_of(bytes: &[u8], stream: Option<Stream>) -> &[u8]
    requires { IsWithin (length bytes.now) stream }
    ensures { result.now ≡ heap_of bytes.now stream }
{
    match stream {
        Some(s) => front(rest(bytes, s.from as usize), s.size as usize),
        None => &[],
    }
}
