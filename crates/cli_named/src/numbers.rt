// The numbers of rows.

ghost use Rattle.std.specs.Prelude.{◌≡◌, ◌≤◌};
ghost use Rattle.cli_named.specs.Numbers.{nameable, numbers_of, count_of, specs_from, members_from, sigs_from, numbered, number_of};

use cli_metadata::{Metadata, Table};
use dc_base::Token;

/// How many rows of the tables TypeRef, TypeSpec, MemberRef and StandAloneSig tokens can name. The rows are numbered in this
/// order, from 0 on.
#[derive(Clone, Copy, Debug, PartialEq, Eq)]
pub struct Numbers {
    pub type_refs: u32,
    pub type_specs: u32,
    pub member_refs: u32,
    pub sigs: u32,
}

// The greatest number of a row that a token can name.
const LAST: u32 = 0xFF_FFFF;

// How many rows a token can tell of a table, with row 0.
const ROWS: u32 = 0x100_0000;

impl Numbers {
    /// Those of an assembly.
    pub fn of(metadata: &Metadata) -> Numbers
        ensures { result ≡ numbers_of metadata.now }
    {
        Numbers {
            type_refs: nameable(metadata, Table::TypeRef),
            type_specs: nameable(metadata, Table::TypeSpec),
            member_refs: nameable(metadata, Table::MemberRef),
            sigs: nameable(metadata, Table::StandAloneSig),
        }
    }

    /// How many rows have numbers.
    pub fn count(&self) -> u32
        requires refs { self.now.type_refs ≤ 0xFFFFFF }
        requires specs { self.now.type_specs ≤ 0xFFFFFF }
        requires members { self.now.member_refs ≤ 0xFFFFFF }
        requires sigs { self.now.sigs ≤ 0xFFFFFF }
        ensures { result ≡ count_of self.now }
    {
        self.type_refs + self.type_specs + self.member_refs + self.sigs
    }

    /// The number of the row of a token; none where it is of another table, or isn't there.
    pub fn number(&self, token: Token) -> Option<u32>
        requires refs { self.now.type_refs ≤ 0xFFFFFF }
        requires specs { self.now.type_specs ≤ 0xFFFFFF }
        requires members { self.now.member_refs ≤ 0xFFFFFF }
        requires sigs { self.now.sigs ≤ 0xFFFFFF }
        ensures { result ≡ number_of self.now token }
    {
        let row = token.0 % ROWS;
        match token.0 / ROWS {
            0x01 => numbered(0, self.type_refs, row),
            0x1B => numbered(self.type_refs, self.type_specs, row),
            0x0A => numbered(self.type_refs + self.type_specs, self.member_refs, row),
            0x11 => numbered(
                self.type_refs + self.type_specs + self.member_refs,
                self.sigs,
                row,
            ),
            _ => None,
        }
    }
}

fn nameable(metadata: &Metadata, table: Table) -> u32
    ensures { result ≡ nameable metadata.now table }
{
    metadata.rows(table).min(LAST)
}

fn numbered(before: u32, rows: u32, row: u32) -> Option<u32>
    requires before { before ≤ 0x2FFFFFD }
    requires rows { rows ≤ 0xFFFFFF }
    ensures { result ≡ numbered before rows row }
{
    if row == 0 || rows < row {
        return None;
    }
    Some(before + (row - 1))
}
