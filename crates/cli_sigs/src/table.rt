// The tables whose rows have signatures.

ghost use Rattle.std.specs.Prelude.{◌≡◌, ◌≤◌, ◌<◌, ◌^◌};
ghost use Rattle.cli_sigs.specs.Rows.{table_of, table_number, token_at};

use cli_metadata::Table;
use dc_base::Token;

/// A table whose rows have signatures.
#[derive(Clone, Copy, Debug, PartialEq, Eq)]
pub enum SigTable {
    Field,
    MethodDef,
    MemberRef,
    StandAloneSig,
    Property,
    TypeSpec,
}

impl SigTable {
    // By their numbers.
    pub(crate) const ALL: [SigTable; 6] = [
        SigTable::Field,
        SigTable::MethodDef,
        SigTable::MemberRef,
        SigTable::StandAloneSig,
        SigTable::Property,
        SigTable::TypeSpec,
    ];

    pub(crate) fn table(self) -> Table
        ensures { result ≡ table_of self }
    {
        match self {
            SigTable::Field => Table::Field,
            SigTable::MethodDef => Table::MethodDef,
            SigTable::MemberRef => Table::MemberRef,
            SigTable::StandAloneSig => Table::StandAloneSig,
            SigTable::Property => Table::Property,
            SigTable::TypeSpec => Table::TypeSpec,
        }
    }

    fn number(self) -> u32
        ensures is { result ≡ table_number self }
        ensures low { result ≤ 0x1B }
    {
        match self {
            SigTable::Field => 0x04,
            SigTable::MethodDef => 0x06,
            SigTable::MemberRef => 0x0A,
            SigTable::StandAloneSig => 0x11,
            SigTable::Property => 0x17,
            SigTable::TypeSpec => 0x1B,
        }
    }

    // The token of row r.
    pub(crate) fn token(self, r: u32) -> Token
        requires { r < 2 ^ 24 }
        ensures { result ≡ token_at self r }
    {
        Token(self.number() * 0x100_0000 + r)
    }
}
