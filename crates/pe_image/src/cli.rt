// The CLI header.

ghost use Rattle.std.specs.Prelude.{◌≡◌, ◌+◌, ◌≤◌, length, IfSome, IfNone};
ghost use Rattle.std.specs.Bool.{OnTrue, OnFalse};
ghost use Rattle.pe_image.specs.Table.{sections_of, IsTable};
ghost use Rattle.pe_image.specs.Cli.{Names, HasCli, IsIlOnly, directory_place};
ghost use Rattle.pe_image.specs.declared.sections.Span.{Span};

use crate::headers::Headers;
use crate::number::u32_at;
use crate::sections::{Span, Table};

/// How many bytes a CLI header has.
const HEADER_LEN: u32 = 72;

/// The place of data directory 14, that of the CLI header.
pub fn directory_of(headers: Headers) -> usize
    ensures { result ≡ directory_place headers }
{
    headers.optional() + headers.format.cli_directory()
}

/// The ranges of the CLI header and of the metadata that it names.
pub fn cli_of(file: &[u8], headers: Headers, table: Table) -> Option<(Span, Span)>
    requires { IsTable file.now table }
    ensures found { IfSome result (λ found. HasCli file.now headers (sections_of file.now table) found.0 found.1) }
    ensures none { IfNone result
        ((cli metadata : Span) → HasCli file.now headers (sections_of file.now table) cli metadata → ⊥) }
{
    if usize::from(headers.optional_size) < headers.format.cli_directory() + 8 {
        return None;
    }
    let address = u32_at(file, directory_of(headers))?;
    if address == 0 {
        return None;
    }
    let cli = table.range_at(file, address, HEADER_LEN)?;
    let metadata = metadata_of(file, table, cli)?;
    Some((cli, metadata))
}

// The range of the metadata that the CLI header in this range names.
fn metadata_of(file: &[u8], table: Table, cli: Span) -> Option<Span>
    requires table { IsTable file.now table }
    requires within { cli.start + 72 ≤ length file.now }
    ensures found { IfSome result (Names file.now (sections_of file.now table) cli) }
    ensures none { IfNone result ((metadata : Span) → Names file.now (sections_of file.now table) cli metadata → ⊥) }
{
    let address = u32_at(file, cli.start + 8)?;
    let size = u32_at(file, cli.start + 12)?;
    table.range_at(file, address, size)
}

/// Whether the flags of the CLI header say that the image has CIL alone.
pub fn is_il_only(file: &[u8], cli: Span) -> bool
    requires { cli.start + 72 ≤ length file.now }
    ensures yes { OnTrue result (IsIlOnly file.now cli) }
    ensures no { OnFalse result (IsIlOnly file.now cli → ⊥) }
{
    u32_at(file, cli.start + 16).is_some_and(|flags| flags % 2 == 1)
}
